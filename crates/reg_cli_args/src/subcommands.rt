//! The subcommands that change a registry.

ghost use Rattle.std.specs.Prelude.{IfOk, [], ◌∷◌, ◌++◌, codes};
ghost use Rattle.reg_cli_args.specs.Grammar.{level, option_rule, order_levels, scope_rules, source_rules, with_levels, with_options, with_rules};
ghost use Rattle.reg_cli_args.specs.Making.{Adds, HasLevel, HasRule};
ghost use Rattle.reg_cli_args.specs.declared.parameters.Words.TheVariants.{Login};

use crate::parameters::{
    HelpEntry, MadeCommand, Shape, Words, option, subcommand, with_entries, with_level,
};
use clap::{Arg, Command};
use std::alloc::{AllocError, Global};

const USER_ADD: HelpEntry = HelpEntry {
    name: "user-add",
    about: "Adds an account. A login has 1 to 32 of a to z, 0 to 9, - and _, a letter first",
    example: "Example:\n  registry_cli user-add ada --name 'Ada Lovelace' --db r.db",
    words: Words::Login,
};

const TOKEN_ADD: HelpEntry = HelpEntry {
    name: "token-add",
    about: "Adds a token of an account. Prints its number, and its text, which is kept nowhere; \
            with --digest its number alone",
    example: "Example:\n  registry_cli token-add ada --endpoints publish-new,publish-update \
              --patterns 'acme-*' --db r.db",
    words: Words::Login,
};

/// The subcommands that need no options.
const PLAIN: [HelpEntry; 10] = [
    HelpEntry {
        name: "user-disable",
        about: "Disables an account: its tokens are refused until it is enabled again",
        example: "Example:\n  registry_cli user-disable bob --db r.db",
        words: Words::Login,
    },
    HelpEntry {
        name: "user-enable",
        about: "Enables an account again",
        example: "Example:\n  registry_cli user-enable bob --db r.db",
        words: Words::Login,
    },
    HelpEntry {
        name: "token-revoke",
        about: "Revokes a token, for good",
        example: "Example:\n  registry_cli token-revoke 3 --db r.db",
        words: Words::Id,
    },
    HelpEntry {
        name: "reserve",
        about: "Reserves a name: no new crate takes it",
        example: "Example:\n  registry_cli reserve acme --db r.db",
        words: Words::Name,
    },
    HelpEntry {
        name: "unreserve",
        about: "Sets a reserved name free; con, nul and their like stay reserved",
        example: "Example:\n  registry_cli unreserve acme --db r.db",
        words: Words::Name,
    },
    HelpEntry {
        name: "owner-add",
        about: "Makes an account an owner of a crate, without asking a token",
        example: "Example:\n  registry_cli owner-add acme-net bob --db r.db",
        words: Words::CrateAndLogin,
    },
    HelpEntry {
        name: "crate-restrict",
        about: "Lets only its owners and readers see a crate",
        example: "Example:\n  registry_cli crate-restrict acme-net --db r.db",
        words: Words::Crate,
    },
    HelpEntry {
        name: "crate-open",
        about: "Lets every token see a crate again",
        example: "Example:\n  registry_cli crate-open acme-net --db r.db",
        words: Words::Crate,
    },
    HelpEntry {
        name: "reader-add",
        about: "Makes an account a reader of a crate, which counts where the crate is restricted",
        example: "Example:\n  registry_cli reader-add acme-net bob --db r.db",
        words: Words::CrateAndLogin,
    },
    HelpEntry {
        name: "reader-remove",
        about: "Makes an account no reader of a crate",
        example: "Example:\n  registry_cli reader-remove acme-net bob --db r.db",
        words: Words::CrateAndLogin,
    },
];

/// `user-add`.
fn user_add<'a>(alloc: Global, shape: Shape) -> MadeCommand<'a>
    ensures { IfOk result (HasLevel (with_options (level shape (codes "user-add") Login)
        (option_rule (codes "name") ∷ []))) }
{
    let help = "The name that owner lists show: 1 to 100 printable ASCII characters";
    subcommand(alloc, shape, &USER_ADD)?.arg(option(alloc, "name", "TEXT", help))
}

/// The options of `token-add` that say what it may do.
fn with_scopes<'a>(alloc: Global, command: Command<'a>) -> MadeCommand<'a>
    ensures { Adds (λ a. with_rules a scope_rules) command.entry result }
{
    let endpoints =
        "What it may do, one at least: publish-new, publish-update, yank, change-owners, separated \
         by commas";
    let patterns = "The crates that it may act on: names, or prefixes before *, separated by \
                    commas. Without it: all";
    command
        .arg(option(alloc, "endpoints", "LIST", endpoints))?
        .arg(option(alloc, "patterns", "LIST", patterns))
}

fn digest<'a>(alloc: Global) -> Arg<'a>
    ensures { HasRule (option_rule (codes "digest")) result }
{
    let help = "The SHA-256 of the token's text, as 64 hex digits, in place of random bytes";
    option(alloc, "digest", "HEX", help)
}

/// The options of `token-add` that say where its text or digest comes from.
fn with_source<'a>(alloc: Global, shape: Shape, command: Command<'a>) -> MadeCommand<'a>
    ensures { Adds (λ a. with_rules a (source_rules shape)) command.entry result }
{
    let random = "The file whose first 32 bytes make the token's text. Without it: /dev/urandom";
    match shape {
        Shape::Setup => command.arg(digest(alloc)),
        Shape::Program => command
            .arg(option(alloc, "random", "FILE", random))?
            .arg(digest(alloc).conflicts_with("random")?),
    }
}

/// `token-add`.
fn token_add<'a>(alloc: Global, shape: Shape) -> MadeCommand<'a>
    ensures { IfOk result (HasLevel (with_options (level shape (codes "token-add") Login)
        (scope_rules ++ source_rules shape))) }
{
    let command = subcommand(alloc, shape, &TOKEN_ADD)?;
    with_source(alloc, shape, with_scopes(alloc, command)?)
}

/// Adds the subcommands that a setup file may also have: all that change a registry.
pub(crate) fn with_orders<'a>(alloc: Global, shape: Shape, command: Command<'a>) -> MadeCommand<'a>
    ensures { Adds (λ a. with_levels a (order_levels shape)) command.entry result }
{
    let command = with_level(command, user_add(alloc, shape))?;
    let command = with_level(command, token_add(alloc, shape))?;
    with_entries(alloc, shape, &PLAIN, command)
}
