//! The subcommands that report on a registry.

ghost use Rattle.std.specs.Prelude.{◌≡◌, IfSome, option_map};
ghost use Rattle.reg_model.specs.Events.Event.{Order};
ghost use Rattle.reg_model.specs.Steps.{IsFit};
ghost use Rattle.reg_policy.specs.Events.{command_of};
ghost use Rattle.reg_cli_args.specs.Grammar.{plain_levels, report_words, with_levels};
ghost use Rattle.reg_cli_args.specs.Making.{Adds};
ghost use Rattle.reg_cli_args.specs.Orders.{given_by, report_command};

use crate::parameters::{HelpEntry, MadeCommand, Shape, Words, with_entries};
use clap::{ArgMatches, Command};
use reg_policy::AdminCommand;
use std::alloc::Global;

const REPORTS: [HelpEntry; 4] = [
    HelpEntry {
        name: "users",
        about: "Lists the accounts: number, login, whether it is enabled, name",
        example: "Example:\n  registry_cli users --db r.db",
        words: Words::Nothing,
    },
    HelpEntry {
        name: "tokens",
        about: "Lists the tokens: number, login, whether it is live, endpoints, patterns",
        example: "Example:\n  registry_cli tokens --db r.db",
        words: Words::Nothing,
    },
    HelpEntry {
        name: "crates",
        about: "Lists the crates: name, number of versions, highest version",
        example: "Example:\n  registry_cli crates --db r.db",
        words: Words::Nothing,
    },
    HelpEntry {
        name: "access",
        about: "Lists who may act on a crate, by which token and endpoint, and who reads it where \
                it is restricted; of a free name, who may publish it first",
        example: "Example:\n  registry_cli access acme-net --db r.db",
        words: Words::Crate,
    },
];

/// Adds the subcommands that only report.
pub(crate) fn with_reports<'a>(alloc: Global, shape: Shape, command: Command<'a>) -> MadeCommand<'a>
    ensures { Adds (λ a. with_levels a (plain_levels shape report_words)) command.entry result }
{
    with_entries(alloc, shape, &REPORTS, command)
}

/// The report that a subcommand asks for, if any.
pub fn read_report<'a>(name: &str, words: &ArgMatches<'a>) -> Option<AdminCommand<'a>>
    ensures orders { option_map command_of result ≡ report_command name.now (given_by words.now) }
    ensures fit { IfSome result (λ c. IsFit (Order (command_of c))) }
{
    match name {
        "users" => Some(AdminCommand::Users),
        "tokens" => Some(AdminCommand::Tokens),
        "crates" => Some(AdminCommand::Crates),
        "access" => Some(AdminCommand::Access(words.get_str("CRATE")?)),
        _ => None,
    }
}
