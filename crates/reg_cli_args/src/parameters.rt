//! The parts that subcommands are made of.

ghost use Rattle.std.specs.Prelude.{IfOk, codes, map};
ghost use Rattle.clap.specs.Words.{new_app, with_rule};
ghost use Rattle.reg_cli_args.specs.Grammar.{file_rule, flag_rule, option_rule, registry_rules, value_rule, with_levels, with_rules, word_rule, word_rules};
ghost use Rattle.reg_cli_args.specs.Making.{Adds, AddsLevel, HasLevel, HasRule, HasRules, entry_level};

use clap::{Arg, ArgAction, Command};
use std::alloc::{AllocError, Global};

/// The forms of subcommands: on the command line each has one of the options `--db` and `--at`; in
/// a setup file and in a message none has, and none reads random bytes.
#[derive(Clone, Copy)]
pub(crate) enum Shape {
    Program,
    Setup,
}

/// The arguments that must follow a subcommand's name.
#[derive(Clone, Copy)]
pub(crate) enum Words {
    Nothing,
    Login,
    Crate,
    CrateAndLogin,
    Name,
    Id,
}

/// A subcommand, as help shows it.
#[derive(Clone, Copy)]
pub(crate) struct HelpEntry {
    pub(crate) name: &'static str,
    pub(crate) about: &'static str,
    pub(crate) example: &'static str,
    pub(crate) words: Words,
}

/// A command that was made or added to, or out of memory.
pub(crate) type MadeCommand<'a> = std::result::Result<Command<'a>, AllocError>;

/// An argument with a value.
fn with_value<'a>(alloc: Global, name: &'a str, value: &'a str, help: &'a str) -> Arg<'a>
    ensures { HasRule (value_rule name.entry.now) result }
{
    Arg::new(alloc, name)
        .action(ArgAction::Set)
        .value_name(value)
        .help(help)
}

/// A required argument.
pub(crate) fn word<'a>(alloc: Global, name: &'a str, help: &'a str) -> Arg<'a>
    ensures { HasRule (word_rule name.entry.now) result }
{
    with_value(alloc, name, name, help).required(true)
}

/// An option with a value; it may be omitted.
pub(crate) fn option<'a>(alloc: Global, name: &'a str, value: &'a str, help: &'a str) -> Arg<'a>
    ensures { HasRule (option_rule name.entry.now) result }
{
    with_value(alloc, name, value, help).long(name)
}

/// An option without a value.
pub(crate) fn flag<'a>(alloc: Global, name: &'a str, help: &'a str) -> Arg<'a>
    ensures { HasRule (flag_rule name.entry.now) result }
{
    Arg::new(alloc, name)
        .long(name)
        .action(ArgAction::SetTrue)
        .help(help)
}

/// Adds the option that names the registry's file.
pub(crate) fn with_file<'a>(alloc: Global, command: Command<'a>) -> MadeCommand<'a>
    ensures { Adds (λ a. with_rule a file_rule) command.entry result }
{
    command.arg(option(alloc, "db", "FILE", "The registry's file").required(true))
}

/// Adds the options that name a registry: its file, or the socket file of the server that has it.
fn with_registry<'a>(alloc: Global, command: Command<'a>) -> MadeCommand<'a>
    ensures { Adds (λ a. with_rules a registry_rules) command.entry result }
{
    let file = "The registry's file, while no server serves it";
    let at = "The socket file of the server that serves it (serve --admin)";
    command
        .arg(option(alloc, "db", "FILE", file).required_unless_present("at")?)?
        .arg(option(alloc, "at", "PATH", at).conflicts_with("db")?)
}

fn login<'a>(alloc: Global) -> Arg<'a>
    ensures { HasRule (word_rule (codes "LOGIN")) result }
{
    word(alloc, "LOGIN", "The login of an account")
}

fn named<'a>(alloc: Global) -> Arg<'a>
    ensures { HasRule (word_rule (codes "CRATE")) result }
{
    word(alloc, "CRATE", "The name of a crate")
}

/// The subcommand with its arguments.
fn with_words<'a>(alloc: Global, words: Words, command: Command<'a>) -> MadeCommand<'a>
    ensures { Adds (λ a. with_rules a (word_rules words)) command.entry result }
{
    match words {
        Words::Nothing => Ok(command),
        Words::Login => command.arg(login(alloc)),
        Words::Crate => command.arg(named(alloc)),
        Words::CrateAndLogin => command.arg(named(alloc))?.arg(login(alloc)),
        Words::Name => command.arg(word(alloc, "NAME", "A crate's name; it need not be there")),
        Words::Id => command.arg(word(alloc, "ID", "The number of a token")),
    }
}

/// A command with its help, and no arguments yet.
pub(crate) fn described<'a>(
    alloc: Global,
    name: &'a str,
    about: &'a str,
    example: &'a str,
) -> Command<'a>
    ensures { HasRules (new_app name.entry.now) result }
{
    Command::new(alloc, name).about(about).after_help(example)
}

/// The subcommand of an entry.
pub(crate) fn subcommand<'a>(alloc: Global, shape: Shape, entry: &HelpEntry) -> MadeCommand<'a>
    ensures { IfOk result (HasLevel (entry_level shape entry.now)) }
{
    let command = described(alloc, entry.name, entry.about, entry.example);
    let command = with_words(alloc, entry.words, command)?;
    match shape {
        Shape::Setup => Ok(command),
        Shape::Program => with_registry(alloc, command),
    }
}

/// Adds a subcommand, once it is made.
pub(crate) fn with_level<'a>(command: Command<'a>, made: MadeCommand<'a>) -> MadeCommand<'a>
    ensures { AddsLevel made.entry command.entry result }
{
    command.subcommand(made?)
}

/// Adds the subcommands of the entries.
pub(crate) fn with_entries<'a>(
    alloc: Global,
    shape: Shape,
    entries: &[HelpEntry],
    mut command: Command<'a>,
) -> MadeCommand<'a>
    ensures { Adds (λ a. with_levels a (map (entry_level shape) entries.now)) command.entry result }
{
    for entry in entries {
        command = with_level(command, subcommand(alloc, shape, entry))?;
    }
    Ok(command)
}
