//! All subcommands of the program, with their help, those of a setup file, and those of a message.

ghost use Rattle.std.specs.Prelude.{IfErr, IfOk, [], ◌≡◌, ◌∷◌, ◌++◌, codes, map, string_bytes, true};
ghost use Rattle.clap.specs.Words.{kind_of, subcommand_of, subcommand_rows_of, takes};
ghost use Rattle.clap.specs.declared.error.kind.ErrorKind.TheVariants.{OutOfMemory};
ghost use Rattle.reg_cli_args.specs.Grammar.{IsJudged, file_rule, flag_rule, message_app, named_level, needed_rule, number_rules, option_rule, other_levels, place_rules, program_app, program_top, service_levels, serving_rules, setup_app, setup_top, with_levels, with_rules, word_rule};
ghost use Rattle.reg_cli_args.specs.Making.{Adds, HasLevel, HasRules, Makes};

use crate::parameters::{MadeCommand, Shape, described, flag, option, with_file, with_level, word};
use crate::reports::with_reports;
use crate::subcommands::with_orders;
use crate::version::VERSION;
use clap::{ArgMatches, Command, Error};
use std::alloc::{AllocError, Global};

/// `line`.
fn line_words<'a>(alloc: Global) -> Command<'a>
    ensures { HasLevel (named_level (codes "line") []) result }
{
    described(
        alloc,
        "line",
        "Reads the body of a publish request from standard input and prints the crate's index \
         path and its index line",
        "Example:\n  registry_cli line < publish-body",
    )
}

/// `init`.
fn init_words<'a>(alloc: Global) -> MadeCommand<'a>
    ensures { Makes (codes "init") (needed_rule (codes "base") ∷ file_rule ∷ []) result }
{
    let base = option(
        alloc,
        "base",
        "URL",
        "The address that clients use, as http://127.0.0.1:8080, without a / at its end",
    );
    let command = described(
        alloc,
        "init",
        "Makes a registry with nothing in it, in a new file",
        "Example:\n  registry_cli init --base http://127.0.0.1:8080 --db r.db",
    );
    with_file(alloc, command.arg(base.required(true))?)
}

/// `export`.
fn export_words<'a>(alloc: Global) -> MadeCommand<'a>
    ensures { Makes (codes "export") (word_rule (codes "DIR") ∷ file_rule ∷ []) result }
{
    let command = described(
        alloc,
        "export",
        "Writes config.json and the index files below a folder, as the sparse index has them, \
         those of restricted crates too",
        "Example:\n  registry_cli export index --db r.db",
    );
    with_file(alloc, command.arg(word(alloc, "DIR", "The folder"))?)
}

/// `audit`.
fn audit_words<'a>(alloc: Global) -> MadeCommand<'a>
    ensures { Makes (codes "audit") (file_rule ∷ []) result }
{
    let command = described(
        alloc,
        "audit",
        "Checks the whole file, archives included, moves its log into it, and prints ok: then the \
         file alone is the whole registry",
        "Example:\n  registry_cli audit --db r.db",
    );
    with_file(alloc, command)
}

/// `pause`.
fn pause_words<'a>(alloc: Global) -> MadeCommand<'a>
    ensures { Makes (codes "pause") (needed_rule (codes "at") ∷ []) result }
{
    let command = described(
        alloc,
        "pause",
        "Has a server serve nobody until standard input ends, for ten minutes at most, and prints \
         paused once it is so: then the registry's file and the log beside it can be copied",
        "Example:\n  registry_cli pause --at admin.sock",
    );
    let at = "The socket file of the server (serve --admin)";
    command.arg(option(alloc, "at", "PATH", at).required(true))
}

/// Where `pipe` finds its registry.
fn with_place<'a>(alloc: Global, command: Command<'a>) -> MadeCommand<'a>
    ensures { Adds (λ a. with_rules a place_rules) command.entry result }
{
    let file = "The registry's file";
    let memory = "Serves a registry in memory, with nothing in it, which is gone afterwards";
    command
        .arg(option(alloc, "db", "FILE", file).required_unless_present("memory")?)?
        .arg(flag(alloc, "memory", memory).conflicts_with("db")?)
}

/// `pipe`.
fn pipe_words<'a>(alloc: Global) -> MadeCommand<'a>
    ensures { Makes (codes "pipe")
        (place_rules ++ option_rule (codes "base") ∷ option_rule (codes "setup") ∷ []) result }
{
    let base = "The base of a registry in memory. Without it: http://127.0.0.1:8080";
    let setup = "Commands that are done first, one a line, without --db";
    let command = described(
        alloc,
        "pipe",
        "Serves HTTP on standard input and output: from the registry of --db, or from a new one in \
         memory",
        "Example:\n  registry_cli pipe --memory --setup commands < requests",
    );
    with_place(alloc, command)?
        .arg(option(alloc, "base", "URL", base))?
        .arg(option(alloc, "setup", "FILE", setup))
}

/// The numbers of `serve`.
fn with_numbers<'a>(alloc: Global, command: Command<'a>) -> MadeCommand<'a>
    ensures { Adds (λ a. with_rules a number_rules) command.entry result }
{
    let port = "The port of 127.0.0.1 to listen on";
    let connections = "How many connections are served before it ends";
    let replies = "How many replies a connection has at most. Without it: 1, which suits cargo";
    command
        .arg(option(alloc, "port", "P", port).required(true))?
        .arg(option(alloc, "connections", "N", connections).required(true))?
        .arg(option(alloc, "replies", "K", replies))
}

/// What else `serve` is told.
fn with_serving<'a>(alloc: Global, command: Command<'a>) -> MadeCommand<'a>
    ensures { Adds (λ a. with_rules a serving_rules) command.entry result }
{
    let trail = "Prints a line for each change: the token, its login, and what was done";
    let admin = "A socket file to be made, at which commands are taken between connections: each \
                 counts as a connection";
    command
        .arg(flag(alloc, "trail", trail))?
        .arg(option(alloc, "admin", "PATH", admin))
}

/// `serve`.
fn serve_words<'a>(alloc: Global) -> MadeCommand<'a>
    ensures { Makes (codes "serve")
        (number_rules ++ serving_rules ++ file_rule ∷ []) result }
{
    let command = described(
        alloc,
        "serve",
        "Serves HTTP on a port of 127.0.0.1, one connection after another",
        "Example:\n  registry_cli serve --port 8080 --connections 1000000 --trail --db r.db",
    );
    with_file(alloc, with_serving(alloc, with_numbers(alloc, command)?)?)
}

/// `explain`.
fn explain_words<'a>(alloc: Global) -> MadeCommand<'a>
    ensures { Makes (codes "explain") (word_rule (codes "CODE") ∷ []) result }
{
    let command = described(
        alloc,
        "explain",
        "Tells what a refusal means and what to do about it",
        "Examples:\n  registry_cli explain A9\n  registry_cli explain 'listen fault'",
    );
    let help = "The code of the refusal, or the line that a run ended with";
    command.arg(word(alloc, "CODE", help))
}

/// The subcommands that make and serve a registry.
fn with_services<'a>(alloc: Global, command: Command<'a>) -> MadeCommand<'a>
    ensures { Adds (λ a. with_levels a service_levels) command.entry result }
{
    let command = with_level(command, init_words(alloc))?;
    let command = with_level(command, serve_words(alloc))?;
    with_level(command, pipe_words(alloc))
}

/// The subcommands that look at a registry's file, or need none.
fn with_others<'a>(alloc: Global, command: Command<'a>) -> MadeCommand<'a>
    ensures { Adds (λ a. with_levels a other_levels) command.entry result }
{
    let command = with_level(command, export_words(alloc))?;
    let command = with_level(command, audit_words(alloc))?;
    let command = with_level(command, pause_words(alloc))?;
    let command = command.subcommand(line_words(alloc))?;
    with_level(command, explain_words(alloc))
}

fn program<'a>(alloc: Global) -> Command<'a>
    ensures { HasRules program_top result }
{
    Command::new(alloc, "registry_cli")
        .about("A private Cargo registry")
        .version(VERSION)
        .after_help(
            "Example:\n  registry_cli init --base http://127.0.0.1:8080 --db r.db\n  \
             registry_cli user-add ada --db r.db\n\n\
             A subcommand's own help: registry_cli user-add --help\n\
             What a refusal means: registry_cli explain A9",
        )
        .subcommand_required(true)
        .arg_required_else_help(true)
}

fn command<'a>(alloc: Global) -> MadeCommand<'a>
    ensures { IfOk result (HasRules program_app) }
{
    let command = with_others(alloc, with_services(alloc, program(alloc))?)?;
    with_reports(
        alloc,
        Shape::Program,
        with_orders(alloc, Shape::Program, command)?,
    )
}

/// Parses the program's arguments, its own name first.
pub fn read_words<'a>(alloc: Global, words: &'a [String]) -> Result<ArgMatches<'a>, Error>
    ensures reads { IfOk result (λ m. subcommand_rows_of m
        ≡ subcommand_of program_app (map (λ w. string_bytes w) words.entry.now)) }
    ensures passes { IfErr result (λ e.
        takes program_app (map (λ w. string_bytes w) words.entry.now) ≡ true
        → kind_of e ≡ OutOfMemory) }
{
    command(alloc)?.try_get_matches_from(words)
}

fn setup_line<'a>(alloc: Global) -> Command<'a>
    ensures { HasRules setup_top result }
{
    Command::new(alloc, "setup")
        .no_binary_name(true)
        .subcommand_required(true)
}

/// Parses the words of a setup file's line, which are like the program's arguments, but without the
/// program's name and `--db`.
pub fn read_line<'a>(alloc: Global, words: &'a [&'a str]) -> Result<ArgMatches<'a>, Error>
    ensures { IsJudged setup_app (map (λ w. w.now) words.entry.now) result }
{
    with_orders(alloc, Shape::Setup, setup_line(alloc))?.try_get_matches_from(words)
}

/// Parses the arguments of a message: those of a setup file's line, or of a report.
pub fn read_message<'a>(alloc: Global, words: &'a [&'a str]) -> Result<ArgMatches<'a>, Error>
    ensures { IsJudged message_app (map (λ w. w.now) words.entry.now) result }
{
    let command = with_orders(alloc, Shape::Setup, setup_line(alloc))?;
    with_reports(alloc, Shape::Setup, command)?.try_get_matches_from(words)
}
