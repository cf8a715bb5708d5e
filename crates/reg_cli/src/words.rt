//! The arguments of the command line.

use crate::administering::administer;
use crate::explaining::explain;
use crate::sending::pause;
use crate::serving::{check, init, pipe, serve};
use clap::error::ErrorKind;
use clap::{ArgMatches, Error};
use reg_body::Counted;
use reg_cli_args::{is_dashed, read_words};
use reg_cli_line::{Exit, run_line};
use reg_cli_run::NO_WRITING;
use sqlite::{Start, Wary};

/// Prints help, or what is wrong with the arguments.
fn print_error(rt: &HostRuntime, error: &Error) -> Exit {
    if error.kind() == ErrorKind::OutOfMemory {
        return Exit::MEMORY;
    }
    let printed = error.print(rt);
    if error.use_stderr() {
        return Exit {
            status: 2,
            message: "",
        };
    }
    match printed {
        Ok(()) => Exit::DONE,
        Err(_) => NO_WRITING,
    }
}

/// `line`, on standard input and output.
fn line(rt: &HostRuntime) -> Exit {
    let mut reader = Counted::new(rt.stdin());
    let mut writer = Counted::new(rt.stdout());
    run_line(rt.alloc(), &mut reader, &mut writer)
}

/// Whether a value among the arguments after the program's name begins with `-`.
fn have_dashed(words: &[String]) -> bool {
    words.iter().skip(1).any(|word| is_dashed(word))
}

/// Runs the subcommand that the arguments name.
fn run_subcommand<F: Start>(rt: &HostRuntime, matches: &ArgMatches<'_>, start: F) -> Exit {
    match matches.subcommand() {
        Some(("line", _)) => line(rt),
        Some(("explain", inner)) => explain(rt, inner),
        Some(("init", inner)) => init(rt, inner, start),
        Some(("pipe", inner)) => pipe(rt, inner, start),
        Some(("serve", inner)) => serve(rt, inner, start),
        Some(("audit", inner)) => check(rt, inner, start),
        Some(("pause", inner)) => pause(rt, inner),
        Some((name, inner)) => administer(rt, name, inner, start),
        None => Exit::BAD_WORDS,
    }
}

/// Does as `run_words`, with a registry's file opened as `F`: what is said of it holds whatever the
/// file held, and whether a torn write leaves each byte old or new, or any bytes.
pub fn run_from<F: Start>(rt: &HostRuntime, words: &[String], start: F) -> Exit {
    if have_dashed(words) {
        return Exit::BAD_WORDS;
    }
    match read_words(rt.alloc(), words) {
        Ok(matches) => run_subcommand(rt, &matches, start),
        Err(error) => print_error(rt, &error),
    }
}

/// Runs the program on its arguments, its name first. Help is printed here, on standard output with
/// status 0. So is what `clap` says of bad arguments, on standard error with status 2. A torn write
/// may leave any bytes in a registry's file.
pub fn run_words(rt: &HostRuntime, words: &[String]) -> Exit {
    run_from(rt, words, Wary)
}
