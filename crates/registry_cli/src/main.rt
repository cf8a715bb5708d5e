//! The registry's command line.
//!
//! ```
//! registry_cli init --base http://127.0.0.1:8080 --db registry.db
//! registry_cli user-add ada --db registry.db
//! registry_cli token-add ada --endpoints publish-new --db registry.db
//! registry_cli serve --port 8080 --connections 1000 --db registry.db
//! registry_cli line < publish-body                // prints the index path and the index line
//! registry_cli --help
//! ```
//!
//! The exit status is 0 for done, 1 for refused input, 2 for bad arguments, and 3 if I/O or memory
//! failed.
#![tactic(auto)]

use reg_cli::{Exit, run_words};
use std::alloc::Global;
use std::io::ErrorKind;
use std::process::ExitCode;
use std::{env, io};

/// The program's arguments, its own name first.
fn command_line(rt: &HostRuntime, alloc: Global) -> io::Result<Vec<String>> {
    Ok(env::args(rt)?.collect(alloc)?)
}

fn run(rt: &HostRuntime) -> Exit {
    match command_line(rt, rt.alloc()) {
        Ok(given) => run_words(rt, given.as_slice()),
        Err(error) if error.kind() == ErrorKind::OutOfMemory => Exit::MEMORY,
        Err(_) => Exit::BAD_WORDS,
    }
}

fn main(rt: HostRuntime) -> ExitCode {
    let exit = run(&rt);
    if !exit.message.is_empty() {
        let _ = eprintln!(&rt; "{}", exit.message);
    }
    ExitCode::from(exit.status)
}
