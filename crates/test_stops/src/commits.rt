//! The log stops in the commit of a task: from then on each request is answered S1, each command
//! G10, until the files are opened again. So nothing is acknowledged on top of what a stop may
//! undo.

use crate::fault::Fault;
use crate::files::{Outcome, outcome_of};
use crate::lines::files_with;
use crate::trials::{MOST_RUNS, is_no_room};
use std::alloc::Global;
use test_files::Scarce;
use test_scripts::Played;

/// What is asked after a task whose commit was refused, and each answer. No unyank would find
/// anything to change, and the reports would only read.
const AFTERWARDS: &str = "ada unyank a 0.1.0 -> S1
ada yank a 0.1.0 -> S1
ada config -> S1
ada index 1/a -> S1
ada download a 0.1.0 -> S1
ada owners a -> S1
ada search -> S1
ada release a 0.2.0 -> S1
ada add-owners a {\"users\":[\"bob\"]} -> S1
ada remove-owners a {\"users\":[\"ada\"]} -> S1
no-token config -> S1
user-add carol -> G10
user-add ada -> G10
token-revoke 1 -> G10
access a -> G10
users -> G10
tokens -> G10
crates -> G10
export -> refused
audit -> refused
stream ada index 1/a -> HTTP/1.1 503 Service Unavailable|content-type: application/json|\
content-length: 46||{\"errors\":[{\"detail\":\"S1 storage or memory\"}]}
";

/// Whether there was room for what the task asked.
fn is_answered(played: &Played) -> bool {
    match &played.marked {
        Some(answer) => !is_no_room(answer.as_str(), ""),
        None => false,
    }
}

/// What the lines behind a task are answered where the log stops at the last call that keeps the
/// task from being done: that is one of its commit.
fn after_the_last_stop(alloc: Global, task: &str) -> Result<String, Fault> {
    let before = files_with(alloc, "")?;
    let lines = format!(in alloc; "open\n! {task}\n{AFTERWARDS}")?;
    let mut last = String::new(alloc);
    for calls in 0..MOST_RUNS {
        let limits = Scarce::Log.with(calls);
        let Outcome { played, .. } = outcome_of(alloc, &[&before], &before, &lines, &limits)?;
        if is_answered(&played) {
            return Ok(last);
        }
        last = played.lines;
    }
    Err(Fault::Line(last))
}

/// Whether nothing is answered after the commit of this task was refused.
fn is_shut_after(alloc: Global, task: &str) -> Result<(), Fault> {
    let found = after_the_last_stop(alloc, task)?;
    match found.strip_prefix("open -> done\n") {
        Some(AFTERWARDS) => Ok(()),
        _ => Err(Fault::Line(found)),
    }
}

/// Each changes the registry of *two accounts and a*.
const TASKS: &str = "ada yank a 0.1.0
ada release b 0.1.0 abc
ada add-owners a {\"users\":[\"bob\"]}
user-disable bob
token-add bob yank a third";

#[test]
fn nothing_is_answered_after_a_refused_commit(rt: HostRuntime) -> Result<(), Fault> {
    for task in TASKS.lines() {
        is_shut_after(rt.alloc(), task)?;
    }
    Ok(())
}
