//! Scripts: a line is a command or a request, an arrow, and its answer.
//!
//! All lines are played twice: each by a call of its own, and all by one call.
//! The first line says what there is before: `given two-accounts crates=1`.
//! What is indented by four spaces goes on with the line above, and `[[1..3|c#,]]` is `c1,c2,c3,`.

use crate::service::stage::answered;
use reg_body::Limits;
use reg_reference::PlainRegistry;
use reg_service::Registry;
use sqlite::{Alter, Connection};
use std::alloc::{AllocError, Global};
use std::process::Abort;
use test_scripts::{BASE, Fault, limits_of, setup_of, told_otherwise};
use test_support::spreading::spread;

/// What is wrong with a line; none where it is answered as it says.
fn fault_of<S: Alter>(
    alloc: Global,
    registry: &mut Registry<S>,
    plain: &mut PlainRegistry,
    line: &str,
) -> Result<Option<String>, AllocError> {
    let (call, want) = line.split_once(" -> ").unwrap_or((line, "no arrow"));
    let found = answered(alloc, registry, plain, call)?;
    if found.as_str() == want {
        return Ok(None);
    }
    Ok(Some(format!(in alloc; "{call}: found {found}")?))
}

/// What is wrong with the first line that is answered otherwise than it says.
fn first_fault<S: Alter>(
    alloc: Global,
    registry: &mut Registry<S>,
    plain: &mut PlainRegistry,
    lines: &str,
) -> Result<Option<String>, AllocError> {
    for line in lines.lines() {
        let fault = fault_of(alloc, registry, plain, line)?;
        if fault.is_some() {
            return Ok(fault);
        }
    }
    Ok(None)
}

/// Plays lines on a registry with nothing in it, and on the plain one.
fn play_beside<S: Alter>(
    alloc: Global,
    registry: &mut Registry<S>,
    limits: Limits,
    lines: &str,
) -> Result<Option<String>, AllocError> {
    let mut plain = PlainRegistry::new(alloc, limits);
    first_fault(alloc, registry, &mut plain, lines)
}

/// Plays lines on a new registry, and on the plain one.
fn play_new<S: Alter + Drop>(
    alloc: Global,
    conn: Connection<S>,
    limits: Limits,
    lines: &str,
) -> Result<Option<String>, Fault> {
    if !conn.is_autocommit() {
        return Err(Fault::NotMade);
    }
    match Registry::create(conn, BASE, limits) {
        Ok(mut registry) => Ok(play_beside(alloc, &mut registry, limits, lines)?),
        Err((_conn, _fault)) => Err(Fault::NotMade),
    }
}

/// Plays lines on a new registry once more, by one call.
fn play_at_once<S: Alter + Drop>(
    alloc: Global,
    conn: Connection<S>,
    limits: Limits,
    lines: &str,
) -> Result<Option<String>, Fault> {
    if !conn.is_autocommit() {
        return Err(Fault::NotMade);
    }
    match Registry::create(conn, BASE, limits) {
        Ok(mut registry) => Ok(told_otherwise(alloc, &mut registry, lines)?),
        Err((_conn, _fault)) => Err(Fault::NotMade),
    }
}

fn fault_in(alloc: Global, script: &str) -> Result<Option<String>, Fault> {
    let (first, lines) = script.split_once('\n').unwrap_or((script, "no lines"));
    let whole = spread(alloc, &lines.replace(alloc, "\n    ", "")?)?;
    let all = format!(in alloc; "{}{whole}", setup_of(first))?;
    let limits = limits_of(first);
    let fault = play_new(alloc, Connection::open_in_memory(alloc)?, limits, &all)?;
    if fault.is_some() {
        return Ok(fault);
    }
    play_at_once(alloc, Connection::open_in_memory(alloc)?, limits, &all)
}

/// Plays a script: fails where a line of it is answered otherwise than it says.
pub(crate) fn play<R: Abort + AllocGlobal>(rt: &R, script: &str) {
    match fault_in(rt.alloc(), script) {
        Ok(None) => {}
        Ok(Some(fault)) => panic!(rt; "{fault}"),
        Err(fault) => panic!(rt; "{fault:?}"),
    }
}
