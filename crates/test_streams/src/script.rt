//! Scripts: setup lines with their answers, and streams.
//!
//! ```text
//! given two-accounts-and-a turns=100
//! user-disable bob -> done
//! stream piece=1
//! > GET / HTTP/1.1
//! > host: r
//! >
//! < HTTP/1.1 404 Not Found
//! ..
//! = 1
//! ```
//!
//! A line `=` tells what the stream above is answered: the number of replies, or the fault. `each`
//! tries that stream at each of its places, and so is for streams that change nothing. A stream
//! without either is a fault.
//! What is indented by four spaces goes on with the line above.

use crate::ends::Ends;
use crate::memory::amounts_fault;
use crate::playing::{each_fault, stream_fault};
use crate::stream::Stream;
use crate::trials::Each;
use reg_body::Limits;
use reg_service::Registry;
use sqlite::{Alter, Connection};
use std::alloc::{AllocError, Global};
use std::process::Abort;
use test_scripts::{BASE, Fault, Parts, answer, setup_of, told_text};

/// What is wrong with a setup line.
fn call_fault<S: Alter>(
    alloc: Global,
    registry: &mut Registry<S>,
    line: &str,
) -> Result<Option<String>, AllocError> {
    let (call, want) = line.split_once(" -> ").unwrap_or((line, "no arrow"));
    let parts = Parts::read(alloc, call)?;
    let Some(told) = answer(alloc, registry, &parts) else {
        return Ok(Some(String::from_str(alloc, "no such words")?));
    };
    let found = told_text(alloc, &told)?;
    if found.as_str() == want {
        return Ok(None);
    }
    Ok(Some(found))
}

/// Whether a stream begins with this line.
fn is_stream(line: &str) -> bool {
    line == "stream" || line.starts_with("stream ")
}

fn never_served(alloc: Global) -> Result<Option<String>, AllocError> {
    Ok(Some(String::from_str(alloc, "the stream above is never served")?))
}

/// What is wrong with a line; none where it is answered as it says.
fn fault_of<S: Alter>(
    alloc: Global,
    registry: &mut Registry<S>,
    stream: &mut Stream,
    line: &str,
) -> Result<Option<String>, AllocError> {
    if stream.waits && is_stream(line) {
        return never_served(alloc);
    }
    if stream.take(alloc, line)? {
        return Ok(None);
    }
    if line.starts_with("= ") || line.starts_with("each ") {
        stream.waits = false;
    }
    if let Some(wanted) = line.strip_prefix("= ") {
        return stream_fault(alloc, registry, stream, wanted);
    }
    if line == "each amount of memory" {
        return amounts_fault(alloc, registry, stream);
    }
    match Each::read(line) {
        Some(each) => each_fault(alloc, registry, stream, each),
        None => call_fault(alloc, registry, line),
    }
}

/// What is wrong with the first line that is answered otherwise than it says.
fn first_fault<S: Alter>(
    alloc: Global,
    registry: &mut Registry<S>,
    lines: &str,
) -> Result<Option<String>, AllocError> {
    let mut stream = Stream::new(alloc, Ends::WHOLE);
    let mut number = 0u32;
    for line in lines.lines() {
        number = number.saturating_add(1);
        if let Some(fault) = fault_of(alloc, registry, &mut stream, line)? {
            return Ok(Some(format!(in alloc; "line {number}: {line}: {fault}")?));
        }
    }
    if stream.waits {
        return never_served(alloc);
    }
    Ok(None)
}

/// Sets the limit with this name. Another name leaves no room for an account.
fn limit(limits: &mut Limits, name: &str, number: u32) {
    match name {
        "json" => limits.json = number,
        "archive" => limits.archive = number,
        "head" => limits.head = number,
        "replies" => limits.replies = u64::from(number),
        "turns" => limits.turns = u64::from(number),
        _ => limits.accounts = 0,
    }
}

/// The standard limits with those set that the words name, as `turns=2`.
fn limits_of(words: &str) -> Limits {
    let mut limits = Limits::STANDARD;
    for word in words.split(' ') {
        if let Some((name, number)) = word.split_once('=') {
            limit(&mut limits, name, number.parse().unwrap_or(0));
        }
    }
    limits
}

/// Plays lines on a new registry.
fn play_new<S: Alter + Drop>(
    alloc: Global,
    conn: Connection<S>,
    limits: Limits,
    lines: &str,
) -> Result<Option<String>, Fault> {
    if !conn.is_autocommit() {
        return Err(Fault::NotMade);
    }
    match Registry::create(conn, BASE, limits) {
        Ok(mut registry) => Ok(first_fault(alloc, &mut registry, lines)?),
        Err((_conn, _fault)) => Err(Fault::NotMade),
    }
}

fn fault_in(alloc: Global, script: &str) -> Result<Option<String>, Fault> {
    let (first, lines) = script.split_once('\n').unwrap_or((script, "no lines"));
    let whole = lines.replace(alloc, "\n    ", "")?;
    let all = format!(in alloc; "{}{whole}", setup_of(first))?;
    play_new(
        alloc,
        Connection::open_in_memory(alloc)?,
        limits_of(first),
        &all,
    )
}

/// Plays a script: fails where a line of it is answered otherwise than it says.
pub(crate) fn play<R: Abort + AllocGlobal>(rt: &R, script: &str) {
    match fault_in(rt.alloc(), script) {
        Ok(None) => {}
        Ok(Some(fault)) => panic!(rt; "{fault}"),
        Err(fault) => panic!(rt; "{fault:?}"),
    }
}
