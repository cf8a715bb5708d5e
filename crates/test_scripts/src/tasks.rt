//! Lines of scripts that an open registry answers, as texts.

ghost use Rattle.std.specs.Prelude.{◌+◌, ◌^◌, ◌<◌};

use crate::calls::{Parts, answer};
use crate::replies::{body_text, told_text};
use reg_api_replies::write_reply;
use reg_body::Counted;
use reg_service::{Answered, ApiCall, ApiRequest, Check, Registry, Response};
use sqlite::Alter;
use std::alloc::{AllocError, Global};
use test_files::leave_only;

/// More write calls than any reply needs.
pub const MOST_WRITES: u64 = 1_000;

/// What a line asks for.
#[derive(Drop)]
enum Task<'a> {
    /// The files of the index.
    Export,
    /// The first check that fails.
    Audit,
    /// An index file, sent row by row.
    Stream(Parts<'a>),
    /// What a request or a command is answered.
    Call(Parts<'a>),
}

fn read_task<'a>(alloc: Global, line: &'a str) -> Result<Task<'a>, AllocError> {
    Ok(match line {
        "export" => Task::Export,
        "audit" => Task::Audit,
        _ => match line.strip_prefix("stream ") {
            Some(request) => Task::Stream(Parts::read(alloc, request)?),
            None => Task::Call(Parts::read(alloc, line)?),
        },
    })
}

/// What a line is answered.
#[derive(Drop)]
enum Answer {
    Files(Vec<(String, Vec<u8>)>),
    Checked(Option<Check>),
    /// Whether a reply was sent whole, and what was sent.
    Sent(bool, Vec<u8>),
    Told(Response),
    /// The store was refused, or memory.
    Refused,
    NoSuchWords,
}

/// Sends what answers a request, and tells whether it was sent whole.
pub fn send_answer<S: Alter>(
    alloc: Global,
    registry: &mut Registry<S>,
    request: &ApiRequest<'_>,
    writer: &mut Counted<Vec<u8>>,
) -> bool
    requires room { writer.old.calls + MOST_WRITES < 2 ^ 64 }
{
    match registry.handle_traced(alloc, request, false) {
        Answered::Replied(acted) => {
            write_reply(writer, &acted.reply, false, false, MOST_WRITES).is_ok()
        }
        Answered::Found(file) => registry
            .stream_index(&file, false, writer, MOST_WRITES)
            .is_ok(),
    }
}

/// What is sent to a request for an index file.
fn sent<S: Alter>(alloc: Global, registry: &mut Registry<S>, request: &ApiRequest<'_>) -> Answer {
    let ApiCall::Index(_) = &request.call else {
        return Answer::NoSuchWords;
    };
    let mut writer = Counted::new(Vec::new(alloc));
    let is_whole = send_answer(alloc, registry, request, &mut writer);
    Answer::Sent(is_whole, writer.into_inner())
}

fn exported<S: Alter>(alloc: Global, registry: &mut Registry<S>) -> Answer {
    match registry.export(alloc) {
        Ok(files) => Answer::Files(files),
        Err(_) => Answer::Refused,
    }
}

fn audited<S: Alter>(alloc: Global, registry: &mut Registry<S>) -> Answer {
    match registry.audit(alloc) {
        Ok(check) => Answer::Checked(check),
        Err(_) => Answer::Refused,
    }
}

fn called<S: Alter>(alloc: Global, registry: &mut Registry<S>, parts: &Parts<'_>) -> Answer {
    match answer(alloc, registry, parts) {
        Some(told) => Answer::Told(told),
        None => Answer::NoSuchWords,
    }
}

fn performed<S: Alter>(alloc: Global, registry: &mut Registry<S>, task: &Task<'_>) -> Answer {
    match task {
        Task::Export => exported(alloc, registry),
        Task::Audit => audited(alloc, registry),
        Task::Call(parts) => called(alloc, registry, parts),
        Task::Stream(parts) => match parts.request() {
            Some(request) => sent(alloc, registry, &request),
            None => Answer::NoSuchWords,
        },
    }
}

/// The files behind their paths.
fn files_text(alloc: Global, files: &[(String, Vec<u8>)]) -> Result<String, AllocError> {
    let mut text = String::new(alloc);
    for (path, bytes) in files {
        let file = body_text(alloc, bytes)?;
        text.push_str(&format!(in alloc; "{path}({}) {file};", bytes.len())?)?;
    }
    Ok(text)
}

/// What was sent of a reply: `front` where it ends early; the end of a line of its head is `|`.
fn sent_text(alloc: Global, is_whole: bool, bytes: &[u8]) -> Result<String, AllocError> {
    let text = body_text(alloc, bytes)?.replace(alloc, "\r<0a>", "|")?;
    format!(in alloc; "{}{text}", if is_whole { "" } else { "front " })
}

fn check_text(alloc: Global, check: Option<Check>) -> Result<String, AllocError> {
    match check {
        Some(check) => format!(in alloc; "{check:?}"),
        None => String::from_str(alloc, "none"),
    }
}

fn answer_text(alloc: Global, answer: &Answer) -> Result<String, AllocError> {
    match answer {
        Answer::Files(files) => files_text(alloc, files),
        Answer::Checked(check) => check_text(alloc, *check),
        Answer::Sent(is_whole, bytes) => sent_text(alloc, *is_whole, bytes),
        Answer::Told(told) => told_text(alloc, told),
        Answer::Refused => String::from_str(alloc, "refused"),
        Answer::NoSuchWords => String::from_str(alloc, "no such words"),
    }
}

/// What a line is answered with this amount of memory, or with all.
pub(crate) fn answered<S: Alter>(
    alloc: Global,
    registry: &mut Registry<S>,
    line: &str,
    amount: Option<u32>,
) -> Result<String, AllocError> {
    let task = read_task(alloc, line)?;
    let memory = leave_only(alloc, amount)?;
    let found = performed(alloc, registry, &task);
    drop(memory);
    answer_text(alloc, &found)
}
