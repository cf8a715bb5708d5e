//! Messages of the administrator: each is a command with its arguments, and gets one reply.

ghost use Rattle.std.specs.Prelude.{◌≡◌, ◌+◌, ◌^◌, ◌<◌, ◌++◌, IfErr, IfOk, MatchResult, Some, map, vec_len};
ghost use Rattle.std.specs.Io.KnownBytes.{Consumes};
ghost use Rattle.reg_body.specs.Sent.{Sends, sink};
ghost use Rattle.reg_http.specs.Trails.{tail};
ghost use Rattle.reg_cli_run.specs.Messages.{AnswersMessage, Hears, IsCut, IsMessage, IsUnargued, arguments_in, asked_in, is_pause, message_order, reply_to, said, status_line};
ghost use Rattle.reg_cli_run.specs.Printing.{most_calls};
ghost use Rattle.reg_cli_run.specs.Setups.{ObeysOrder};

use crate::exit::exit_of_message;
use crate::ordering::{OrderFault, obey_order, obey_traced};
use crate::printing::{CALLS, line_of_token};
use crate::setup::have_dashed;
use clap::ArgMatches;
use reg_api_replies::laws::joined_law;
use reg_body::{Counted, SendFault, write_bytes};
use reg_cli_args::{read_message, read_report};
use reg_http::Trail;
use reg_model::laws::telling_law;
use reg_policy::AdminReply;
use reg_service::Registry;
use reg_service::laws::history_law;
use sqlite::Alter;
use std::alloc::{AllocError, Global};
use std::io::{Read, Write};
use std::str::from_utf8;

/// How many bytes a message has at most.
const MOST: usize = 65_536;

/// How many bytes one read asks for.
const CHUNK: usize = 4096;

/// What is replied to a message that was done.
#[derive(Drop)]
pub(crate) enum MessageReply {
    /// The server serves nobody until its sender goes.
    Paused,
    Said(AdminReply),
}

/// A buffer for one read.
fn chunk_of(alloc: Global) -> Result<Vec<u8>, AllocError>
    ensures { IfOk result (λ chunk. vec_len chunk ≡ CHUNK) }
{
    vec![in alloc; 0; CHUNK]
}

/// Reads a message: all that there is, if that is no more than a message may have.
fn read_bytes<R: Read>(alloc: Global, reader: &mut Counted<R>) -> Result<Vec<u8>, OrderFault>
    requires { reader.old.calls + MOST + 1 < 2 ^ 64 }
    ensures { (read : _)
        × Consumes (R.remaining reader.old.inner) (R.remaining reader.new.inner) read
        × MatchResult result (λ bytes. (bytes.items ≡ read) × IsMessage read
        (R.remaining reader.new.inner) reader.old.failures reader.new.failures)
        (IsCut read reader.old.failures reader.new.failures) }
{
    let mut chunk = chunk_of(alloc)?;
    let mut bytes = Vec::new(alloc);
    'reading: while bytes.len() <= MOST {
        let Ok(count) = reader.read(chunk.as_mut_slice()) else {
            return Err(OrderFault::Unreadable);
        };
        if count == 0 {
            return Ok(bytes);
        }
        bytes.extend_from_slice(&chunk[..count])?;
    }
    Err(OrderFault::Unreadable)
}

/// The arguments of a message, each ended by a zero byte.
fn arguments_of<'a>(alloc: Global, bytes: &'a [u8]) -> Result<Vec<&'a str>, OrderFault>
    ensures arguments { IfOk result (λ words. arguments_in bytes.now
        ≡ Some (map (λ w. w.now) words.items)) }
    ensures fails { IfErr result (IsUnargued (arguments_in bytes.now)) }
{
    let Ok(text) = from_utf8(bytes) else {
        return Err(OrderFault::Unreadable);
    };
    let mut words: Vec<&'a str> = text.split('\0').collect(alloc)?;
    let Some(last) = words.pop() else {
        return Err(OrderFault::Unreadable);
    };
    if last.is_empty() {
        return Ok(words);
    }
    Err(OrderFault::Unreadable)
}

/// Whether the arguments ask the server to pause.
fn is_pause(words: &[&str]) -> bool
    ensures { result ≡ is_pause (map (λ w. w.now) words.now) }
{
    match words {
        [only] => *only == "pause",
        _ => false,
    }
}

/// Runs the parsed command, or makes the report that is asked for.
fn obey_asked<T: Write, S: Alter>(
    alloc: Global,
    registry: &mut Registry<S>,
    trail: &mut Trail<T>,
    matches: &ArgMatches<'_>,
) -> Result<AdminReply, OrderFault>
    ensures { ObeysOrder S.Store (asked_in matches.now) T.contents registry.old registry.new
        trail.old trail.new result }
{
    if let Some((name, inner)) = matches.subcommand() {
        if let Some(report) = read_report(name, inner) {
            return obey_traced(alloc, registry, &report, trail);
        }
    }
    obey_order(alloc, registry, trail, matches)
}

/// Runs the command with these arguments. No value begins with `-`.
fn obey_words<T: Write, S: Alter>(
    alloc: Global,
    registry: &mut Registry<S>,
    trail: &mut Trail<T>,
    words: &[&str],
) -> Result<AdminReply, OrderFault>
    ensures { ObeysOrder S.Store (message_order (map (λ w. w.now) words.now)) T.contents
        registry.old registry.new trail.old trail.new result }
{
    if have_dashed(words) {
        return Err(OrderFault::Unreadable);
    }
    let matches = read_message(alloc, words)?;
    obey_asked(alloc, registry, trail, &matches)
}

/// Does what a message asks for, and tells what it changed.
fn answer_message<T: Write, S: Alter>(
    alloc: Global,
    registry: &mut Registry<S>,
    trail: &mut Trail<T>,
    bytes: &[u8],
) -> Result<MessageReply, OrderFault>
    ensures { AnswersMessage S.Store bytes.now T.contents registry.old registry.new
        trail.old trail.new result }
{
    let words = arguments_of(alloc, bytes)?;
    if is_pause(&words) {
        return Ok(MessageReply::Paused);
    }
    Ok(MessageReply::Said(obey_words(alloc, registry, trail, &words)?))
}

/// Reads a message, does what it asks for, and tells what it changed.
pub(crate) fn hear_message<T: Write, S: Alter, R: Read>(
    alloc: Global,
    registry: &mut Registry<S>,
    trail: &mut Trail<T>,
    reader: &mut Counted<R>,
) -> Result<MessageReply, OrderFault>
    requires room { reader.old.calls + MOST + 1 < 2 ^ 64 }
    requires fresh { reader.old.failures ≡ 0 }
    ensures { Hears S.Store (R.remaining reader.old.inner) (R.remaining reader.new.inner)
        reader.new.failures registry.old registry.new
        (tail (T.contents trail.old.end.inner) trail.old)
        (tail (T.contents trail.new.end.inner) trail.new) (reply_to result) }
{
    history_law::<S>();
    telling_law();
    let bytes = read_bytes(alloc, reader)?;
    answer_message(alloc, registry, trail, &bytes)
}

/// Sends two texts, one after the other.
fn send_both<W: Write>(w: &mut Counted<W>, first: &[u8], second: &[u8]) -> Result<u64, SendFault>
    requires { w.old.calls + CALLS < 2 ^ 64 }
    ensures { Sends result (first.now ++ second.now) most_calls
        (sink (W.contents w.old.inner) w.old) (sink (W.contents w.new.inner) w.new) }
{
    joined_law();
    let used = write_bytes(w, first, CALLS)?;
    let more = write_bytes(w, second, CALLS - used)?;
    Ok(used + more)
}

/// The line that a reply begins with: the exit status.
fn status_line_of(status: u8) -> &'static [u8]
    requires { status < 4 }
    ensures { result.now ≡ status_line status }
{
    match status {
        0 => b"0\n",
        1 => b"1\n",
        2 => b"2\n",
        _ => b"3\n",
    }
}

/// Sends what a command replied.
fn send_said<W: Write>(w: &mut Counted<W>, reply: &AdminReply) -> Result<u64, SendFault>
    requires { w.old.calls + CALLS < 2 ^ 64 }
    ensures { Sends result (said reply.now) most_calls
        (sink (W.contents w.old.inner) w.old) (sink (W.contents w.new.inner) w.new) }
{
    let done = status_line_of(0);
    match reply {
        AdminReply::Done => send_both(w, done, &[]),
        AdminReply::Id(id) => send_both(w, done, line_of_token(*id, None).as_slice()),
        AdminReply::Text(report) => send_both(w, done, report.as_bytes()),
    }
}

/// Sends the reply to a message: the exit status that the command would end with, and what it would
/// print.
pub(crate) fn send_reply<W: Write>(
    w: &mut Counted<W>,
    reply: &Result<MessageReply, OrderFault>,
) -> Result<u64, SendFault>
    requires { w.old.calls + CALLS < 2 ^ 64 }
    ensures { Sends result (reply_to reply.now) most_calls
        (sink (W.contents w.old.inner) w.old) (sink (W.contents w.new.inner) w.new) }
{
    match reply {
        Ok(MessageReply::Paused) => send_both(w, status_line_of(0), b"paused\n"),
        Ok(MessageReply::Said(reply)) => send_said(w, reply),
        Err(fault) => {
            let exit = exit_of_message(*fault);
            send_both(w, status_line_of(exit.status), exit.message.as_bytes())
        }
    }
}
