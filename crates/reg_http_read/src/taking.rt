//! Taking a request from a stream: its head, its interim line, its body.

ghost use Rattle.std.specs.Prelude.{◌≡◌, ◌+◌, ◌^◌, ◌<◌, ◌≤◌, IfOk, OnErr, Some, length};
ghost use Rattle.reg_http_read.specs.Begun.{interim_if};
ghost use Rattle.reg_http_read.specs.Heads.{IsHeadAt};
ghost use Rattle.reg_http_read.specs.Reads.{facts_of};
ghost use Rattle.reg_http_read.specs.Taking.{Awaits, Fills, IsFound, Takes};
ghost use Rattle.reg_http_read.specs.Turns.{Sends, SpendsTurns, reads_of, tally, writes_of};

use crate::fault::StreamFault;
use crate::head::{Head, HeadRead, read_head};
use crate::laws::{append_law, bounds_law};
use crate::method::begins_head;
use crate::owned::{OwnedHead, keep};
use crate::reading::{Piece, make_room, read_line, read_piece};
use crate::turns::send;
use reg_body::{Counted, Limits};
use reg_model::Rule;
use std::alloc::{AllocError, Global};
use std::io::{Read, Write};

/// The interim line, which asks the client for the body.
const INTERIM: &[u8] = b"HTTP/1.1 100 Continue\r\n\r\n";

/// What came when a head was awaited.
#[derive(Drop)]
pub(crate) enum Awaited {
    End,
    /// The rule, and whether only the head of the refusal is sent.
    Refused(Rule, bool),
    Head(OwnedHead),
}

/// What came when the rest of a body was awaited.
#[derive(Clone, Copy)]
pub(crate) enum Rest {
    Whole,
    End,
    NoMemory,
}

/// What came when a request was awaited.
#[derive(Drop)]
pub enum Taken {
    End,
    /// The rule, and whether only the head of the refusal is sent.
    Refused(Rule, bool),
    /// It is there, at the front of `pending`.
    Whole(OwnedHead),
}

/// The head, kept, or a refusal if out of memory.
fn keep_or_refuse(alloc: Global, head: &Head<'_>) -> Awaited
    ensures { (limits : _) (bytes : _) → IsHeadAt limits bytes (facts_of head.now)
        → IsFound limits bytes (Some result) }
{
    match keep(alloc, head) {
        Ok(head) => Awaited::Head(head),
        Err(_) => Awaited::Refused(Rule::S1, head.is_head_only()),
    }
}

/// The head at the front of `pending`, or why it is refused; none if more bytes are needed.
fn find_head(alloc: Global, pending: &[u8], limits: &Limits) -> Result<Option<Awaited>, AllocError>
    ensures found { IfOk result (IsFound limits.now pending.now) }
    ensures some { OnErr result (0 < length pending.now) }
{
    match read_head(alloc, pending, limits)? {
        HeadRead::More => Ok(None),
        HeadRead::Head(head) => Ok(Some(keep_or_refuse(alloc, &head))),
        HeadRead::Refused(rule, head_only) => Ok(Some(Awaited::Refused(rule, head_only))),
    }
}

/// Reads until there is a head at the front of `pending`.
fn await_head<R: Read>(
    alloc: Global,
    r: &mut Counted<R>,
    chunk: &mut [u8],
    pending: &mut Vec<u8>,
    limits: &Limits,
    left: &mut u64,
) -> Result<Awaited, StreamFault>
    requires room { r.old.calls + left.old < 2 ^ 64 }
    requires some { 0 < length chunk.old }
    ensures awaits { Awaits (R.remaining r.old.inner) (R.remaining r.new.inner)
        pending.old.items pending.new.items limits.now result }
    ensures spends { SpendsTurns left.old left.new (reads_of r.old) (reads_of r.new) result }
    ensures chunk { length chunk.new ≡ length chunk.old }
{
    'judged: loop {
        match find_head(alloc, pending, limits) {
            Ok(None) => {}
            Ok(Some(found)) => return Ok(found),
            Err(_) => return Ok(Awaited::Refused(Rule::S1, begins_head(pending, &[]))),
        }
        match read_line(r, chunk, pending, limits, left)? {
            Piece::More => {}
            Piece::End => return Ok(Awaited::End),
            Piece::NoMemory(head_only) => return Ok(Awaited::Refused(Rule::S1, head_only)),
        }
    }
}

/// Reads until `body_len` bytes of `pending` follow the head, which has `len`.
fn await_rest<R: Read>(
    r: &mut Counted<R>,
    chunk: &mut [u8],
    pending: &mut Vec<u8>,
    len: usize,
    body_len: u64,
    left: &mut u64,
) -> Result<Rest, StreamFault>
    requires room { r.old.calls + left.old < 2 ^ 64 }
    requires some { 0 < length chunk.old }
    requires head { len ≤ length pending.old.items }
    ensures fills { Fills (R.remaining r.old.inner) (R.remaining r.new.inner)
        pending.old.items pending.new.items (len + body_len) result }
    ensures spends { SpendsTurns left.old left.new (reads_of r.old) (reads_of r.new) result }
    ensures chunk { length chunk.new ≡ length chunk.old }
{
    let missing = body_len.saturating_sub((pending.len() - len) as u64);
    if missing > 0 && make_room(pending, missing, chunk.len()).is_err() {
        return Ok(Rest::NoMemory);
    }
    'pieces: while ((pending.len() - len) as u64) < body_len {
        match read_piece(r, chunk, pending, left)? {
            Piece::More => {}
            Piece::End => return Ok(Rest::End),
            Piece::NoMemory(_) => return Ok(Rest::NoMemory),
        }
    }
    Ok(Rest::Whole)
}

/// Writes the interim line, if the client awaits it.
fn ask_on<W: Write>(w: &mut Counted<W>, interim: bool, left: &mut u64) -> Result<(), StreamFault>
    requires { w.old.calls + left.old < 2 ^ 64 }
    ensures sends { Sends (interim_if interim) (W.contents w.old.inner) (W.contents w.new.inner)
        result }
    ensures spends { SpendsTurns left.old left.new (writes_of w.old) (writes_of w.new) result }
{
    if !interim {
        return Ok(());
    }
    send(w, INTERIM, left)
}

/// Reads until there is a request at the front of `pending`, and writes its interim line.
pub fn take_request<R: Read, W: Write>(
    alloc: Global,
    r: &mut Counted<R>,
    w: &mut Counted<W>,
    chunk: &mut [u8],
    pending: &mut Vec<u8>,
    limits: &Limits,
    left: &mut u64,
) -> Result<Taken, StreamFault>
    requires reads { r.old.calls + left.old < 2 ^ 64 }
    requires writes { w.old.calls + left.old < 2 ^ 64 }
    requires some { 0 < length chunk.old }
    ensures takes { Takes (R.remaining r.old.inner) (R.remaining r.new.inner)
        pending.old.items pending.new.items (W.contents w.old.inner) (W.contents w.new.inner)
        limits.now result }
    ensures spends { SpendsTurns left.old left.new (tally r.old w.old) (tally r.new w.new) result }
    ensures chunk { length chunk.new ≡ length chunk.old }
{
    bounds_law();
    append_law();
    let head = match await_head(alloc, r, chunk, pending, limits, left)? {
        Awaited::End => return Ok(Taken::End),
        Awaited::Refused(rule, head_only) => return Ok(Taken::Refused(rule, head_only)),
        Awaited::Head(head) => head,
    };
    ask_on(w, head.interim, left)?;
    match await_rest(r, chunk, pending, head.len, head.body_len, left)? {
        Rest::Whole => Ok(Taken::Whole(head)),
        Rest::End => Ok(Taken::End),
        Rest::NoMemory => Ok(Taken::Refused(Rule::S1, head.as_head().is_head_only())),
    }
}
