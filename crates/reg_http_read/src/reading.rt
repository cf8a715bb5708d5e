//! Reading within the turns that are left.

ghost use Rattle.std.specs.Prelude.{◌≡◌, ◌+◌, ◌^◌, ◌<◌, ◌≤◌, length, drop, vec_len, OnOk, IsFalse};
ghost use Rattle.reg_http_read.specs.Heads.{IsUnfinished};
ghost use Rattle.reg_http_read.specs.Taking.{HasNoLine, IsLine, IsPiece};
ghost use Rattle.reg_http_read.specs.Turns.{SpendsTurns, reads_of};

use crate::fault::StreamFault;
use crate::method::begins_head;
use memchr::memchr;
use reg_body::{Counted, Limits};
use std::alloc::AllocError;
use std::io::Read;

/// What a read brought.
#[derive(Clone, Copy)]
pub(crate) enum Piece {
    /// The input has ended.
    End,
    More,
    /// There was no memory for what was read; whether a HEAD request begins.
    NoMemory(bool),
}

/// Reads once, onto the end of `pending`.
pub(crate) fn read_piece<R: Read>(
    r: &mut Counted<R>,
    chunk: &mut [u8],
    pending: &mut Vec<u8>,
    left: &mut u64,
) -> Result<Piece, StreamFault>
    requires room { r.old.calls + left.old < 2 ^ 64 }
    requires some { 0 < length chunk.old }
    ensures piece { IsPiece (R.remaining r.old.inner) (R.remaining r.new.inner)
        pending.old.items pending.new.items result }
    ensures spends { SpendsTurns left.old left.new (reads_of r.old) (reads_of r.new) result }
    ensures grows { length pending.old.items ≤ length pending.new.items }
    ensures fewer { OnOk result (left.new < left.old) }
    ensures chunk { length chunk.new ≡ length chunk.old }
{
    if *left == 0 {
        return Err(StreamFault::TooManyTurns);
    }
    *left -= 1;
    match r.read(chunk) {
        Ok(0) => Ok(Piece::End),
        Ok(n) => match pending.extend_from_slice(&chunk[..n]) {
            Ok(()) => Ok(Piece::More),
            Err(_) => Ok(Piece::NoMemory(begins_head(pending, &chunk[..n]))),
        },
        Err(_) => Err(StreamFault::ReadFault),
    }
}

/// Whether a line ends in the bytes.
fn ends_line(bytes: &[u8]) -> bool
    ensures { IsFalse result → HasNoLine bytes.now }
{
    memchr(b'\n', bytes).is_some()
}

/// Reads on if no head could be judged yet: until a line ends in what came, or `pending` has as
/// many bytes as a head may. Before that there is nothing new to judge.
pub(crate) fn read_line<R: Read>(
    r: &mut Counted<R>,
    chunk: &mut [u8],
    pending: &mut Vec<u8>,
    limits: &Limits,
    left: &mut u64,
) -> Result<Piece, StreamFault>
    requires room { r.old.calls + left.old < 2 ^ 64 }
    requires some { 0 < length chunk.old }
    requires begun { IsUnfinished limits.now pending.old.items }
    ensures line { IsLine (R.remaining r.old.inner) (R.remaining r.new.inner)
        pending.old.items pending.new.items limits.now result }
    ensures spends { SpendsTurns left.old left.new (reads_of r.old) (reads_of r.new) result }
    ensures fewer { OnOk result (left.new < left.old) }
    ensures chunk { length chunk.new ≡ length chunk.old }
{
    'pieces: loop {
        let begun = pending.len();
        match read_piece(r, chunk, pending, left)? {
            Piece::More => {}
            Piece::End => return Ok(Piece::End),
            Piece::NoMemory(head_only) => return Ok(Piece::NoMemory(head_only)),
        }
        let (_, came) = pending.split_at(begun);
        if ends_line(came) || pending.len() >= limits.head as usize {
            return Ok(Piece::More);
        }
    }
}

/// Makes room for the missing bytes of a body, and for what one read may bring.
pub(crate) fn make_room(pending: &mut Vec<u8>, missing: u64, chunk: usize) -> Result<(), AllocError>
    ensures { pending.new.items ≡ pending.old.items }
{
    pending.reserve_exact((missing as usize).saturating_add(chunk))
}

/// Drops the first n bytes of `pending`.
pub fn drop_front(pending: &mut Vec<u8>, n: usize)
    requires { n ≤ vec_len pending.old }
    ensures { pending.new.items ≡ drop n pending.old.items }
{
    let rest = pending.len() - n;
    pending.rotate_left(n);
    pending.truncate(rest);
}
