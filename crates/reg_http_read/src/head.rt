//! The head at the front of a stream.

ghost use Rattle.std.specs.Prelude.{◌≡◌, ◌<◌, length, IfOk, OnErr};
ghost use Rattle.reg_http_read.specs.Fronts.{IsUnjudged};
ghost use Rattle.reg_http_read.specs.Begun.{is_head_only};
ghost use Rattle.reg_http_read.specs.Reads.{IsRead, facts_of};

use crate::front::{judge_front, last_line};
use reg_body::Limits;
use reg_model::Rule;
use std::alloc::{AllocError, Global};

/// A head and what it says.
#[derive(Clone, Copy)]
pub struct Head<'b> {
    pub method: &'b str,
    pub target: &'b str,
    /// The value of the only `Authorization` field.
    pub token: Option<&'b [u8]>,
    /// How many bytes the head has.
    pub len: usize,
    /// How many bytes its body has.
    pub body_len: u64,
    /// Whether the client awaits `100 Continue`.
    pub interim: bool,
    /// Whether the connection closes after the reply.
    pub close: bool,
}

impl Head<'_> {
    /// Whether the method is HEAD, so that only the head of a reply is sent.
    pub fn is_head_only(&self) -> bool
        ensures { result ≡ is_head_only (facts_of self.now) }
    {
        self.method == "HEAD"
    }
}

/// What the front of a stream was read as.
#[derive(Clone, Copy)]
pub enum HeadRead<'b> {
    /// More bytes are needed.
    More,
    Head(Head<'b>),
    /// The rule that is broken, and whether only the head of the refusal is sent.
    Refused(Rule, bool),
}

/// The outcome if no front is judged.
fn read_unjudged<'b>(bytes: &'b [u8], limits: &Limits) -> HeadRead<'b>
    requires { IsUnjudged limits.now.head bytes.now }
    ensures { IsRead limits.now bytes.now result }
{
    if bytes.len() < limits.head as usize {
        HeadRead::More
    } else {
        HeadRead::Refused(Rule::H2, false)
    }
}

/// Reads the head at the front of the bytes, in one parse of their lines.
pub fn read_head<'b>(
    alloc: Global,
    bytes: &'b [u8],
    limits: &Limits,
) -> Result<HeadRead<'b>, AllocError>
    ensures read { IfOk result (IsRead limits.now bytes.now) }

    // No bytes need no memory.
    ensures some { OnErr result (0 < length bytes.now) }
{
    let (within, _) = bytes.split_at(bytes.len().min(limits.head as usize));
    let end = last_line(within);
    if end == 0 {
        return Ok(read_unjudged(bytes, limits));
    }
    let (front, _) = bytes.split_at(end);
    match judge_front(alloc, front, limits)? {
        HeadRead::More => Ok(read_unjudged(bytes, limits)),
        read => Ok(read),
    }
}
