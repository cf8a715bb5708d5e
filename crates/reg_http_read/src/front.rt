//! The lines of a front, and what one parse of it gives.

ghost use Rattle.std.specs.Prelude.{◌≡◌, ◌<◌, ◌≤◌, ◌==◌, ℕ, List, IfOk, length, map, take};
ghost use Rattle.std.specs.List.{count_by};
ghost use Rattle.httparse.specs.Borrowed.{header_parts};
ghost use Rattle.reg_http_read.specs.Fronts.{EndsLine};
ghost use Rattle.reg_http_read.specs.Heads.{answers_head as answers, judge_parts};
ghost use Rattle.reg_http_read.specs.Reads.{IsJudgement, IsAnswer};

use crate::asked::judge_fields;
use crate::head::{Head, HeadRead};
use httparse::{EMPTY_HEADER, Header, Request, Status};
use memchr::memrchr;
use reg_body::Limits;
use reg_model::Rule;
use std::alloc::{AllocError, Global};

/// The first line of a head, and how many bytes the head has.
#[derive(Clone, Copy)]
pub(crate) struct FirstLine<'b> {
    pub method: &'b str,
    pub target: &'b str,
    pub minor: u8,
    pub len: usize,
}

/// How many bytes there are up to and including the last line feed.
pub(crate) fn last_line(bytes: &[u8]) -> usize
    ensures within { result ≤ length bytes.now }
    ensures ends { 0 < result → EndsLine (take result bytes.now) }
    ensures last { (n : ℕ) → n ≤ length bytes.now → EndsLine (take n bytes.now) → n ≤ result }
{
    match memrchr(b'\n', bytes) {
        Some(place) => place + 1,
        None => 0,
    }
}

/// How many line feeds there are.
fn line_feeds(bytes: &[u8]) -> usize
    ensures { result ≡ count_by (λ b. b == 10) bytes.now }
{
    bytes.iter().filter(|b| **b == b'\n').count()
}

/// Whether a refusal for this rule answers a HEAD request.
fn answers_head(rule: Rule, method: &str) -> bool
    ensures { result ≡ answers rule method.now }
{
    match rule {
        Rule::H1 | Rule::H2 => false,
        _ => method == "HEAD",
    }
}

/// The outcome for a whole head.
fn judge_head<'b>(line: FirstLine<'b>, fields: &[Header<'b>], limits: &Limits) -> HeadRead<'b>
    ensures { IsAnswer result line.entry.method.now (judge_parts limits.now line.entry.method.now
        line.entry.target.now line.entry.minor line.entry.len (map header_parts fields.now)) }
{
    match judge_fields(fields, line.minor, limits) {
        Ok(asked) => HeadRead::Head(Head {
            method: line.method,
            target: line.target,
            token: asked.token,
            len: line.len,
            body_len: asked.body_len,
            interim: asked.interim,
            close: asked.close,
        }),
        Err(rule) => HeadRead::Refused(rule, answers_head(rule, line.method)),
    }
}

/// Parses a front once, with room for as many fields as it has lines.
pub(crate) fn judge_front<'b>(
    alloc: Global,
    front: &'b [u8],
    limits: &Limits,
) -> Result<HeadRead<'b>, AllocError>
    ensures { IfOk result (IsJudgement limits.now front.now) }
{
    let mut room = vec![in alloc; EMPTY_HEADER; line_feeds(front)]?;
    let mut request = Request::new(room.as_mut_slice());
    match request.parse(front) {
        Ok(Status::Complete(len)) => {
            let line = FirstLine {
                method: request.method.unwrap(),
                target: request.path.unwrap(),
                minor: request.version.unwrap(),
                len,
            };
            Ok(judge_head(line, request.headers, limits))
        }
        Ok(Status::Partial) => Ok(HeadRead::More),
        Err(_) => Ok(HeadRead::Refused(Rule::H1, false)),
    }
}
