//! Sending replies.

ghost use Rattle.std.specs.Prelude.{◌≡◌, ◌+◌, ◌^◌, ◌<◌, ◌++◌};
ghost use Rattle.reg_body.specs.Sent.{Sends, sink};
ghost use Rattle.reg_api_replies.specs.Texts.{body_if, refusal_text, reply_text};

use crate::fixed_text::FixedText;
use crate::head::{Kind, Methods, refusal_status, reply_head};
use crate::pile::WriteBuffer;
use crate::refused::error_body;
use crate::reply::Reply;
use http::StatusCode;
use reg_body::{Counted, SendFault};
use reg_policy::Rule;
use std::io::Write;

/// The body, if it is to be sent.
fn body_or_none(body: &[u8], head_only: bool) -> &[u8]
    ensures { result.now ≡ body_if head_only body.now }
{
    if head_only { &[] } else { body }
}

/// Writes a head and a body, in one write if they fit a pile. A longer body is written without
/// copying.
fn write_parts<W: Write>(
    w: &mut Counted<W>,
    head: &FixedText,
    body: &[u8],
    writes: u64,
) -> Result<u64, SendFault>
    requires { w.old.calls + writes < 2 ^ 64 }
    ensures { Sends result (head.now ++ body.now) writes
        (sink (W.contents w.old.inner) w.old) (sink (W.contents w.new.inner) w.new) }
{
    let mut pile = WriteBuffer::new();
    let used = pile.put(w, head.as_bytes(), writes)?;
    let more = pile.put(w, body, writes - used)?;
    let last = pile.send(w, writes - (used + more))?;
    Ok(used + more + last)
}

/// Writes the refusal of a request.
fn write_refusal<W: Write>(
    w: &mut Counted<W>,
    rule: Rule,
    allow: Option<Methods>,
    close: bool,
    head_only: bool,
    writes: u64,
) -> Result<u64, SendFault>
    requires { w.old.calls + writes < 2 ^ 64 }
    ensures { Sends result (refusal_text rule allow close head_only) writes
        (sink (W.contents w.old.inner) w.old) (sink (W.contents w.new.inner) w.new) }
{
    let text = error_body(rule);
    let body = text.as_bytes();
    let status = refusal_status(rule);
    let head = reply_head(status, Kind::Json, allow, body.len() as u64, close);
    write_parts(w, &head, body_or_none(body, head_only), writes)
}

/// Writes a reply; if only its head is asked for, its body is left out.
pub fn write_reply<W: Write>(
    w: &mut Counted<W>,
    reply: &Reply,
    close: bool,
    head_only: bool,
    writes: u64,
) -> Result<u64, SendFault>
    requires { w.old.calls + writes < 2 ^ 64 }
    ensures { Sends result (reply_text reply.now close head_only) writes
        (sink (W.contents w.old.inner) w.old) (sink (W.contents w.new.inner) w.new) }
{
    match reply {
        Reply::Done(kind, body) => {
            let head = reply_head(StatusCode::OK, *kind, None, body.len() as u64, close);
            write_parts(w, &head, body_or_none(body, head_only), writes)
        }
        Reply::Denied(rule) => write_refusal(w, *rule, None, close, head_only, writes),
        Reply::Method(allow) => write_refusal(w, Rule::H7, Some(*allow), close, head_only, writes),
    }
}
