//! The heads of replies.

ghost use Rattle.std.specs.Prelude.{◌≡◌, ◌+◌, ◌≤◌, ◌++◌, length};
ghost use Rattle.arrayvec.specs.ArrayString.{array_string_len};
ghost use Rattle.reg_policy.specs.Words.{status_of};
ghost use Rattle.reg_api_replies.specs.Heads.{allow_line, challenge_line, close_line, head_text, methods_text, phrase_of, type_of};

use crate::fixed_text::{FixedText, ROOM};
use arrayvec::ArrayString;
use http::StatusCode;
use itoa::Buffer;
use reg_policy::{Rule, rule_status};

/// A body's kind.
#[derive(Clone, Copy, Debug, PartialEq, Eq)]
pub enum Kind {
    /// An index file.
    Text,
    Archive,
    Json,
}

/// The methods of a route.
#[derive(Clone, Copy, Debug, PartialEq, Eq)]
pub enum Methods {
    Get,
    Put,
    Delete,
    GetPutDelete,
}

/// The status of a refusal.
#[tactic(auto, using(crate::proofs::Statuses::status_fits))]
pub(crate) fn refusal_status(rule: Rule) -> StatusCode
    ensures { result ≡ status_of rule }
{
    StatusCode::from_u16(rule_status(rule)).unwrap()
}

fn phrase(code: u16) -> &'static str
    ensures value { result.now ≡ phrase_of code }
    ensures short { length result.now ≤ 31 }
{
    match code {
        200 => "OK",
        400 => "Bad Request",
        401 => "Unauthorized",
        403 => "Forbidden",
        404 => "Not Found",
        405 => "Method Not Allowed",
        409 => "Conflict",
        411 => "Length Required",
        413 => "Content Too Large",
        431 => "Request Header Fields Too Large",
        _ => "Service Unavailable",
    }
}

fn media_type(kind: Kind) -> &'static str
    ensures value { result.now ≡ type_of kind }
    ensures short { length result.now ≤ 24 }
{
    match kind {
        Kind::Json => "application/json",
        Kind::Text => "text/plain",
        Kind::Archive => "application/octet-stream",
    }
}

fn method_names(methods: Methods) -> &'static str
    ensures value { result.now ≡ methods_text methods }
    ensures short { length result.now ≤ 16 }
{
    match methods {
        Methods::Get => "GET",
        Methods::Put => "PUT",
        Methods::Delete => "DELETE",
        Methods::GetPutDelete => "GET, PUT, DELETE",
    }
}

fn push_challenge(head: &mut ArrayString<ROOM>, code: u16)
    requires { array_string_len head.old + 25 ≤ ROOM }
    ensures bytes { head.new.bytes ≡ head.old.bytes ++ challenge_line code }
    ensures len { array_string_len head.new ≤ array_string_len head.old + 25 }
{
    if code == 401 {
        head.push_str("www-authenticate: Cargo\r\n");
    }
}

fn push_allow(head: &mut ArrayString<ROOM>, code: u16, allow: Option<Methods>)
    requires { array_string_len head.old + 25 ≤ ROOM }
    ensures bytes { head.new.bytes ≡ head.old.bytes ++ allow_line code allow }
    ensures len { array_string_len head.new ≤ array_string_len head.old + 25 }
{
    if let Some(methods) = allow
        && code == 405
    {
        head.push_str("allow: ");
        head.push_str(method_names(methods));
        head.push_str("\r\n");
    }
}

fn push_close(head: &mut ArrayString<ROOM>, close: bool)
    requires { array_string_len head.old + 19 ≤ ROOM }
    ensures bytes { head.new.bytes ≡ head.old.bytes ++ close_line close }
    ensures len { array_string_len head.new ≤ array_string_len head.old + 19 }
{
    if close {
        head.push_str("connection: close\r\n");
    }
}

/// Builds the head of a reply, up to its empty line. The length is that of the body, even if the
/// body is left out; `allow` is empty unless the route has other methods.
#[tactic(auto, unfolding(crate::specs::Heads::head_text))]
pub fn reply_head(
    status: StatusCode,
    kind: Kind,
    allow: Option<Methods>,
    length: u64,
    close: bool,
) -> FixedText
    ensures { result ≡ head_text status kind allow length close }
{
    let code = status.as_u16();
    let mut text = ArrayString::new();
    let mut digits = Buffer::new();
    text.push_str("HTTP/1.1 ");
    text.push_str(digits.format(code));
    text.push_str(" ");
    text.push_str(phrase(code));
    text.push_str("\r\ncontent-type: ");
    text.push_str(media_type(kind));
    text.push_str("\r\ncontent-length: ");
    text.push_str(digits.format(length));
    text.push_str("\r\n");
    push_challenge(&mut text, code);
    push_allow(&mut text, code, allow);
    push_close(&mut text, close);
    text.push_str("\r\n");
    FixedText { text }
}
