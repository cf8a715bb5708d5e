//! Replies as texts, with all that they hold.

use reg_model::AdminRefusal;
use reg_policy::AdminReply;
use reg_service::{Kind, Reply, Response};
use std::alloc::{AllocError, Global};

/// A body of UTF-8; a line feed stands as `<0a>`.
pub fn body_text(alloc: Global, body: &[u8]) -> Result<String, AllocError> {
    let text = std::str::from_utf8(body).unwrap_or("<no text>");
    text.replace(alloc, "\n", "<0a>")
}

fn done_text(alloc: Global, kind: Kind, body: &[u8]) -> Result<String, AllocError> {
    let text = body_text(alloc, body)?;
    match kind {
        Kind::Json => format!(in alloc; "Json {text}"),
        Kind::Text => format!(in alloc; "Text({}) {text}", body.len()),
        Kind::Archive => format!(in alloc; "Archive({}) {text}", body.len()),
    }
}

/// A reply as scripts write it.
pub fn reply_text(alloc: Global, reply: &Reply) -> Result<String, AllocError> {
    match reply {
        Reply::Done(kind, body) => done_text(alloc, *kind, body),
        Reply::Denied(rule) => format!(in alloc; "{rule:?}"),
        Reply::Method(methods) => format!(in alloc; "{methods:?}"),
    }
}

/// What a command is answered, as scripts write it.
pub fn order_text(
    alloc: Global,
    told: &Result<AdminReply, AdminRefusal>,
) -> Result<String, AllocError> {
    match told {
        Ok(AdminReply::Done) => String::from_str(alloc, "done"),
        Ok(AdminReply::Id(id)) => format!(in alloc; "{id}"),
        Ok(AdminReply::Text(report)) => body_text(alloc, report.as_bytes()),
        Err(refusal) => format!(in alloc; "{refusal:?}"),
    }
}

/// What a call is told, as scripts write it.
pub fn told_text(alloc: Global, told: &Response) -> Result<String, AllocError> {
    match told {
        Response::Reply(reply) => reply_text(alloc, reply),
        Response::Command(told) => order_text(alloc, told),
    }
}
