//! What a request comes to, with its line.

ghost use Rattle.std.specs.Prelude.{◌≡◌, None, string_bytes};
ghost use Rattle.std.specs.Option.{option_map};
ghost use Rattle.reg_api_replies.specs.declared.reply.Reply.TheVariants.{Denied};
ghost use Rattle.reg_service_requests.specs.Telling.{IsUntold, line_with};
ghost use Rattle.reg_service_requests.specs.declared.served.Served.TheVariants.{ReadOnly};

use crate::served::Served;
use reg_api_replies::Reply;
use reg_policy::Rule;
use reg_tables::Result;

/// The outcome of a request, and the line of what it changes.
#[derive(Drop)]
pub struct TracedServed {
    pub served: Served,
    pub line: Option<String>,
}

/// A denial, which has no line.
pub(crate) fn denied(rule: Rule) -> TracedServed
    ensures served { result.served ≡ ReadOnly (Denied rule) }
    ensures line { result.line ≡ None }
{
    TracedServed {
        served: Served::ReadOnly(Reply::Denied(rule)),
        line: None,
    }
}

/// An outcome that changes nothing, and so has no line.
pub(crate) fn untold(served: Result<Served>) -> Result<TracedServed>
    ensures { IsUntold served result }
{
    match served {
        Ok(served) => Ok(TracedServed { served, line: None }),
        Err(fault) => Err(fault),
    }
}

/// The reply to a request, and the line of what it changed.
#[derive(Drop)]
pub struct TracedReply {
    pub reply: Reply,
    pub line: Option<String>,
}

/// The reply with its line; a denial has none.
pub fn with_line(reply: Reply, line: Option<String>) -> TracedReply
    ensures reply { result.reply ≡ reply }
    ensures line { option_map string_bytes result.line ≡ line_with reply line }
{
    match reply {
        Reply::Done(_, _) => TracedReply { reply, line },
        Reply::Denied(_) | Reply::Method(_) => TracedReply { reply, line: None },
    }
}
