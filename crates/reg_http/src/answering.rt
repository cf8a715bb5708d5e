//! Routing one request, and answering it from the registry.

ghost use Rattle.std.specs.Prelude.{◌≡◌, ◌+◌, ◌^◌, ◌<◌, None, OnOk};
ghost use Rattle.reg_http_read.specs.Reads.{facts_of};
ghost use Rattle.reg_http_read.specs.Turns.{Sends, SpendsTurns, writes_of};
ghost use Rattle.reg_api_replies.specs.Texts.{refusal_text};
ghost use Rattle.reg_service.specs.Registries.{limits_of, tables_of};
ghost use Rattle.reg_http.specs.Answering.{AnswersRequest, GoesOn, IsFileReplied, IsMessageReplied, IsRequestReplied, fault_reply};
ghost use Rattle.reg_http.specs.Trails.{Tail};

use crate::trail::Trail;
use reg_api_replies::Reply;
use reg_api_replies::laws::answer_law;
use reg_api_requests::ApiRequest;
use reg_body::Counted;
use reg_http_read::{Head, StreamFault, send_reply};
use reg_http_routes::{RouteFault, Routes};
use reg_policy::Rule;
use reg_service::{Answered, FoundFile, IndexFault, Registry, TracedReply};
use sqlite::Alter;
use std::alloc::Global;
use std::io::Write;

/// A request that has arrived whole.
#[derive(Clone, Copy)]
pub(crate) struct Message<'h, 'b> {
    pub head: Head<'h>,
    pub body: &'b [u8],
    /// Whether the connection closes after the reply.
    pub close: bool,
}

/// The reply to a request that was not routed.
fn refusal(fault: RouteFault) -> Reply
    ensures { result ≡ fault_reply fault }
{
    match fault {
        RouteFault::NoRoute => Reply::Denied(Rule::H6),
        RouteFault::Method(methods) => Reply::Method(methods),
        RouteFault::Memory => Reply::Denied(Rule::S1),
    }
}

/// Refuses a request under a rule.
pub(crate) fn deny<W: Write>(
    w: &mut Counted<W>,
    rule: Rule,
    close: bool,
    head_only: bool,
    left: &mut u64,
) -> Result<(), StreamFault>
    requires { w.old.calls + left.old < 2 ^ 64 }
    ensures sends { Sends (refusal_text rule None close head_only) (W.contents w.old.inner)
        (W.contents w.new.inner) result }
    ensures spends { SpendsTurns left.old left.new (writes_of w.old) (writes_of w.new) result }
    ensures fewer { OnOk result (left.new < left.old) }
{
    let reply = Reply::Denied(rule);
    send_reply(w, &reply, close, head_only, left)
}

/// Sends an index file that was found.
fn send_index<W: Write, S: Alter>(
    registry: &mut Registry<S>,
    file: &FoundFile,
    w: &mut Counted<W>,
    close: bool,
    left: &mut u64,
) -> Result<(), StreamFault>
    requires room { w.old.calls + left.old < 2 ^ 64 }
    ensures replied { (k : Tail) → IsFileReplied S.Store file.now close
        (tables_of registry.old) (tables_of registry.new) k
        (W.contents w.old.inner) (W.contents w.new.inner) result }
    ensures spends { SpendsTurns left.old left.new (writes_of w.old) (writes_of w.new) result }
    ensures fewer { OnOk result (left.new < left.old) }
    ensures keeps { GoesOn S.Store registry.old registry.new }
{
    match registry.stream_index(file, close, w, *left) {
        Ok(used) => {
            *left -= used;
            Ok(())
        }
        Err(IndexFault::Write) => Err(StreamFault::WriteFault),
        Err(IndexFault::Spent) => Err(StreamFault::TooManyTurns),
        Err(IndexFault::Store) => Err(StreamFault::StoreFault),
    }
}

/// Answers a routed request: tells what it changed and then sends the registry's reply, or sends
/// the index file that was found.
fn answer<W: Write, T: Write, S: Alter>(
    alloc: Global,
    registry: &mut Registry<S>,
    trail: &mut Trail<T>,
    w: &mut Counted<W>,
    request: &ApiRequest<'_>,
    close: bool,
    left: &mut u64,
) -> Result<(), StreamFault>
    requires room { w.old.calls + left.old < 2 ^ 64 }
    ensures { AnswersRequest S.Store
        (IsRequestReplied S.Store (limits_of registry.old) request.now close)
        T.contents W.contents registry.old registry.new trail.old trail.new w.old w.new
        left.old left.new result }
{
    answer_law();
    match registry.handle_traced(alloc, request, trail.is_open()) {
        Answered::Replied(acted) => {
            let TracedReply { reply, line } = acted;
            trail.tell(line);
            send_reply(w, &reply, close, false, left)
        }
        Answered::Found(file) => send_index(registry, &file, w, close, left),
    }
}

/// Routes a request and answers it.
pub(crate) fn answer_message<W: Write, T: Write, S: Alter>(
    alloc: Global,
    registry: &mut Registry<S>,
    trail: &mut Trail<T>,
    routes: &Routes,
    w: &mut Counted<W>,
    message: &Message<'_, '_>,
    left: &mut u64,
) -> Result<(), StreamFault>
    requires room { w.old.calls + left.old < 2 ^ 64 }
    ensures { AnswersRequest S.Store (IsMessageReplied S.Store (limits_of registry.old)
        (facts_of message.now.head) message.now.body.now message.now.close)
        T.contents W.contents registry.old registry.new trail.old trail.new w.old w.new
        left.old left.new result }
{
    match routes.route(alloc, &message.head, message.body) {
        Ok(request) => answer(alloc, registry, trail, w, &request, message.close, left),
        Err(fault) => {
            let reply = refusal(fault);
            let head_only = message.head.is_head_only();
            send_reply(w, &reply, message.close, head_only, left)
        }
    }
}
