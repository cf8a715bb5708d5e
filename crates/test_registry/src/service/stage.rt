//! What a script is played on.

ghost use Rattle.reg_model.specs.Events.Event.{Order};
ghost use Rattle.reg_model.specs.Steps.{IsFit};
ghost use Rattle.reg_policy.specs.Events.{command_of};

use crate::service::agreeing::{finds_alike, obeys_alike, replies_alike};
use reg_api_replies::{Reply, write_reply};
use reg_api_requests::{ApiCall, ApiRequest, digest_shown, read_call};
use reg_body::Counted;
use reg_policy::{AdminCommand, Event};
use reg_reference::PlainRegistry;
use reg_service::Registry;
use sqlite::Alter;
use std::alloc::{AllocError, Global};
use test_scripts::{Parts, order_text, reply_text, send_answer};
use test_support::examples::SECOND_TOKEN;

/// The account of ada's or bob's token. Who asks with another sees in each script that searches
/// what nobody in particular sees.
fn account_of(request: &ApiRequest<'_>) -> Option<u32> {
    match request.token {
        Some(b"abc") => Some(1),
        Some(token) if token == SECOND_TOKEN.as_bytes() => Some(2),
        _ => None,
    }
}

/// Whether the plain registry answers a request as it was answered.
fn is_alike(
    alloc: Global,
    plain: &mut PlainRegistry,
    limits: &reg_body::Limits,
    request: &ApiRequest<'_>,
    reply: &Reply,
) -> Result<bool, AllocError> {
    let digest = digest_shown(request);
    let event = Event::Ask(digest.as_ref(), read_call(alloc, &request.call, limits)?);
    let answer = plain.step(&event);
    Ok(
        replies_alike(alloc, reply, &answer)?
            && finds_alike(alloc, plain, account_of(request), &event, reply)?,
    )
}

/// Whether an index file is sent row by row as it was answered.
fn is_streamed_alike<S: Alter>(
    alloc: Global,
    registry: &mut Registry<S>,
    request: &ApiRequest<'_>,
    reply: &Reply,
) -> bool {
    let ApiCall::Index(_) = &request.call else {
        return true;
    };
    let mut streamed = Counted::new(Vec::new(alloc));
    let mut whole = Counted::new(Vec::new(alloc));
    let is_sent = send_answer(alloc, registry, request, &mut streamed);
    let written = write_reply(&mut whole, reply, false, false, 1_000);
    is_sent && written.is_ok() && streamed.inner().as_slice() == whole.inner().as_slice()
}

/// What a request is answered.
fn asked<S: Alter>(
    alloc: Global,
    registry: &mut Registry<S>,
    plain: &mut PlainRegistry,
    request: &ApiRequest<'_>,
) -> Result<String, AllocError> {
    let reply = registry.handle(alloc, request);
    if !is_streamed_alike(alloc, registry, request, &reply) {
        return String::from_str(alloc, "the file is sent otherwise");
    }
    if is_alike(alloc, plain, registry.limits(), request, &reply)? {
        return reply_text(alloc, &reply);
    }
    String::from_str(alloc, "the plain registry answers otherwise")
}

/// What a command is answered.
fn ordered<S: Alter>(
    alloc: Global,
    registry: &mut Registry<S>,
    plain: &mut PlainRegistry,
    command: AdminCommand<'_>,
) -> Result<String, AllocError>
    requires fit { IsFit (Order (command_of command)) }
{
    let told = registry.command(alloc, &command);
    let answer = plain.step(&Event::Order(command));
    if obeys_alike(alloc, &told, answer)? {
        return order_text(alloc, &told);
    }
    String::from_str(alloc, "the plain registry answers otherwise")
}

/// What a line is answered.
pub(crate) fn answered<S: Alter>(
    alloc: Global,
    registry: &mut Registry<S>,
    plain: &mut PlainRegistry,
    line: &str,
) -> Result<String, AllocError> {
    let parts = Parts::read(alloc, line)?;
    if let Some(command) = parts.command() {
        return ordered(alloc, registry, plain, command);
    }
    match parts.request() {
        Some(request) => asked(alloc, registry, plain, &request),
        None => String::from_str(alloc, "no such words"),
    }
}
