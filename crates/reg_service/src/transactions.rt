//! A request or a command as one transaction.

ghost use Rattle.std.specs.Prelude.{◌≡◌, Err, None};
ghost use Rattle.std.specs.Option.{option_map};
ghost use Rattle.reg_model.specs.Events.Event.{Ask, Order};
ghost use Rattle.reg_model.specs.Steps.{IsFit};
ghost use Rattle.reg_policy.specs.Events.{asked_of, command_of};
ghost use Rattle.reg_tables.specs.Works.{is_stopped};
ghost use Rattle.reg_service.specs.Traced.{IsActed, IsOrdered, SaysNoRoom};
ghost use Rattle.reg_service.specs.Answered.{AreUpToDate, Halts, WasClean};

use crate::answered::Answered;
use crate::searching::search_reply;
use reg_api_replies::Reply;
use reg_body::Limits;
use reg_line::Digest;
use reg_model::AdminRefusal;
use reg_model::laws::{denial_law, soundness_law};
use reg_policy::{AdminCommand, Asked, Rule};
use reg_service_commands::{TracedOrder, order_told, refused};
use reg_service_index::laws::file_law;
use reg_service_requests::{Served, TracedReply, TracedServed, serve_told, with_line};
use reg_tables::Tables;
use sqlite::Alter;
use std::alloc::Global;

/// Runs an administrator's command in one transaction. If it is refused, nothing is kept. If
/// `traced`, the line of what it changed is told.
pub(crate) fn command_in<S: Alter>(
    alloc: Global,
    tables: &mut Tables<S>,
    limits: &Limits,
    command: &AdminCommand<'_>,
    traced: bool,
) -> TracedOrder
    requires tables { AreUpToDate S.Store tables.old }
    requires fit { IsFit (Order (command_of command.now)) }
    ensures answers { IsOrdered S.Store limits.now traced (command_of command.now) result
        tables.old tables.new }
    ensures tables { AreUpToDate S.Store tables.new }
    ensures clean { WasClean S.Store tables.old tables.new }
    ensures halts { Halts (is_stopped tables.old) (is_stopped tables.new)
        (result.answer ≡ Err AdminRefusal.G10) }
{
    soundness_law();
    denial_law();
    let Ok(mut work) = tables.work() else {
        return refused(AdminRefusal::G10);
    };
    let Ok(told) = order_told(alloc, &mut work, limits, command, traced) else {
        return refused(AdminRefusal::G10);
    };
    match told.answer {
        Ok(_) => match work.commit() {
            Ok(()) => told,
            Err(_unkept) => refused(AdminRefusal::G10),
        },
        Err(refusal) => refused(refusal),
    }
}

/// A denial, which has no line.
pub(crate) fn denied(rule: Rule) -> TracedReply
    ensures reply { result.reply ≡ Reply.Denied rule }
    ensures line { result.line ≡ None }
{
    TracedReply {
        reply: Reply::Denied(rule),
        line: None,
    }
}

/// Answers a request in one transaction. If nothing is changed, nothing is kept; a search reads
/// after the transaction is over, and an index file is read by who asked. If `traced`, the line of
/// what it changed is told.
pub(crate) fn request_in<S: Alter>(
    alloc: Global,
    tables: &mut Tables<S>,
    limits: &Limits,
    digest: Option<&Digest>,
    asked: &Asked<'_>,
    traced: bool,
) -> Answered
    requires tables { AreUpToDate S.Store tables.old }
    requires fit { (d : _) → IsFit (Ask d (asked_of asked.now)) }
    ensures replies { IsActed S.Store limits.now traced (option_map (λ d. d.now) digest.entry)
        (asked_of asked.now) result tables.old tables.new }
    ensures tables { AreUpToDate S.Store tables.new }
    ensures clean { WasClean S.Store tables.old tables.new }
    ensures halts { Halts (is_stopped tables.old) (is_stopped tables.new) (SaysNoRoom result) }
{
    soundness_law();
    file_law();
    let Ok(mut work) = tables.work() else {
        return Answered::Replied(denied(Rule::S1));
    };
    let Ok(told) = serve_told(alloc, &mut work, limits, digest, asked, traced) else {
        return Answered::Replied(denied(Rule::S1));
    };
    let TracedServed { served, line } = told;
    match served {
        Served::Done(reply) => match work.commit() {
            Ok(()) => Answered::Replied(with_line(reply, line)),
            Err(_unkept) => Answered::Replied(denied(Rule::S1)),
        },
        Served::ReadOnly(reply) => Answered::Replied(with_line(reply, line)),
        Served::Seeks(account) => {
            drop(work);
            Answered::Replied(with_line(search_reply(alloc, tables, account, asked), line))
        }
        Served::Sends(file) => Answered::Found(file),
    }
}
