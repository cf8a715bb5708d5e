//! A registry over a store.

ghost use Rattle.std.specs.Prelude.{◌≡◌, ◌↔◌, ◌+◌, ◌^◌, ◌<◌, ◌⊎◌, true, Err, IfOk, IsErr, None};
ghost use Rattle.sqlite.specs.State.{HasCleanDisk};
ghost use Rattle.reg_model.specs.Events.Event.{Order};
ghost use Rattle.reg_model.specs.Steps.{IsFit};
ghost use Rattle.reg_check_sound.specs.Opening.{AreRegistry};
ghost use Rattle.reg_policy.specs.Events.{command_of, reply_of};
ghost use Rattle.reg_api_requests.specs.Requests.{request_of};
ghost use Rattle.reg_api_requests.specs.Views.{event_of};
ghost use Rattle.reg_service.specs.Traced.{IsActed, IsOrdered, IsUntold, SaysNoRoom};
ghost use Rattle.reg_service.specs.Answered.{Halts, IsAnswered, WasClean};
ghost use Rattle.reg_service.specs.Handled.{IsReplied};
ghost use Rattle.reg_service.specs.Looked.{FailsFirst, IsIndex, IsMark, IsTrueOf, Looked, WasTried};
ghost use Rattle.reg_service.specs.Registries.{limits_of, tables_of};
ghost use Rattle.reg_body.specs.Sent.{sink};
ghost use Rattle.reg_service.specs.Streamed.{IsStreamed, LeavesStream};
ghost use Rattle.reg_tables.specs.Works.{held, is_stopped, shown};

use crate::answered::Answered;
use crate::exporting::export_in;
use crate::marking::mark_in;
use crate::transactions::{command_in, denied, request_in};
use reg_api_replies::{Kind, Reply};
use reg_api_requests::{ApiRequest, digest_shown, read_call};
use reg_audit::{Check, audit};
use reg_body::{Counted, Limits};
use reg_check_sound::laws::opening_law;
use reg_model::AdminRefusal;
use reg_policy::{AdminCommand, AdminReply, Rule};
use reg_service_commands::TracedOrder;
use reg_service_index::{FoundFile, IndexFault, read_file, send_file};
use reg_service_requests::TracedReply;
use reg_tables::{Result, StoreFault, Tables};
use sqlite::{Alter, Connection};
use std::alloc::Global;
use std::io::Write;
use std::marker::Model;

/// A registry over a store. After a commit has failed, or its store has closed, it refuses
/// everything until the store is opened again.
#[derive(Drop)]
pub struct Registry<S: Alter> {
    pub(crate) tables: Tables<S>,
    pub(crate) limits: Limits,
}

impl<S: Alter> Model for Registry<S> {
    ghost use Rattle.reg_service.specs.Answered.{AreUpToDate};
    ghost use Rattle.reg_service.specs.Registries.{Running, running_code};

    ghost Value = { Running S };

    ghost coded = { running_code S.code };

    ghost view = { λ r. record { tables = r.tables; limits = r.limits } };

    ghost invariant = { λ r. AreUpToDate S.Store r.tables };
}

impl<S: Alter> Registry<S> {
    /// The limits that it was given.
    pub fn limits(&self) -> &Limits
        ensures { result.now ≡ limits_of self.now }
    {
        &self.limits
    }

    /// Whether it has stopped: a commit failed, or its store no longer answers. Until the store is
    /// opened again, each request is S1 and each command G10.
    pub fn is_stopped(&mut self) -> bool
        ensures told { result ≡ is_stopped (tables_of self.new) }
        ensures tried { WasTried S.Store (tables_of self.old) (tables_of self.new) }
        ensures limits { limits_of self.new ≡ limits_of self.old }
    {
        !self.tables.are_answering()
    }

    /// Runs an administrator's command, in one transaction.
    pub fn command(
        &mut self,
        alloc: Global,
        command: &AdminCommand<'_>,
    ) -> Result<AdminReply, AdminRefusal>
        requires fit { IsFit (Order (command_of command.now)) }
        ensures answers { IsAnswered S.Store (limits_of self.old)
            (Order (command_of command.now)) (reply_of result)
            (tables_of self.old) (tables_of self.new) }
        ensures clean { WasClean S.Store (tables_of self.old) (tables_of self.new) }
        ensures limits { limits_of self.new ≡ limits_of self.old }
        ensures halts { Halts (is_stopped (tables_of self.old)) (is_stopped (tables_of self.new))
            (result ≡ Err AdminRefusal.G10) }
    {
        let TracedOrder { answer, line: _ } = self.command_traced(alloc, command, false);
        answer
    }

    /// Answers a request, in one transaction.
    pub fn handle(&mut self, alloc: Global, request: &ApiRequest<'_>) -> Reply
        ensures replies { let asks = request_of (limits_of self.old) request.now in
            IsReplied S.Store (limits_of self.old) asks.digest asks.asked result
            (tables_of self.old) (tables_of self.new) }
        ensures clean { WasClean S.Store (tables_of self.old) (tables_of self.new) }
        ensures limits { limits_of self.new ≡ limits_of self.old }
        ensures read { IsFit (event_of (request_of (limits_of self.old) request.now))
            ⊎ ((result ≡ Reply.Denied Rule.S1) × (tables_of self.new ≡ tables_of self.old)) }
        ensures halts { Halts (is_stopped (tables_of self.old)) (is_stopped (tables_of self.new))
            (result ≡ Reply.Denied Rule.S1) }
    {
        match self.handle_traced(alloc, request, false) {
            Answered::Replied(acted) => {
                let TracedReply { reply, line: _line } = acted;
                reply
            }
            Answered::Found(file) => match read_file(alloc, &mut self.tables, &file) {
                Ok(text) => Reply::Done(Kind::Text, text),
                Err(_) => Reply::Denied(Rule::S1),
            },
        }
    }

    /// Does as `command`. If `traced`, it tells the line of what was changed, if anything was.
    pub fn command_traced(
        &mut self,
        alloc: Global,
        command: &AdminCommand<'_>,
        traced: bool,
    ) -> TracedOrder
        requires fit { IsFit (Order (command_of command.now)) }
        ensures answers { IsOrdered S.Store (limits_of self.old) traced (command_of command.now)
            result (tables_of self.old) (tables_of self.new) }
        ensures clean { WasClean S.Store (tables_of self.old) (tables_of self.new) }
        ensures limits { limits_of self.new ≡ limits_of self.old }
        ensures halts { Halts (is_stopped (tables_of self.old)) (is_stopped (tables_of self.new))
            (result.answer ≡ Err AdminRefusal.G10) }
    {
        command_in(alloc, &mut self.tables, &self.limits, command, traced)
    }

    /// Answers a request, in one transaction. If `traced`, it tells the line of what was changed,
    /// if anything was. An index file is found, for `stream_index`.
    pub fn handle_traced(
        &mut self,
        alloc: Global,
        request: &ApiRequest<'_>,
        traced: bool,
    ) -> Answered
        ensures replies { let asks = request_of (limits_of self.old) request.now in
            IsActed S.Store (limits_of self.old) traced asks.digest asks.asked result
            (tables_of self.old) (tables_of self.new) }
        ensures clean { WasClean S.Store (tables_of self.old) (tables_of self.new) }
        ensures limits { limits_of self.new ≡ limits_of self.old }
        ensures read { IsFit (event_of (request_of (limits_of self.old) request.now))
            ⊎ (IsUntold result × (tables_of self.new ≡ tables_of self.old)) }
        ensures halts { Halts (is_stopped (tables_of self.old)) (is_stopped (tables_of self.new))
            (SaysNoRoom result) }
    {
        let Ok(asked) = read_call(alloc, &request.call, &self.limits) else {
            return Answered::Replied(denied(Rule::S1));
        };
        let digest = digest_shown(request);
        request_in(
            alloc,
            &mut self.tables,
            &self.limits,
            digest.as_ref(),
            &asked,
            traced,
        )
    }

    /// Sends the reply with an index file that was found, row by row, in at most `writes` write
    /// calls, and returns how many it made. If the store fails mid-reply, the reply ends there.
    pub fn stream_index<W: Write>(
        &mut self,
        file: &FoundFile,
        close: bool,
        writer: &mut Counted<W>,
        writes: u64,
    ) -> Result<u64, IndexFault>
        requires room { writer.old.calls + writes < 2 ^ 64 }
        ensures streams { IsStreamed S.Store file.now close result writes
            (tables_of self.old) (tables_of self.new)
            (sink (W.contents writer.old.inner) writer.old)
            (sink (W.contents writer.new.inner) writer.new) }
        ensures leaves { LeavesStream close result writes (is_stopped (tables_of self.old))
            (sink (W.contents writer.old.inner) writer.old)
            (sink (W.contents writer.new.inner) writer.new) }
        ensures looked { Looked S.Store (tables_of self.old) (tables_of self.new) }
        ensures limits { limits_of self.new ≡ limits_of self.old }
    {
        send_file(&mut self.tables, file, close, writer, writes)
    }

    /// The files of the index, each after its path: the config, then each crate's in the order of
    /// the canonical texts. Nothing is changed.
    pub fn export(&mut self, alloc: Global) -> Result<Vec<(String, Vec<u8>)>>
        ensures exported { IsTrueOf S.Store IsIndex result (tables_of self.old)
            (tables_of self.new) }
        ensures looked { Looked S.Store (tables_of self.old) (tables_of self.new) }
        ensures limits { limits_of self.new ≡ limits_of self.old }
        ensures stopped { is_stopped (tables_of self.old) ≡ true → IsErr result }
    {
        export_in(alloc, &mut self.tables)
    }

    /// The first check of the rows that fails; none if all pass, and then the rows are those of a
    /// sound registry. Nothing is changed.
    pub fn audit(&mut self, alloc: Global) -> Result<Option<Check>>
        ensures found { HasCleanDisk (shown S.Store (tables_of self.new)) → IfOk result
            (FailsFirst S.Store (tables_of self.old)) }
        ensures sound { HasCleanDisk (shown S.Store (tables_of self.new)) → IfOk result (λ found.
            (found ≡ None) ↔ AreRegistry (shown S.Store (tables_of self.old)).now.trees) }
        ensures looked { Looked S.Store (tables_of self.old) (tables_of self.new) }
        ensures limits { limits_of self.new ≡ limits_of self.old }
        ensures stopped { is_stopped (tables_of self.old) ≡ true → IsErr result }
    {
        if self.tables.is_stopped() {
            return Err(StoreFault);
        }
        opening_law();
        audit(alloc, &mut self.tables)
    }

    /// The mark of an opening, for a trail that goes on: how many accounts, tokens and publications
    /// it has. Nothing is changed.
    pub fn mark(&mut self, alloc: Global) -> Result<String>
        ensures marked { IsTrueOf S.Store IsMark result (tables_of self.old)
            (tables_of self.new) }
        ensures looked { Looked S.Store (tables_of self.old) (tables_of self.new) }
        ensures limits { limits_of self.new ≡ limits_of self.old }
        ensures stopped { is_stopped (tables_of self.old) ≡ true → IsErr result }
    {
        mark_in(alloc, &mut self.tables)
    }

    /// The store, with what it holds.
    pub fn into_connection(self) -> Connection<S>
        ensures { result ≡ held (tables_of self) }
    {
        let Registry { tables, .. } = self;
        tables.into_connection()
    }
}
