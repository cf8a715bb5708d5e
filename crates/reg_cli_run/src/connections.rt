//! Connections and messages, served one after another.

ghost use Rattle.std.specs.Prelude.{◌≡◌, ◌⊎◌, ◌+◌, ◌^◌, ◌<◌, ◌∷◌, [], true, codes, IfErr, IfOk, IsTrue, MatchResult, OnOk};
ghost use Rattle.sqlite.specs.State.{HasCleanDisk};
ghost use Rattle.reg_http.specs.Trails.{tail};
ghost use Rattle.reg_service.specs.Registries.{limits_of, tables_of};
ghost use Rattle.reg_tables.specs.Works.{is_stopped, shown};
ghost use Rattle.reg_cli_run.specs.Exits.{EndsWith};
ghost use Rattle.reg_cli_run.specs.Limited.{HasTurns};
ghost use Rattle.reg_cli_run.specs.Marking.{MarksOpening};
ghost use Rattle.reg_cli_run.specs.Visits.{IsServedSo, Logs, ServesThenTries, ServesVisit};
ghost use Rattle.reg_cli_run.specs.Visits.Passing.{Went};

use crate::door::{Caller, Door};
use crate::message::{MessageReply, hear_message, send_reply};
use crate::ordering::OrderFault;
use reg_body::Counted;
use reg_cli_line::Exit;
use reg_http::{Server, Trail};
use reg_model::laws::telling_law;
use reg_service::Registry;
use reg_service::laws::{history_law, joined_law, tried_law};
use sqlite::Alter;
use std::alloc::Global;
use std::io::Write;

/// Lets a caller go.
fn leave<D: Door>(door: &mut D, reader: Counted<D::Reader>, writer: Counted<D::Writer>)
    ensures counts { D.accepted door.new ≡ D.accepted door.old }
    ensures went { Logs (D.log door.old) (D.log door.new)
        (Went (D.Reader.remaining reader.inner) (D.Writer.contents writer.inner)
        reader.failures writer.failures ∷ []) }
{
    let failed_reads = reader.failures();
    let failed_writes = writer.failures();
    door.leave(
        reader.into_inner(),
        writer.into_inner(),
        failed_reads,
        failed_writes,
    );
}

/// Serves one connection. A stream that fails ends its connection alone.
fn serve_connection<S: Alter, T: Write, D: Door>(
    alloc: Global,
    server: &mut Server,
    registry: &mut Registry<S>,
    trail: &mut Trail<T>,
    door: &mut D,
    reader: D::Reader,
    writer: D::Writer,
)
    requires turns { HasTurns (limits_of registry.old) }
    ensures counts { D.accepted door.new ≡ D.accepted door.old }
    ensures serves { ServesVisit S.Store Caller.Client (D.Reader.remaining reader)
        (D.Writer.contents writer) (D.log door.old) (D.log door.new) registry.old registry.new
        (tail (T.contents trail.old.end.inner) trail.old)
        (tail (T.contents trail.new.end.inner) trail.new) }
{
    let mut reader = Counted::new(reader);
    let mut writer = Counted::new(writer);
    let _ = server.serve_traced(alloc, registry, &mut reader, &mut writer, trail);
    leave(door, reader, writer);
}

/// Waits until the caller goes, if the reply was that the server pauses.
fn hold_if_paused<D: Door>(
    rt: &HostRuntime,
    door: &mut D,
    reader: &D::Reader,
    reply: &Result<MessageReply, OrderFault>,
)
    ensures counts { D.accepted door.new ≡ D.accepted door.old }
    ensures stays { D.log door.new ≡ D.log door.old }
{
    if matches!(reply, Ok(MessageReply::Paused)) {
        door.hold(rt, reader);
    }
}

/// Serves one message: reads it, does what it asks for, tells what it changed, and replies.
fn serve_message<S: Alter, T: Write, D: Door>(
    rt: &HostRuntime,
    registry: &mut Registry<S>,
    trail: &mut Trail<T>,
    door: &mut D,
    reader: D::Reader,
    writer: D::Writer,
)
    ensures counts { D.accepted door.new ≡ D.accepted door.old }
    ensures serves { ServesVisit S.Store Caller.Admin (D.Reader.remaining reader)
        (D.Writer.contents writer) (D.log door.old) (D.log door.new) registry.old registry.new
        (tail (T.contents trail.old.end.inner) trail.old)
        (tail (T.contents trail.new.end.inner) trail.new) }
{
    let mut reader = Counted::new(reader);
    let mut writer = Counted::new(writer);
    let reply = hear_message(rt.alloc(), registry, trail, &mut reader);
    let _ = send_reply(&mut writer, &reply);
    hold_if_paused(rt, door, reader.inner(), &reply);
    leave(door, reader, writer);
}

/// Tells the trail, if one is kept, that a registry was opened, and how much it has, so that a
/// change whose line was lost shows as a gap.
pub fn mark_opening<S: Alter, T: Write>(
    alloc: Global,
    registry: &mut Registry<S>,
    trail: &mut Trail<T>,
) -> Result<(), Exit>
    ensures { OnOk result (MarksOpening S.Store registry.old registry.new
        (tail (T.contents trail.old.end.inner) trail.old)
        (tail (T.contents trail.new.end.inner) trail.new)) }
{
    if !trail.is_open() {
        return Ok(());
    }
    let Ok(mark) = registry.mark(alloc) else {
        return Err(Exit::STORAGE);
    };
    trail.tell(Some(mark));
    Ok(())
}

/// Serves the next caller, and returns whether the registry has stopped. One that hung up before it
/// was accepted counts as served.
fn serve_next<S: Alter, T: Write, D: Door>(
    rt: &HostRuntime,
    server: &mut Server,
    registry: &mut Registry<S>,
    trail: &mut Trail<T>,
    door: &mut D,
) -> Result<bool, Exit>
    requires turns { HasTurns (limits_of registry.old) }
    requires room { D.accepted door.old + 1 < 2 ^ 64 }
    ensures counts { MatchResult result (λ _. D.accepted door.new ≡ D.accepted door.old + 1)
        (λ exit. EndsWith 3 (codes "listen fault") exit
        × (D.accepted door.new ≡ D.accepted door.old) × (D.log door.new ≡ D.log door.old)
        × (registry.new ≡ registry.old) × (trail.new ≡ trail.old)) }
    ensures told { IfOk result (λ stopped. stopped ≡ is_stopped (tables_of registry.new)) }
    ensures known { HasCleanDisk (shown S.Store (tables_of registry.new)) → OnOk result
        (IsTrue (shown S.Store (tables_of registry.new)).is_open
        ⊎ (is_stopped (tables_of registry.new) ≡ true)) }
    ensures serves { OnOk result (ServesThenTries S.Store 1 (D.log door.old) (D.log door.new)
        registry.old registry.new (tail (T.contents trail.old.end.inner) trail.old)
        (tail (T.contents trail.new.end.inner) trail.new)) }
{
    history_law::<S>();
    match door.accept(rt)? {
        Some((Caller::Client, reader, writer)) => {
            serve_connection(rt.alloc(), server, registry, trail, door, reader, writer);
        }
        Some((Caller::Admin, reader, writer)) => {
            serve_message(rt, registry, trail, door, reader, writer);
        }
        None => {}
    }
    Ok(registry.is_stopped())
}

/// Serves callers, one after another, until `left` are served or the registry has stopped: then it
/// answers only S1, and its store has to be opened again.
pub fn serve_connections<S: Alter, T: Write, D: Door>(
    rt: &HostRuntime,
    server: &mut Server,
    registry: &mut Registry<S>,
    trail: &mut Trail<T>,
    door: &mut D,
    left: &mut u64,
) -> Result<(), Exit>
    requires turns { HasTurns (limits_of registry.old) }
    requires room { D.accepted door.old + left.old < 2 ^ 64 }
    ensures counts { D.accepted door.new + left.new ≡ D.accepted door.old + left.old }
    ensures ok { OnOk result ((left.new ≡ 0)
        ⊎ ((is_stopped (tables_of registry.new) ≡ true) × (left.new < left.old))) }
    ensures err { IfErr result (EndsWith 3 (codes "listen fault")) }
    ensures serves { (number : _) × (left.new + number ≡ left.old)
        × IsServedSo S.Store number (D.log door.old) (D.log door.new) registry.old registry.new
        (tail (T.contents trail.old.end.inner) trail.old)
        (tail (T.contents trail.new.end.inner) trail.new) }
{
    history_law::<S>();
    joined_law::<S>();
    tried_law::<S>();
    telling_law();
    'connections: while *left > 0 {
        let stopped = serve_next(rt, server, registry, trail, door)?;
        *left -= 1;
        if stopped {
            return Ok(());
        }
    }
    Ok(())
}
