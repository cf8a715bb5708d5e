//! What is done with the registry of a file.

ghost use Rattle.std.specs.Prelude.{◌≡◌, IfOk, false};
ghost use Rattle.sqlite.specs.Held.{state};
ghost use Rattle.sqlite.specs.State.{HasCleanDisk};
ghost use Rattle.reg_tables.specs.Works.{shown};
ghost use Rattle.reg_service.specs.Registries.{limits_of, tables_of};
ghost use Rattle.reg_cli_run.specs.Limited.{HasTurns};
ghost use Rattle.reg_cli.specs.Openings.{BeginsOn};
ghost use Rattle.reg_cli.specs.Tasks.{EndsUse, IsFitUse, IsUsed};

use crate::administering::{AdminTask, do_task};
use crate::files::whole_path;
use crate::serving::pipe_on;
use crate::store::{connect, create, open};
use reg_body::{Counted, Limits};
use reg_cli_line::Exit;
use reg_cli_run::print;
use reg_service::Registry;
use sqlite::{Alter, Connection, Start};
use std::alloc::Global;
use std::io;

/// What is done with the registry of a file.
#[derive(Clone, Copy)]
pub(crate) enum FileTask<'a> {
    /// It is made, empty, with this base.
    Make(&'a str),
    /// Nothing more than opening, which checks it.
    Check,
    AdminTask(&'a AdminTask<'a>),
    /// A stream on standard input and output, after the setup in a file.
    Pipe(Option<&'a str>),
}

fn use_it<S: Alter>(rt: &HostRuntime, registry: &mut Registry<S>, wanted: &FileTask<'_>) -> Exit
    requires turns { HasTurns (limits_of registry.old) }
    requires fit { IsFitUse wanted.now }
    ensures { IsUsed S.Store (limits_of registry.old) wanted.now (tables_of registry.old)
        (tables_of registry.new) result }
{
    match wanted {
        FileTask::Make(_) | FileTask::Check => Exit::DONE,
        FileTask::AdminTask(task) => do_task(rt, registry, &mut Counted::new(io::writer(rt)), task),
        FileTask::Pipe(setup) => pipe_on(rt, registry, *setup),
    }
}

/// Opens the registry of a store, or makes it there.
fn begin<S: Alter + Drop>(
    alloc: Global,
    conn: Connection<S>,
    limits: Limits,
    wanted: &FileTask<'_>,
) -> Result<Registry<S>, Exit>
    requires begun { (state S.Store conn).in_transaction ≡ false }
    requires turns { HasTurns limits }
    ensures turns { IfOk result (λ r. HasTurns (limits_of r)) }
    ensures clean { IfOk result (λ r. HasCleanDisk (shown S.Store (tables_of r))
        → HasCleanDisk (state S.Store conn)) }
    ensures begins { IfOk result (BeginsOn S.Store conn wanted.now) }
{
    match wanted {
        FileTask::Make(base) => create(conn, base),
        _ => open(alloc, conn, limits),
    }
}

/// Uses the registry of a store, and returns the connection.
fn use_store<S: Alter + Drop>(
    rt: &HostRuntime,
    conn: Connection<S>,
    limits: Limits,
    wanted: &FileTask<'_>,
) -> Result<(Exit, Connection<S>), Exit>
    requires begun { (state S.Store conn).in_transaction ≡ false }
    requires turns { HasTurns limits }
    requires fit { IsFitUse wanted.now }
    ensures used { IfOk result (λ it. (old new : _) × BeginsOn S.Store conn wanted.now old
        × (HasCleanDisk (shown S.Store (tables_of old)) → HasCleanDisk (state S.Store conn))
        × IsUsed S.Store (limits_of old) wanted.now (tables_of old) (tables_of new) it.0) }
{
    let mut registry = begin(rt.alloc(), conn, limits, wanted)?;
    let exit = use_it(rt, &mut registry, wanted);
    Ok((exit, registry.into_connection()))
}

/// The end of a run, once the file is closed, which moves the log into the file. What was
/// acknowledged is kept even if that fails; only a check has to report it.
fn exit_of_use(rt: &HostRuntime, wanted: &FileTask<'_>, exit: Exit, is_closed: bool) -> Exit
    ensures { EndsUse wanted.now is_closed exit result }
{
    match wanted {
        FileTask::Check if is_closed => print(rt, "ok\n"),
        FileTask::Check => Exit::STORAGE,
        _ => exit,
    }
}

/// Uses the registry of a file, by its whole path.
fn use_file<F: Start>(
    rt: &HostRuntime,
    file: &str,
    limits: Limits,
    wanted: &FileTask<'_>,
    start: F,
) -> Result<Exit, Exit>
    requires turns { HasTurns limits }
    requires fit { IsFitUse wanted.now }
{
    let conn = connect(rt, file, start)?;
    let (exit, conn) = use_store(rt, conn, limits, wanted)?;
    let is_closed = conn.close().is_ok();
    Ok(exit_of_use(rt, wanted, exit, is_closed))
}

/// Uses the registry of a file, by its whole path.
pub(crate) fn on_whole_file<F: Start>(
    rt: &HostRuntime,
    file: &str,
    limits: Limits,
    wanted: &FileTask<'_>,
    start: F,
) -> Exit
    requires turns { HasTurns limits }
    requires fit { IsFitUse wanted.now }
{
    match use_file(rt, file, limits, wanted, start) {
        Ok(exit) | Err(exit) => exit,
    }
}

/// Uses the registry of a file.
pub(crate) fn on_file<F: Start>(
    rt: &HostRuntime,
    file: &str,
    limits: Limits,
    wanted: &FileTask<'_>,
    start: F,
) -> Exit
    requires turns { HasTurns limits }
    requires fit { IsFitUse wanted.now }
{
    match whole_path(rt, file) {
        Ok(file) => on_whole_file(rt, &file, limits, wanted, start),
        Err(exit) => exit,
    }
}
