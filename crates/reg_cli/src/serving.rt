//! Streams: one on standard input and output, or connections one after another.

ghost use Rattle.std.specs.Prelude.{◌≡◌, ◌⊎◌, ◌+◌, ◌^◌, ◌<◌, [], IfOk, MatchResult, OnOk, false, true};
ghost use Rattle.sqlite.specs.Files.{over_files};
ghost use Rattle.sqlite.specs.Held.{state};
ghost use Rattle.reg_http.specs.Trails.{tail};
ghost use Rattle.reg_service.specs.Registries.{limits_of, tables_of};
ghost use Rattle.reg_tables.specs.Works.{held, is_stopped};
ghost use Rattle.reg_cli_run.specs.Exits.{EndsWith};
ghost use Rattle.reg_cli_run.specs.Limited.{HasTurns};
ghost use Rattle.reg_cli.specs.Rounds.{ServesMarked, ServesOpenings, ServesRound};
ghost use Rattle.reg_cli.specs.Setups.{IsSetup};

use crate::files::whole_path;
use crate::store::{connect, create, open, open_again};
use crate::using::{FileTask, on_file};
use clap::ArgMatches;
use reg_body::{Counted, Limits};
use reg_cli_line::Exit;
use reg_cli_run::{Listener, Service, mark_opening, read_service, run_pipe, serve_connections};
use reg_http::{Server, Trail};
use reg_service::Registry;
use sqlite::{Alter, Connection, FileStore, Start};
use sqlite_disk::Disk;
use std::fs;
use std::io::Write;

/// The base if none is given.
const BASE: &str = "http://127.0.0.1:8080";

/// The setup in the bytes of a file.
fn setup_of(bytes: Vec<u8>) -> Result<String, Exit>
    ensures { IsSetup bytes.items result }
{
    match String::from_utf8(bytes) {
        Ok(text) => Ok(text),
        Err(_) => Err(Exit {
            status: 2,
            message: "bad setup line",
        }),
    }
}

/// The text of the setup file; empty if there is none.
fn read_setup(rt: &HostRuntime, setup: Option<&str>) -> Result<String, Exit> {
    let Some(file) = setup else {
        return Ok(String::new(rt.alloc()));
    };
    match fs::read(rt, file) {
        Ok(bytes) => setup_of(bytes),
        Err(_) => Err(Exit::STORAGE),
    }
}

/// Runs the setup, if there is one, and serves standard input and output.
pub(crate) fn pipe_on<S: Alter>(
    rt: &HostRuntime,
    registry: &mut Registry<S>,
    setup: Option<&str>,
) -> Exit
    requires turns { HasTurns (limits_of registry.old) }
{
    let setup = match read_setup(rt, setup) {
        Ok(setup) => setup,
        Err(exit) => return exit,
    };
    let mut reader = Counted::new(rt.stdin());
    let mut writer = Counted::new(rt.stdout());
    run_pipe(rt.alloc(), registry, &setup, &mut reader, &mut writer)
}

/// `pipe` over an empty registry in memory.
fn pipe_memory(rt: &HostRuntime, words: &ArgMatches<'_>) -> Result<Exit, Exit> {
    let Ok(conn) = Connection::open_in_memory(rt.alloc()) else {
        return Err(Exit::MEMORY);
    };
    let base = words.get_str("base").unwrap_or(BASE);
    let mut registry = match create(conn, base) {
        Ok(registry) => registry,
        // An in-memory store can only run out of memory.
        Err(Exit { status: 3, .. }) => return Err(Exit::MEMORY),
        Err(exit) => return Err(exit),
    };
    Ok(pipe_on(rt, &mut registry, words.get_str("setup")))
}

/// `pipe`.
pub(crate) fn pipe<F: Start>(rt: &HostRuntime, words: &ArgMatches<'_>, start: F) -> Exit {
    if let Some(file) = words.get_str("db") {
        let setup = words.get_str("setup");
        return on_file(rt, file, Limits::STANDARD, &FileTask::Pipe(setup), start);
    }
    match pipe_memory(rt, words) {
        Ok(exit) | Err(exit) => exit,
    }
}

/// How a run ended, whether done or cut short.
fn exit_of(done: Result<(), Exit>) -> Exit
    ensures { MatchResult done (λ _. EndsWith 0 [] result) (λ exit. result ≡ exit) }
{
    match done {
        Ok(()) => Exit::DONE,
        Err(exit) => exit,
    }
}

/// `init`.
pub(crate) fn init<F: Start>(rt: &HostRuntime, words: &ArgMatches<'_>, start: F) -> Exit {
    let (Some(file), Some(base)) = (words.get_str("db"), words.get_str("base")) else {
        return Exit::BAD_WORDS;
    };
    on_file(rt, file, Limits::STANDARD, &FileTask::Make(base), start)
}

/// Listens, unless it does already, marks the opening in the trail, and serves connections.
fn serve_door<S: Alter, T: Write>(
    rt: &HostRuntime,
    server: &mut Server,
    registry: &mut Registry<S>,
    trail: &mut Trail<T>,
    listener: &mut Listener<'_>,
    left: &mut u64,
) -> Result<(), Exit>
    requires turns { HasTurns (limits_of registry.old) }
    requires room { listener.old.accepted + left.old < 2 ^ 64 }
    ensures counts { listener.new.accepted + left.new ≡ listener.old.accepted + left.old }
    ensures ended { OnOk result ((left.new ≡ 0)
        ⊎ ((is_stopped (tables_of registry.new) ≡ true) × (left.new < left.old))) }
    ensures served { OnOk result ((number : _) × (left.new + number ≡ left.old)
        × ServesMarked S.Store number registry.old registry.new
        (tail (T.contents trail.old.end.inner) trail.old)
        (tail (T.contents trail.new.end.inner) trail.new)) }
{
    listener.open()?;
    mark_opening(rt.alloc(), registry, trail)?;
    serve_connections(rt, server, registry, trail, listener, left)
}

/// Opens the registry of a store, serves connections, and returns how that ended, and the
/// connection.
fn serve_store<S: Alter + Drop, T: Write>(
    rt: &HostRuntime,
    server: &mut Server,
    trail: &mut Trail<T>,
    conn: Connection<S>,
    limits: Limits,
    listener: &mut Listener<'_>,
    left: &mut u64,
) -> Result<(Result<(), Exit>, Connection<S>), Exit>
    requires begun { (state S.Store conn).in_transaction ≡ false }
    requires turns { HasTurns limits }
    requires room { listener.old.accepted + left.old < 2 ^ 64 }
    ensures counts { listener.new.accepted + left.new ≡ listener.old.accepted + left.old }
    ensures served { IfOk result (λ it. OnOk it.0 ((last : _) × (number : _)
        × (it.1 ≡ held (tables_of last)) × (left.new + number ≡ left.old)
        × ((left.new ≡ 0) ⊎ ((is_stopped (tables_of last) ≡ true) × (left.new < left.old)))
        × ServesRound S.Store limits conn last number
        (tail (T.contents trail.old.end.inner) trail.old)
        (tail (T.contents trail.new.end.inner) trail.new))) }
{
    let mut registry = open(rt.alloc(), conn, limits)?;
    let served = serve_door(rt, server, &mut registry, trail, listener, left);
    Ok((served, registry.into_connection()))
}

/// Serves as many connections as asked. Once the registry has stopped, its files are opened again
/// before the next connection; if that fails, the run ends. The trail goes on over all openings.
fn serve_openings<D: Disk + Drop, T: Write>(
    rt: &HostRuntime,
    trail: &mut Trail<T>,
    mut conn: Connection<FileStore<D>>,
    service: &Service,
    listener: &mut Listener<'_>,
) -> Result<(), Exit>
    requires begun { conn.in_transaction ≡ false }
    requires none { listener.old.accepted ≡ 0 }
    ensures served { OnOk result (listener.new.accepted ≡ service.now.connections) }
    ensures rounds { OnOk result (ServesOpenings over_files
        (record Limits.STANDARD { replies = service.now.replies }) conn
        (tail (T.contents trail.old.end.inner) trail.old) service.now.connections
        (tail (T.contents trail.new.end.inner) trail.new)) }
{
    let Ok(mut server) = Server::new(rt.alloc()) else {
        return Err(Exit::MEMORY);
    };
    let limits = service.limits();
    let mut left = service.connections;
    'openings: loop {
        let (served, back) = serve_store(
            rt,
            &mut server,
            trail,
            conn,
            limits,
            listener,
            &mut left,
        )?;
        if let Err(exit) = served {
            let _ = back.close();
            return Err(exit);
        }
        if left == 0 {
            let _ = back.close();
            return Ok(());
        }
        conn = open_again(rt, back)?;
    }
}

/// Serves the registry of a file, with one trail.
fn serve_file<F: Start>(
    rt: &HostRuntime,
    file: &str,
    service: &Service,
    listener: &mut Listener<'_>,
    start: F,
) -> Result<(), Exit>
    requires { listener.old.accepted ≡ 0 }
    ensures served { OnOk result (listener.new.accepted ≡ service.now.connections) }
{
    let file = whole_path(rt, file)?;
    let conn = connect(rt, &file, start)?;
    let mut trail = Trail::new(rt.stdout(), service.writes());
    serve_openings(rt, &mut trail, conn, service, listener)
}

/// `serve`.
pub(crate) fn serve<F: Start>(rt: &HostRuntime, words: &ArgMatches<'_>, start: F) -> Exit {
    let (Some(service), Some(file)) = (read_service(words), words.get_str("db")) else {
        return Exit::BAD_WORDS;
    };
    let mut listener = Listener::at(rt, service.port, words.get_str("admin"));
    let done = serve_file(rt, file, &service, &mut listener, start);
    listener.close();
    exit_of(done)
}

/// `audit`.
pub(crate) fn check<F: Start>(rt: &HostRuntime, words: &ArgMatches<'_>, start: F) -> Exit {
    match words.get_str("db") {
        Some(file) => on_file(rt, file, Limits::STANDARD, &FileTask::Check, start),
        None => Exit::BAD_WORDS,
    }
}
