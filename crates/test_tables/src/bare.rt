//! Lines over a connection, and rows that are planted by statements.

ghost use Rattle.sqlite.specs.Held.{state};
ghost use Rattle.std.specs.Prelude.{◌≡◌, false};

use crate::fault::Fault;
use crate::old_store::make_old;
use crate::records::list;
use crate::script::{BASE, FILLED, check_text, compare, no_arrow, play_over};
use reg_audit::audit;
use reg_tables::{StoreFault, Tables};
use reg_tables_schema::{MakeFault, SchemaVersion, begin, edition_of, finish, make_tables, undo};
use sqlite::{Alter, Connection, Error, Row, params};
use std::alloc::{AllocError, Global};

fn made(made: Result<(), MakeFault>) -> &'static str {
    match made {
        Ok(()) => "done",
        Err(MakeFault::UnknownSchema) => "unknown",
        Err(MakeFault::Storage) => "fault",
    }
}

fn run<T: Drop>(run: Result<T, Error>) -> &'static str {
    match run {
        Ok(_) => "done",
        Err(_) => "fault",
    }
}

fn rows_text(alloc: Global, rows: Result<Vec<Row>, Error>) -> Result<String, AllocError> {
    match rows {
        Ok(rows) => list(alloc, &rows),
        Err(_) => String::from_str(alloc, "fault"),
    }
}

fn yes(is: bool) -> &'static str {
    if is { "yes" } else { "no" }
}

/// Runs a statement, or sets the stem of every version.
fn plant<S: Alter>(conn: &mut Connection<S>, statement: &str) -> Result<usize, Error> {
    match statement.strip_prefix("stem ") {
        Some(stem) => conn.execute("UPDATE versions SET stem = ?1", params![stem.as_bytes()]),
        None => conn.execute(statement, &[]),
    }
}

/// A line that makes the tables or reads, or a statement.
fn by_statement<S: Alter>(
    alloc: Global,
    conn: &mut Connection<S>,
    line: &str,
) -> Result<String, AllocError> {
    if let Some(base) = line.strip_prefix("make ") {
        return String::from_str(alloc, made(make_tables(conn, base)));
    }
    if let Some(text) = line.strip_prefix("rows ") {
        return rows_text(alloc, conn.query_all(text, &[]));
    }
    String::from_str(alloc, run(plant(conn, line)))
}

fn by_word<S: Alter>(
    alloc: Global,
    conn: &mut Connection<S>,
    line: &str,
) -> Result<Option<&'static str>, AllocError> {
    Ok(Some(match line {
        "ours" => yes(edition_of(alloc, conn.schema())? == Some(SchemaVersion::Second)),
        "resting" => yes(conn.is_autocommit()),
        "make-old" => run(make_old(conn)),
        "begin" => run(begin(conn)),
        "finish" => run(finish(conn)),
        "undo" => {
            undo(conn);
            "done"
        }
        _ => return Ok(None),
    }))
}

/// What a word on the tables or a statement is answered.
pub fn by_line<S: Alter>(
    alloc: Global,
    conn: &mut Connection<S>,
    line: &str,
) -> Result<String, AllocError> {
    match by_word(alloc, conn, line)? {
        Some(found) => String::from_str(alloc, found),
        None => by_statement(alloc, conn, line),
    }
}

/// Tables are taken over, and given back.
fn adopted<S: Alter>(alloc: Global, conn: Connection<S>) -> (Connection<S>, &'static str) {
    if !conn.is_autocommit() {
        return (conn, "a transaction is open");
    }
    match Tables::adopt(alloc, conn) {
        Ok(tables) => (tables.into_connection(), "done"),
        Err((conn, fault)) => (conn, made(Err(fault))),
    }
}

/// Tables are taken over, brought to schema 2, and given back: whether they were of schema 1.
fn migrated<S: Alter>(alloc: Global, conn: Connection<S>) -> (Connection<S>, &'static str) {
    if !conn.is_autocommit() {
        return (conn, "a transaction is open");
    }
    match Tables::adopt(alloc, conn) {
        Ok(mut tables) => {
            let found = match tables.migrate() {
                Ok(done) => yes(done),
                Err(StoreFault) => "fault",
            };
            (tables.into_connection(), found)
        }
        Err((conn, fault)) => (conn, made(Err(fault))),
    }
}

/// Tables are made, and given back.
fn tables_made<S: Alter>(conn: Connection<S>, base: &str) -> (Connection<S>, &'static str) {
    if !conn.is_autocommit() {
        return (conn, "a transaction is open");
    }
    match Tables::make(conn, base) {
        Ok(tables) => (tables.into_connection(), "done"),
        Err((conn, fault)) => (conn, made(Err(fault))),
    }
}

/// The connection after a line, and the line's answer.
fn answered<S: Alter + Drop>(
    alloc: Global,
    mut conn: Connection<S>,
    line: &str,
) -> (Connection<S>, Result<String, AllocError>) {
    if line == "adopt" {
        let (conn, found) = adopted(alloc, conn);
        return (conn, String::from_str(alloc, found));
    }
    if line == "migrate" {
        let (conn, found) = migrated(alloc, conn);
        return (conn, String::from_str(alloc, found));
    }
    if let Some(base) = line.strip_prefix("make-tables ") {
        let (conn, found) = tables_made(conn, base);
        return (conn, String::from_str(alloc, found));
    }
    let found = by_line(alloc, &mut conn, line);
    (conn, found)
}

/// The line and what was found, where it is not what the line says.
fn broken_by(
    alloc: Global,
    line: &str,
    want: &str,
    found: Result<String, AllocError>,
) -> Result<Option<String>, AllocError> {
    compare(alloc, line, want, &found?)
}

/// The connection after a line, and the line if it is answered otherwise.
fn played<S: Alter + Drop>(
    alloc: Global,
    conn: Connection<S>,
    line: &str,
) -> (Connection<S>, Result<Option<String>, AllocError>) {
    let Some((call, want)) = line.split_once(" -> ") else {
        return (conn, no_arrow(alloc, line));
    };
    let (conn, found) = answered(alloc, conn, call);
    (conn, broken_by(alloc, line, want, found))
}

fn play_each<S: Alter + Drop>(
    alloc: Global,
    mut conn: Connection<S>,
    script: &str,
) -> Result<Option<String>, AllocError> {
    for line in script.split('\n') {
        let (next, broken) = played(alloc, conn, line);
        conn = next;
        if let Some(broken) = broken? {
            return Ok(Some(broken));
        }
    }
    Ok(None)
}

/// Plays lines over a connection to an empty store in memory: words on its tables, or statements.
/// The first line that is answered otherwise.
pub fn over_a_connection(alloc: Global, script: &str) -> Result<Option<String>, AllocError> {
    play_each(alloc, Connection::open_in_memory(alloc)?, script)
}

fn plant_each<S: Alter>(conn: &mut Connection<S>, statements: &str) -> Result<(), Fault> {
    for statement in statements.split("; ") {
        plant(conn, statement)?;
    }
    Ok(())
}

/// What the checks on opening find.
fn checks_of<S: Alter + Drop>(
    alloc: Global,
    conn: Connection<S>,
) -> Result<&'static str, StoreFault> {
    if !conn.is_autocommit() {
        return Ok("a transaction is open");
    }
    match Tables::adopt(alloc, conn) {
        Ok(mut tables) => Ok(check_text(audit(alloc, &mut tables)?)),
        Err((_conn, fault)) => Ok(made(Err(fault))),
    }
}

/// What they find once these statements were run.
fn checks_after<S: Alter + Drop>(
    alloc: Global,
    mut conn: Connection<S>,
    statements: &str,
) -> Result<&'static str, Fault> {
    plant_each(&mut conn, statements)?;
    Ok(checks_of(alloc, conn)?)
}

/// What they find on a filled registry.
fn found<S: Alter + Drop>(
    alloc: Global,
    conn: Connection<S>,
    statements: &str,
) -> Result<&'static str, Fault> {
    if !conn.is_autocommit() {
        return Err(Fault::NotMade);
    }
    match Tables::make(conn, BASE) {
        Ok(mut tables) => match play_over(alloc, &mut tables, FILLED)? {
            None => checks_after(alloc, tables.into_connection(), statements),
            Some(_line) => Ok("not filled"),
        },
        Err((_conn, _fault)) => Err(Fault::NotMade),
    }
}

fn check(alloc: Global, line: &str) -> Result<Option<String>, Fault> {
    let Some((statements, want)) = line.split_once(" -> ") else {
        return Ok(no_arrow(alloc, line)?);
    };
    let found = found(alloc, Connection::open_in_memory(alloc)?, statements)?;
    Ok(compare(alloc, line, want, found)?)
}

/// Each line is statements, run on a filled registry of its own, an arrow and the check that then
/// fails.
/// The first line where another one fails.
pub fn check_each(alloc: Global, script: &str) -> Result<Option<String>, Fault> {
    for line in script.split('\n') {
        let broken = check(alloc, line)?;
        if broken.is_some() {
            return Ok(broken);
        }
    }
    Ok(None)
}
