//! Filling tables, and finding their rows again.

ghost use Rattle.reg_tables.specs.Works.{AreOurs};

use crate::table_stops::calls::PREPARED;
use crate::table_stops::fault::Fault;
use reg_tables::{SchemaVersion, Tables};
use sqlite::{Alter, Connection};
use std::alloc::Global;
use test_tables::{BASE, play_over, rows_text};

/// Plays a script, if there is one.
fn plays<S: Alter>(alloc: Global, tables: &mut Tables<S>, script: &str) -> Result<(), Fault>
    requires { AreOurs S.Store tables.old }
    ensures { AreOurs S.Store tables.new }
{
    if script.is_empty() {
        return Ok(());
    }
    match play_over(alloc, tables, script)? {
        None => Ok(()),
        Some(line) => Err(Fault::Line(line)),
    }
}

fn prepare<S: Alter>(alloc: Global, tables: &mut Tables<S>, script: &str) -> Result<(), Fault>
    requires { AreOurs S.Store tables.old }
{
    plays(alloc, tables, PREPARED)?;
    plays(alloc, tables, script)
}

/// Makes the prepared registry over a connection, and plays a script over it if there is one.
pub(crate) fn fill<S: Alter + Drop>(
    alloc: Global,
    conn: Connection<S>,
    script: &str,
) -> (Connection<S>, Result<(), Fault>) {
    if !conn.is_autocommit() {
        return (conn, Err(Fault::NotMade));
    }
    match Tables::make(conn, BASE) {
        Ok(mut tables) => {
            let prepared = prepare(alloc, &mut tables, script);
            (tables.into_connection(), prepared)
        }
        Err((conn, _fault)) => (conn, Err(Fault::NotMade)),
    }
}

/// The words before the rows, by the schema that the tables are of.
pub(crate) fn schema_words(edition: SchemaVersion) -> &'static str {
    match edition {
        SchemaVersion::First => "schema 1: ",
        SchemaVersion::Second => "schema 2: ",
    }
}

/// The schema and the rows of tables.
fn schema_and_rows<S: Alter>(alloc: Global, tables: &mut Tables<S>) -> Result<Option<String>, Fault>
    requires { AreOurs S.Store tables.old }
{
    let words = schema_words(tables.edition());
    let rows = rows_text(alloc, tables)?;
    Ok(Some(format!(in alloc; "{words}{rows}")?))
}

/// The schema and the rows of tables that were made before; none where nothing was made.
pub(crate) fn rows_over<S: Alter + Drop>(
    alloc: Global,
    conn: Connection<S>,
) -> (Connection<S>, Result<Option<String>, Fault>) {
    if conn.schema().tables.is_empty() {
        return (conn, Ok(None));
    }
    if !conn.is_autocommit() {
        return (conn, Err(Fault::NotAdopted));
    }
    match Tables::adopt(alloc, conn) {
        Ok(mut tables) => {
            let found = schema_and_rows(alloc, &mut tables);
            (tables.into_connection(), found)
        }
        Err((conn, _fault)) => (conn, Err(Fault::NotAdopted)),
    }
}
