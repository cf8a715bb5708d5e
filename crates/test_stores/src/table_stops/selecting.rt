//! Texts that only read, in a transaction.

use crate::table_stops::fault::Fault;
use crate::table_stops::playing::{fill, rows_over};
use sqlite::{Alter, Connection};
use std::alloc::Global;

const TEXTS_THAT_READ: &str = "logins -> 1:ada:Ada;2:bob:-;3:cy:-;
commit -> done

id-of bob -> 2;
commit -> done

id-of carol -> none
commit -> done";

/// The rows of a store once a script was played over the prepared registry in it.
fn rows_once_played<S: Alter + Drop>(
    alloc: Global,
    conn: Connection<S>,
    script: &str,
) -> Result<Option<String>, Fault> {
    let (conn, filled) = fill(alloc, conn, script);
    filled?;
    let (_conn, rows) = rows_over(alloc, conn);
    rows
}

fn rows_in_memory(alloc: Global, script: &str) -> Result<Option<String>, Fault> {
    let conn = Connection::open_in_memory(alloc)?;
    rows_once_played(alloc, conn, script)
}

/// Plays a script that leaves the rows of the prepared registry as they are.
fn reads(alloc: Global, script: &str) -> Result<(), Fault> {
    let before = rows_in_memory(alloc, "")?;
    let after = rows_in_memory(alloc, script)?;
    if after.is_some() && after == before {
        return Ok(());
    }
    Err(Fault::OtherRows)
}

#[test]
fn texts_that_read(rt: HostRuntime) -> Result<(), Fault> {
    reads(rt.alloc(), TEXTS_THAT_READ)
}
