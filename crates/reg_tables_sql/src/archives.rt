//! The table of archives, one statement per function.

ghost use Rattle.std.specs.Prelude.{◌<◌, ◌^◌};
ghost use Rattle.sqlite.specs.Held.{state};
ghost use Rattle.reg_tables_schema.specs.Changes.{Adds};
ghost use Rattle.reg_tables_schema.specs.Places.{archives_tree};
ghost use Rattle.reg_tables_schema.specs.States.{IsReady};
ghost use Rattle.reg_tables_schema.specs.Statements.{Writes};
ghost use Rattle.reg_tables_sql.specs.Answers.{Finds};
ghost use Rattle.reg_tables_sql.specs.Archives.{IsArchiveOf, IsArchiveWithId, archive_row};
ghost use Rattle.reg_tables_sql.specs.Counts.{IsFirstId};

use crate::statements::{Result, select_one, write};
use sqlite::{Alter, Connection, params};

/// The archive of a version.
#[derive(Debug, Drop)]
pub struct Archive {
    pub version: u64,
    pub bytes: Vec<u8>,
}

const INSERT_TEXT: &str = "INSERT INTO archives (version, bytes) VALUES (?1, ?2)";

/// Adds the archive of a version. SQL keeps ids below 2^63.
pub fn insert<S: Alter>(conn: &mut Connection<S>, version: u64, bytes: &[u8]) -> Result<()>
    requires ready { IsReady (state S.Store conn.old) }
    requires small { version < 2 ^ 63 }
    ensures { Writes S.Store conn.old conn.new result
        (Adds archives_tree (archive_row version bytes.now)) }
{
    write(conn, INSERT_TEXT, params![version as i64, bytes])
}

const OF_VERSION_TEXT: &str =
    "SELECT a.bytes FROM versions v JOIN archives a ON a.version = v.id WHERE v.crate = ?1 AND \
    v.release = ?2 AND v.vers = ?3";

/// The archive of a version of a crate, by its release and its text.
pub fn of_version<S: Alter>(
    conn: &mut Connection<S>,
    crate_id: u32,
    release: &str,
    vers: &str,
) -> Result<Option<Vec<u8>>>
    requires { IsReady (state S.Store conn.old) }
    ensures { Finds S.Store conn.old conn.new result (IsArchiveOf crate_id release.now vers.now) }
{
    let text = OF_VERSION_TEXT;
    select_one(conn, text, params![crate_id, release, vers])
}

const BY_ID_TEXT: &str = "SELECT version, bytes FROM archives WHERE version = ?1";

/// The archive of the version with this id.
pub fn by_id<S: Alter>(conn: &mut Connection<S>, version: u64) -> Result<Option<Archive>>
    requires ready { IsReady (state S.Store conn.old) }
    requires small { version < 2 ^ 63 }
    ensures { Finds S.Store conn.old conn.new result (IsArchiveWithId version) }
{
    select_one(conn, BY_ID_TEXT, params![version as i64])
}

const FIRST_ID_TEXT: &str = "SELECT version FROM archives ORDER BY version LIMIT 1";

/// The first id of a version that has an archive, if there is one. An id that is NULL would be the
/// first, and is an error.
pub fn first_id<S: Alter>(conn: &mut Connection<S>) -> Result<Option<u64>>
    requires { IsReady (state S.Store conn.old) }
    ensures { Finds S.Store conn.old conn.new result (IsFirstId archives_tree) }
{
    select_one(conn, FIRST_ID_TEXT, &[])
}
