//! The table of crates, one statement per function.

ghost use Rattle.sqlite.specs.Held.{state};
ghost use Rattle.reg_tables_schema.specs.Changes.{Adds};
ghost use Rattle.reg_tables_schema.specs.Places.{crates_tree};
ghost use Rattle.reg_tables_schema.specs.States.{IsReady};
ghost use Rattle.reg_tables_schema.specs.Statements.{Writes};
ghost use Rattle.reg_tables_sql.specs.Answers.{Finds, Lists};
ghost use Rattle.reg_tables_sql.specs.Counts.{IsCount, IsLastId};
ghost use Rattle.reg_tables_sql.specs.Crates.{AreCrates, AreCratesById, IsCrateOfCanon, IsCrateThere, crate_row};

use crate::statements::{Result, has_row, select_list, select_one, select_only, write};
use sqlite::{Alter, Connection, params};
use std::alloc::Global;

/// A crate as stored.
#[derive(Debug, Drop)]
pub struct Crate {
    pub id: u32,
    pub canon: String,
    pub name: String,
}

const INSERT_TEXT: &str = "INSERT INTO crates (id, canon, name) VALUES (?1, ?2, ?3)";

/// Adds a crate.
pub fn insert<S: Alter>(conn: &mut Connection<S>, id: u32, canon: &str, name: &str) -> Result<()>
    requires { IsReady (state S.Store conn.old) }
    ensures { Writes S.Store conn.old conn.new result
        (Adds crates_tree (crate_row id canon.now name.now)) }
{
    write(conn, INSERT_TEXT, params![id, canon, name])
}

const BY_CANON_TEXT: &str = "SELECT id, canon, name FROM crates WHERE canon = ?1";

/// The crate with this canonical name, if there is one.
pub fn by_canon<S: Alter>(conn: &mut Connection<S>, canon: &str) -> Result<Option<Crate>>
    requires { IsReady (state S.Store conn.old) }
    ensures { Finds S.Store conn.old conn.new result (IsCrateOfCanon canon.now) }
{
    select_one(conn, BY_CANON_TEXT, params![canon])
}

const HAS_ID_TEXT: &str = "SELECT id FROM crates WHERE id = ?1";

/// Whether there is a crate with this id.
pub fn has_id<S: Alter>(conn: &mut Connection<S>, id: u32) -> Result<bool>
    requires { IsReady (state S.Store conn.old) }
    ensures { Finds S.Store conn.old conn.new result (IsCrateThere id) }
{
    has_row(conn, HAS_ID_TEXT, params![id])
}

const ALL_TEXT: &str = "SELECT id, canon, name FROM crates ORDER BY canon";

/// All crates, by canonical name.
pub fn all<S: Alter>(alloc: Global, conn: &mut Connection<S>) -> Result<Vec<Crate>>
    requires { IsReady (state S.Store conn.old) }
    ensures { Lists S.Store conn.old conn.new result AreCrates }
{
    select_list(alloc, conn, ALL_TEXT, &[])
}

const ALL_BY_ID_TEXT: &str = "SELECT id, canon, name FROM crates ORDER BY id";

/// All crates, by id.
pub fn all_by_id<S: Alter>(alloc: Global, conn: &mut Connection<S>) -> Result<Vec<Crate>>
    requires { IsReady (state S.Store conn.old) }
    ensures { Lists S.Store conn.old conn.new result AreCratesById }
{
    select_list(alloc, conn, ALL_BY_ID_TEXT, &[])
}

const LAST_ID_TEXT: &str = "SELECT id FROM crates ORDER BY id DESC LIMIT 1";

/// The greatest crate id, if there is one.
pub fn last_id<S: Alter>(conn: &mut Connection<S>) -> Result<Option<u32>>
    requires { IsReady (state S.Store conn.old) }
    ensures { Finds S.Store conn.old conn.new result (IsLastId crates_tree) }
{
    select_one(conn, LAST_ID_TEXT, &[])
}

const COUNT_TEXT: &str = "SELECT count(*) FROM crates";

/// How many crates there are, up to SQL's greatest count.
pub fn count<S: Alter>(conn: &mut Connection<S>) -> Result<u64>
    requires { IsReady (state S.Store conn.old) }
    ensures { Finds S.Store conn.old conn.new result (IsCount crates_tree) }
{
    select_only::<u64, S>(conn, COUNT_TEXT, &[])
}
