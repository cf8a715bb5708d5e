//! The table of reserved names, one statement per function.

ghost use Rattle.sqlite.specs.Held.{state};
ghost use Rattle.reg_tables_schema.specs.Changes.{AddsColumns, Removes};
ghost use Rattle.reg_tables_schema.specs.Places.{reserved_canon_place, reserved_tree};
ghost use Rattle.reg_tables_schema.specs.States.{IsReady};
ghost use Rattle.reg_tables_schema.specs.Statements.{Writes};
ghost use Rattle.reg_tables_schema.specs.Tests.{is_text};
ghost use Rattle.reg_tables_sql.specs.Answers.{Finds, Lists};
ghost use Rattle.reg_tables_sql.specs.Reserved.{AreReserved, IsReserved, reserved_columns};
ghost use Rattle.reg_tables_sql.specs.Rowids.{AreRowids};

use crate::statements::{Result, has_row, select_list, write};
use sqlite::{Alter, Connection, params};
use std::alloc::Global;

const INSERT_TEXT: &str = "INSERT INTO reserved (canon) VALUES (?1)";

/// Reserves a canonical name.
pub fn insert<S: Alter>(conn: &mut Connection<S>, canon: &str) -> Result<()>
    requires { IsReady (state S.Store conn.old) }
    ensures { Writes S.Store conn.old conn.new result
        (AddsColumns reserved_tree (reserved_columns canon.now)) }
{
    write(conn, INSERT_TEXT, params![canon])
}

const REMOVE_TEXT: &str = "DELETE FROM reserved WHERE canon = ?1";

/// Frees a canonical name.
pub fn remove<S: Alter>(conn: &mut Connection<S>, canon: &str) -> Result<()>
    requires { IsReady (state S.Store conn.old) }
    ensures { Writes S.Store conn.old conn.new result
        (Removes reserved_tree (is_text reserved_canon_place canon.now)) }
{
    write(conn, REMOVE_TEXT, params![canon])
}

/// A reserved name, by its canonical text.
pub const BY_CANON_TEXT: &str = "SELECT canon FROM reserved WHERE canon = ?1";

/// Whether the canonical name is reserved.
pub fn is_there<S: Alter>(conn: &mut Connection<S>, canon: &str) -> Result<bool>
    requires { IsReady (state S.Store conn.old) }
    ensures { Finds S.Store conn.old conn.new result (IsReserved canon.now) }
{
    has_row(conn, BY_CANON_TEXT, params![canon])
}

const ALL_TEXT: &str = "SELECT canon FROM reserved ORDER BY canon";

/// All reserved names, in order.
pub fn all<S: Alter>(alloc: Global, conn: &mut Connection<S>) -> Result<Vec<String>>
    requires { IsReady (state S.Store conn.old) }
    ensures { Lists S.Store conn.old conn.new result AreReserved }
{
    select_list(alloc, conn, ALL_TEXT, &[])
}

const ROWIDS_TEXT: &str = "SELECT rowid FROM reserved ORDER BY rowid";

/// The rowids of all reserved names, in order.
pub fn rowids<S: Alter>(alloc: Global, conn: &mut Connection<S>) -> Result<Vec<i64>>
    requires { IsReady (state S.Store conn.old) }
    ensures { Lists S.Store conn.old conn.new result (AreRowids reserved_tree) }
{
    select_list(alloc, conn, ROWIDS_TEXT, &[])
}
