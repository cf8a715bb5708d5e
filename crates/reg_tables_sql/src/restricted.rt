//! The table of restricted crates, one statement per function.

ghost use Rattle.sqlite.specs.Held.{state};
ghost use Rattle.reg_tables_schema.specs.Changes.{Adds, Removes};
ghost use Rattle.reg_tables_schema.specs.Places.{restricted_tree};
ghost use Rattle.reg_tables_schema.specs.States.{IsReady};
ghost use Rattle.reg_tables_schema.specs.Statements.{Writes};
ghost use Rattle.reg_tables_sql.specs.Answers.{Finds, Lists};
ghost use Rattle.reg_tables_sql.specs.Restricted.{AreRestricted, IsRestricted, is_restricted, restricted_row};

use crate::statements::{Result, has_row, select_list, write};
use sqlite::{Alter, Connection, params};
use std::alloc::Global;

const INSERT_TEXT: &str = "INSERT INTO restricted (crate) VALUES (?1)";

/// Restricts a crate to its readers.
pub fn insert<S: Alter>(conn: &mut Connection<S>, crate_id: u32) -> Result<()>
    requires { IsReady (state S.Store conn.old) }
    ensures { Writes S.Store conn.old conn.new result
        (Adds restricted_tree (restricted_row crate_id)) }
{
    write(conn, INSERT_TEXT, params![crate_id])
}

const REMOVE_TEXT: &str = "DELETE FROM restricted WHERE crate = ?1";

/// Opens a crate to everyone.
pub fn remove<S: Alter>(conn: &mut Connection<S>, crate_id: u32) -> Result<()>
    requires { IsReady (state S.Store conn.old) }
    ensures { Writes S.Store conn.old conn.new result
        (Removes restricted_tree (is_restricted crate_id)) }
{
    write(conn, REMOVE_TEXT, params![crate_id])
}

const IS_THERE_TEXT: &str = "SELECT crate FROM restricted WHERE crate = ?1";

/// Whether a crate is restricted.
pub fn is_there<S: Alter>(conn: &mut Connection<S>, crate_id: u32) -> Result<bool>
    requires { IsReady (state S.Store conn.old) }
    ensures { Finds S.Store conn.old conn.new result (IsRestricted crate_id) }
{
    has_row(conn, IS_THERE_TEXT, params![crate_id])
}

const ALL_TEXT: &str = "SELECT crate FROM restricted ORDER BY crate";

/// The ids of the restricted crates, in order.
pub fn all<S: Alter>(alloc: Global, conn: &mut Connection<S>) -> Result<Vec<u32>>
    requires { IsReady (state S.Store conn.old) }
    ensures { Lists S.Store conn.old conn.new result AreRestricted }
{
    select_list(alloc, conn, ALL_TEXT, &[])
}
