//! The table of summaries of crates, one statement per function.
//!
//! A number that SQL can't hold, from 2^63 on, is refused before anything is written.

ghost use Rattle.std.specs.Prelude.{◌<◌, ◌^◌, OnOk};
ghost use Rattle.sqlite.specs.Held.{state};
ghost use Rattle.reg_tables_schema.specs.Changes.{Adds};
ghost use Rattle.reg_tables_schema.specs.Places.{summaries_tree};
ghost use Rattle.reg_tables_schema.specs.States.{IsReady};
ghost use Rattle.reg_tables_schema.specs.Statements.{Writes};
ghost use Rattle.reg_tables_sql.specs.Answers.{Finds, Lists};
ghost use Rattle.reg_tables_sql.specs.Summaries.{AreSummaries, IsSummaryOf, Summarizes, summary_row};

use crate::statements::{Result, select_list, select_one, write};
use sqlite::{Alter, Connection, Error, params};
use std::alloc::Global;

/// The greatest version of a crate that is not yanked, and its index file's length.
#[derive(Clone, Copy, Debug, PartialEq, Eq)]
pub struct Summary {
    pub crate_id: u32,
    pub highest: u64,
    pub index_length: u64,
}

// SQL keeps numbers below 2^63.
const GREATEST: u64 = i64::MAX as u64;

fn check_numbers(summary: Summary) -> Result<()>
    ensures version { OnOk result (summary.highest < 2 ^ 63) }
    ensures length { OnOk result (summary.index_length < 2 ^ 63) }
{
    if summary.highest > GREATEST || summary.index_length > GREATEST {
        return Err(Error::InvalidQuery);
    }
    Ok(())
}

const INSERT_TEXT: &str =
    "INSERT INTO summaries (crate, highest, index_length) VALUES (?1, ?2, ?3)";

/// Adds the summary of a crate.
pub fn insert<S: Alter>(conn: &mut Connection<S>, summary: Summary) -> Result<()>
    requires { IsReady (state S.Store conn.old) }
    ensures { Writes S.Store conn.old conn.new result
        (Adds summaries_tree
        (summary_row summary.crate_id summary.highest summary.index_length)) }
{
    check_numbers(summary)?;
    write(
        conn,
        INSERT_TEXT,
        params![
            summary.crate_id,
            summary.highest as i64,
            summary.index_length as i64
        ],
    )
}

const UPDATE_TEXT: &str = "UPDATE summaries SET highest = ?2, index_length = ?3 WHERE crate = ?1";

/// Changes the summary of a crate.
pub fn update<S: Alter>(conn: &mut Connection<S>, summary: Summary) -> Result<()>
    requires { IsReady (state S.Store conn.old) }
    ensures { Writes S.Store conn.old conn.new result
        (Summarizes summary.crate_id summary.highest summary.index_length) }
{
    check_numbers(summary)?;
    write(
        conn,
        UPDATE_TEXT,
        params![
            summary.crate_id,
            summary.highest as i64,
            summary.index_length as i64
        ],
    )
}

const OF_CRATE_TEXT: &str = "SELECT crate, highest, index_length FROM summaries WHERE crate = ?1";

/// The summary of a crate, if there is one.
pub fn of_crate<S: Alter>(conn: &mut Connection<S>, crate_id: u32) -> Result<Option<Summary>>
    requires { IsReady (state S.Store conn.old) }
    ensures { Finds S.Store conn.old conn.new result (IsSummaryOf crate_id) }
{
    select_one(conn, OF_CRATE_TEXT, params![crate_id])
}

const ALL_TEXT: &str = "SELECT crate, highest, index_length FROM summaries ORDER BY crate";

/// All summaries, by crate id.
pub fn all<S: Alter>(alloc: Global, conn: &mut Connection<S>) -> Result<Vec<Summary>>
    requires { IsReady (state S.Store conn.old) }
    ensures { Lists S.Store conn.old conn.new result AreSummaries }
{
    select_list(alloc, conn, ALL_TEXT, &[])
}
