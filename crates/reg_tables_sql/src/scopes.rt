//! The table of the crates that tokens are for, one statement per function.

ghost use Rattle.sqlite.specs.Held.{state};
ghost use Rattle.reg_tables_schema.specs.Changes.{AddsColumns};
ghost use Rattle.reg_tables_schema.specs.Places.{scopes_tree};
ghost use Rattle.reg_tables_schema.specs.States.{IsReady};
ghost use Rattle.reg_tables_schema.specs.Statements.{Writes};
ghost use Rattle.reg_tables_sql.specs.Answers.{Lists};
ghost use Rattle.reg_tables_sql.specs.Scopes.{AreScopes, AreScopesOf, scope_columns};

use crate::statements::{Result, select_list, write};
use sqlite::{Alter, Connection, params};
use std::alloc::Global;

/// A pattern of a token, and the range of canonical names that it covers.
#[derive(Debug, Drop)]
pub struct Scope {
    pub token: u32,
    pub place: u64,
    pub pattern: String,
    pub low: String,
    pub high: String,
}

const INSERT_TEXT: &str =
    "INSERT INTO scopes (token, place, pattern, low, high) VALUES (?1, ?2, ?3, ?4, ?5)";

/// Adds the pattern of a token at a place, with the range of canonical names that it covers.
pub fn insert<S: Alter>(
    conn: &mut Connection<S>,
    token: u32,
    place: u32,
    pattern: &str,
    low: &str,
    high: &str,
) -> Result<()>
    requires { IsReady (state S.Store conn.old) }
    ensures { Writes S.Store conn.old conn.new result
        (AddsColumns scopes_tree (scope_columns token place pattern.now low.now high.now)) }
{
    write(conn, INSERT_TEXT, params![token, place, pattern, low, high])
}

const OF_TOKEN_TEXT: &str =
    "SELECT token, place, pattern, low, high FROM scopes WHERE token = ?1 ORDER BY place";

/// The scopes of a token, by place.
pub fn of_token<S: Alter>(alloc: Global, conn: &mut Connection<S>, token: u32) -> Result<Vec<Scope>>
    requires { IsReady (state S.Store conn.old) }
    ensures { Lists S.Store conn.old conn.new result (AreScopesOf token) }
{
    let text = OF_TOKEN_TEXT;
    select_list(alloc, conn, text, params![token])
}

const ALL_TEXT: &str = "SELECT token, place, pattern, low, high FROM scopes ORDER BY token, place";

/// All scopes, by token and place.
pub fn all<S: Alter>(alloc: Global, conn: &mut Connection<S>) -> Result<Vec<Scope>>
    requires { IsReady (state S.Store conn.old) }
    ensures { Lists S.Store conn.old conn.new result AreScopes }
{
    select_list(alloc, conn, ALL_TEXT, &[])
}
