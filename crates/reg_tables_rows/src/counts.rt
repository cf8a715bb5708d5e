//! How much the registry has.

ghost use Rattle.std.specs.Prelude.{◌≡◌, ◌<◌, IfOk, length};
ghost use Rattle.sqlite.specs.Held.{state};
ghost use Rattle.reg_tables_schema.specs.Rows.{greatest_number};
ghost use Rattle.reg_tables_schema.specs.States.{IsReady};
ghost use Rattle.reg_tables_schema.specs.Statements.{rows_in};
ghost use Rattle.reg_tables_schema.specs.Steps.{KeepsAll, Told};
ghost use Rattle.reg_tables_represent.specs.Calls.{Counted, ReachesCrates};
ghost use Rattle.reg_tables_represent.specs.Ids.{IsNext};
ghost use Rattle.reg_tables_rows.specs.Counting.{CountsAll};
ghost use Rattle.reg_model.specs.Crates.{crates};

use reg_tables_sql::statements::Result;
use reg_tables_sql::{accounts, crates, tokens, versions};
use sqlite::{Alter, Connection, Error};

/// Numbers of accounts, tokens, crates and publications.
#[derive(Debug, Drop)]
pub struct Counts {
    pub accounts: u64,
    pub tokens: u64,
    pub crates: u64,
    pub publications: u64,
}

// SQL counts only up to its greatest number; there, its answer may be too low.
fn check_exact(n: u64) -> Result<u64>
    ensures { IfOk result (λ m. (m ≡ n) × (m < greatest_number)) }
{
    if n < i64::MAX as u64 {
        Ok(n)
    } else {
        Err(Error::InvalidQuery)
    }
}

// One more than the last of ids that are taken in turn.
fn next(last: Option<u32>) -> u64
    ensures next { IsNext last result }
    ensures some { 0 < result }
{
    match last {
        None => 1,
        Some(id) => u64::from(id) + 1,
    }
}

/// How many accounts there are: their ids are taken in turn, so the last one tells it.
pub fn count_accounts<S: Alter>(conn: &mut Connection<S>) -> Result<u64>
    requires { IsReady (state S.Store conn.old) }
    ensures counted { Told S.Store conn.new result
        (Counted (λ s. length s.accounts) (rows_in S.Store conn.old)) }
    ensures same { KeepsAll S.Store conn.old conn.new result }
{
    let last = accounts::last_id(conn)?;
    Ok(next(last) - 1)
}

/// How many tokens there are; the same holds of their ids.
pub fn count_tokens<S: Alter>(conn: &mut Connection<S>) -> Result<u64>
    requires { IsReady (state S.Store conn.old) }
    ensures counted { Told S.Store conn.new result
        (Counted (λ s. length s.tokens) (rows_in S.Store conn.old)) }
    ensures same { KeepsAll S.Store conn.old conn.new result }
{
    let last = tokens::last_id(conn)?;
    Ok(next(last) - 1)
}

fn count_crates<S: Alter>(conn: &mut Connection<S>) -> Result<u64>
    requires { IsReady (state S.Store conn.old) }
    ensures counted { Told S.Store conn.new result (Counted crates (rows_in S.Store conn.old)) }
    ensures same { KeepsAll S.Store conn.old conn.new result }
{
    let n = crates::count(conn)?;
    check_exact(n)
}

fn count_publications<S: Alter>(conn: &mut Connection<S>) -> Result<u64>
    requires { IsReady (state S.Store conn.old) }
    ensures counted { Told S.Store conn.new result
        (Counted (λ s. length s.publications) (rows_in S.Store conn.old)) }
    ensures same { KeepsAll S.Store conn.old conn.new result }
{
    let n = versions::count(conn)?;
    check_exact(n)
}

/// Whether there are at least this many crates: no more than ids were taken. They are counted only
/// if their ids come near it.
pub fn reaches_crates<S: Alter>(conn: &mut Connection<S>, number: u64) -> Result<bool>
    requires { IsReady (state S.Store conn.old) }
    ensures told { Told S.Store conn.new result
        (ReachesCrates number (rows_in S.Store conn.old)) }
    ensures same { KeepsAll S.Store conn.old conn.new result }
{
    let last = crates::last_id(conn)?;
    if next(last) < number {
        return Ok(false);
    }
    let n = count_crates(conn)?;
    Ok(number <= n)
}

/// How many accounts, tokens, crates and publications there are.
pub fn count<S: Alter>(conn: &mut Connection<S>) -> Result<Counts>
    requires { IsReady (state S.Store conn.old) }
    ensures counted { Told S.Store conn.new result (CountsAll (rows_in S.Store conn.old)) }
    ensures same { KeepsAll S.Store conn.old conn.new result }
{
    let accounts = count_accounts(conn)?;
    let tokens = count_tokens(conn)?;
    let crates = count_crates(conn)?;
    let publications = count_publications(conn)?;
    Ok(Counts {
        accounts,
        tokens,
        crates,
        publications,
    })
}
