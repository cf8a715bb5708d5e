//! Restricted crates: changes to the registry that the rows stand for, and what they show of it.

ghost use Rattle.std.proofs.Common.{false, true};
ghost use Rattle.sqlite.specs.Held.{state};
ghost use Rattle.reg_tables_schema.specs.States.{IsReady};
ghost use Rattle.reg_tables_schema.specs.Statements.{rows_in};
ghost use Rattle.reg_tables_schema.specs.Steps.{Done, KeepsAll, Steps, Told};
ghost use Rattle.reg_tables_represent.specs.Calls.{Restricts, TellsOtherSight, TellsRestricted};

use reg_tables_sql::statements::Result;
use reg_tables_sql::{crates, restricted};
use sqlite::{Alter, Connection};

fn restrict<S: Alter>(conn: &mut Connection<S>, crate_id: u32) -> Result<bool>
    requires { IsReady (state S.Store conn.old) }
    ensures stands { Done S.Store conn.new result
        (Restricts true crate_id (rows_in S.Store conn.old) (rows_in S.Store conn.new)) }
    ensures tells { Told S.Store conn.new result
        (TellsOtherSight crate_id true (rows_in S.Store conn.old)) }
    ensures leaves { Steps S.Store conn.old conn.new result }
{
    let is_crate = crates::has_id(conn, crate_id)?;
    if !is_crate {
        return Ok(false);
    }
    let is_restricted = restricted::is_there(conn, crate_id)?;
    if is_restricted {
        return Ok(false);
    }
    restricted::insert(conn, crate_id)?;
    Ok(true)
}

fn lift<S: Alter>(conn: &mut Connection<S>, crate_id: u32) -> Result<bool>
    requires { IsReady (state S.Store conn.old) }
    ensures stands { Done S.Store conn.new result
        (Restricts false crate_id (rows_in S.Store conn.old) (rows_in S.Store conn.new)) }
    ensures tells { Told S.Store conn.new result
        (TellsOtherSight crate_id false (rows_in S.Store conn.old)) }
    ensures leaves { Steps S.Store conn.old conn.new result }
{
    let is_restricted = restricted::is_there(conn, crate_id)?;
    restricted::remove(conn, crate_id)?;
    Ok(is_restricted)
}

/// Restricts a crate, or opens it to all, and returns whether it was not so. A crate that does not
/// exist becomes neither.
pub fn set<S: Alter>(conn: &mut Connection<S>, crate_id: u32, restricted: bool) -> Result<bool>
    requires { IsReady (state S.Store conn.old) }
    ensures stands { Done S.Store conn.new result
        (Restricts restricted crate_id (rows_in S.Store conn.old) (rows_in S.Store conn.new)) }
    ensures tells { Told S.Store conn.new result
        (TellsOtherSight crate_id restricted (rows_in S.Store conn.old)) }
    ensures leaves { Steps S.Store conn.old conn.new result }
{
    if restricted {
        restrict(conn, crate_id)
    } else {
        lift(conn, crate_id)
    }
}

/// Whether a crate is restricted.
pub fn is<S: Alter>(conn: &mut Connection<S>, crate_id: u32) -> Result<bool>
    requires { IsReady (state S.Store conn.old) }
    ensures found { Told S.Store conn.new result
        (TellsRestricted crate_id (rows_in S.Store conn.old)) }
    ensures same { KeepsAll S.Store conn.old conn.new result }
{
    let there = restricted::is_there(conn, crate_id)?;
    Ok(there)
}
