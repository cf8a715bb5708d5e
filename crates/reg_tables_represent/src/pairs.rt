//! Owners and readers of crates: changes to the registry that the rows stand for, and what they
//! show of it.

ghost use Rattle.std.specs.Prelude.{not};
ghost use Rattle.sqlite.specs.Held.{state};
ghost use Rattle.reg_tables_schema.specs.States.{IsReady};
ghost use Rattle.reg_tables_schema.specs.Statements.{rows_in};
ghost use Rattle.reg_tables_schema.specs.Steps.{Done, KeepsAll, Steps, Told};
ghost use Rattle.reg_tables_represent.specs.Calls.{AddsPair, ListsPairs, RemovesPair, TellsPair};

use reg_tables_sql::accounts::Account;
use reg_tables_sql::pairs::{Pair, Relation};
use reg_tables_sql::statements::Result;
use reg_tables_sql::{crates, pairs};
use sqlite::{Alter, Connection};
use std::alloc::Global;

/// Puts an account into the relation with a crate, and returns whether it was not in it. A crate
/// that does not exist gets none.
pub fn add<S: Alter>(conn: &mut Connection<S>, relation: Relation, pair: Pair) -> Result<bool>
    requires { IsReady (state S.Store conn.old) }
    ensures stands { Done S.Store conn.new result
        (AddsPair relation pair.crate_id pair.account
        (rows_in S.Store conn.old) (rows_in S.Store conn.new)) }
    ensures tells { Told S.Store conn.new result (λ added.
        TellsPair relation pair.crate_id pair.account (rows_in S.Store conn.old) (not added)) }
    ensures leaves { Steps S.Store conn.old conn.new result }
{
    let is_crate = crates::has_id(conn, pair.crate_id)?;
    if !is_crate {
        return Ok(false);
    }
    let is_pair = pairs::is_there(conn, relation, pair)?;
    if is_pair {
        return Ok(false);
    }
    pairs::insert(conn, relation, pair)?;
    Ok(true)
}

/// Removes an account from the relation with a crate, and returns whether it was in it.
pub fn remove<S: Alter>(conn: &mut Connection<S>, relation: Relation, pair: Pair) -> Result<bool>
    requires { IsReady (state S.Store conn.old) }
    ensures stands { Done S.Store conn.new result
        (RemovesPair relation pair.crate_id pair.account
        (rows_in S.Store conn.old) (rows_in S.Store conn.new)) }
    ensures tells { Told S.Store conn.new result
        (TellsPair relation pair.crate_id pair.account (rows_in S.Store conn.old)) }
    ensures leaves { Steps S.Store conn.old conn.new result }
{
    let is_pair = pairs::is_there(conn, relation, pair)?;
    pairs::remove(conn, relation, pair)?;
    Ok(is_pair)
}

/// The accounts in the relation with a crate, by id.
pub fn list<S: Alter>(
    alloc: Global,
    conn: &mut Connection<S>,
    relation: Relation,
    crate_id: u32,
) -> Result<Vec<Account>>
    requires { IsReady (state S.Store conn.old) }
    ensures found { Told S.Store conn.new result
        (λ list. ListsPairs relation crate_id (rows_in S.Store conn.old) list.items) }
    ensures same { KeepsAll S.Store conn.old conn.new result }
{
    pairs::of_crate(alloc, conn, relation, crate_id)
}
