//! Accounts: changes to the registry that the rows stand for, and what they show of it.

ghost use Rattle.std.specs.Prelude.{IfOk};
ghost use Rattle.std.specs.Option.{option_map};
ghost use Rattle.sqlite.specs.Held.{state};
ghost use Rattle.reg_tables_schema.specs.States.{IsReady};
ghost use Rattle.reg_tables_schema.specs.Statements.{rows_in};
ghost use Rattle.reg_tables_schema.specs.Steps.{Done, KeepsAll, Steps, Told};
ghost use Rattle.reg_tables_represent.specs.Calls.{AddsAccount, FindsAccount, ListsAccounts, SetsEnabled};
ghost use Rattle.reg_tables_represent.specs.Ids.{IsNext};

use reg_tables_sql::accounts::{self, Account};
use reg_tables_sql::statements::Result;
use sqlite::{Alter, Connection, Error};
use std::alloc::Global;

// One more than the greatest id; none if 32 bits hold no more.
pub(crate) fn next_id(last: Option<u32>) -> Result<u32>
    ensures { IfOk result (λ id. IsNext last id) }
{
    match last {
        None => Ok(1),
        Some(id) => match id.checked_add(1) {
            Some(next) => Ok(next),
            None => Err(Error::InvalidQuery),
        },
    }
}

/// Adds an enabled account and returns its id.
pub fn add<S: Alter>(conn: &mut Connection<S>, login: &str, name: Option<&str>) -> Result<u32>
    requires { IsReady (state S.Store conn.old) }
    ensures stands { Told S.Store conn.new result
        (AddsAccount login.now (option_map (λ n. n.now) name.entry)
        (rows_in S.Store conn.old) (rows_in S.Store conn.new)) }
    ensures leaves { Steps S.Store conn.old conn.new result }
{
    let last = accounts::last_id(conn)?;
    let id = next_id(last)?;
    accounts::insert(conn, id, login, name)?;
    Ok(id)
}

/// Enables or disables an existing account.
#[tactic(auto, using(crate::proofs::Withins::refused_fails, crate::proofs::Withins::touch_within))]
pub fn enable<S: Alter>(conn: &mut Connection<S>, id: u32, enabled: bool) -> Result<()>
    requires { IsReady (state S.Store conn.old) }
    ensures stands { Done S.Store conn.new result
        (SetsEnabled enabled id (rows_in S.Store conn.old) (rows_in S.Store conn.new)) }
    ensures leaves { Steps S.Store conn.old conn.new result }
{
    accounts::enable(conn, id, enabled)?;
    Ok(())
}

/// The account with this login, if there is one.
pub fn find<S: Alter>(conn: &mut Connection<S>, login: &str) -> Result<Option<Account>>
    requires { IsReady (state S.Store conn.old) }
    ensures found { Told S.Store conn.new result
        (FindsAccount login.now (rows_in S.Store conn.old)) }
    ensures same { KeepsAll S.Store conn.old conn.new result }
{
    accounts::by_login(conn, login)
}

/// All accounts, by id.
pub fn list<S: Alter>(alloc: Global, conn: &mut Connection<S>) -> Result<Vec<Account>>
    requires { IsReady (state S.Store conn.old) }
    ensures found { Told S.Store conn.new result
        (λ list. ListsAccounts (rows_in S.Store conn.old) list.items) }
    ensures same { KeepsAll S.Store conn.old conn.new result }
{
    accounts::all(alloc, conn)
}
