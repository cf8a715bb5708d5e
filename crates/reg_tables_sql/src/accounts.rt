//! The table of accounts, one statement per function.

ghost use Rattle.std.specs.Prelude.{true};
ghost use Rattle.std.specs.Option.{option_map};
ghost use Rattle.sqlite.specs.Held.{state};
ghost use Rattle.reg_tables_schema.specs.Changes.{Adds};
ghost use Rattle.reg_tables_schema.specs.Places.{accounts_tree};
ghost use Rattle.reg_tables_schema.specs.States.{IsReady};
ghost use Rattle.reg_tables_schema.specs.Statements.{Writes};
ghost use Rattle.reg_tables_sql.specs.Accounts.{AreAccounts, Enables, IsAccountOfLogin, account_row};
ghost use Rattle.reg_tables_sql.specs.Answers.{Finds, Lists};
ghost use Rattle.reg_tables_sql.specs.Counts.{IsLastId};

use crate::statements::{Result, select_list, select_one, write};
use sqlite::{Alter, Connection, params};
use std::alloc::Global;

/// An account as stored.
#[derive(Debug, Drop)]
pub struct Account {
    pub id: u32,
    pub login: String,
    pub name: Option<String>,
    pub enabled: bool,
}

const INSERT_TEXT: &str = "INSERT INTO accounts (id, login, name, enabled) VALUES (?1, ?2, ?3, 1)";

/// Adds an enabled account.
pub fn insert<S: Alter>(
    conn: &mut Connection<S>,
    id: u32,
    login: &str,
    name: Option<&str>,
) -> Result<()>
    requires { IsReady (state S.Store conn.old) }
    ensures { Writes S.Store conn.old conn.new result
        (Adds accounts_tree
        (account_row id login.now (option_map (λ n. n.now) name.entry) true)) }
{
    write(conn, INSERT_TEXT, params![id, login, name])
}

const ENABLE_TEXT: &str = "UPDATE accounts SET enabled = ?2 WHERE id = ?1";

/// Enables or disables an account.
pub fn enable<S: Alter>(conn: &mut Connection<S>, id: u32, enabled: bool) -> Result<()>
    requires { IsReady (state S.Store conn.old) }
    ensures { Writes S.Store conn.old conn.new result (Enables id enabled) }
{
    write(conn, ENABLE_TEXT, params![id, enabled])
}

const BY_LOGIN_TEXT: &str = "SELECT id, login, name, enabled FROM accounts WHERE login = ?1";

/// The account with this login, if there is one.
pub fn by_login<S: Alter>(conn: &mut Connection<S>, login: &str) -> Result<Option<Account>>
    requires { IsReady (state S.Store conn.old) }
    ensures { Finds S.Store conn.old conn.new result (IsAccountOfLogin login.now) }
{
    select_one(conn, BY_LOGIN_TEXT, params![login])
}

const ALL_TEXT: &str = "SELECT id, login, name, enabled FROM accounts ORDER BY id";

/// All accounts, by id.
pub fn all<S: Alter>(alloc: Global, conn: &mut Connection<S>) -> Result<Vec<Account>>
    requires { IsReady (state S.Store conn.old) }
    ensures { Lists S.Store conn.old conn.new result AreAccounts }
{
    select_list(alloc, conn, ALL_TEXT, &[])
}

const LAST_ID_TEXT: &str = "SELECT id FROM accounts ORDER BY id DESC LIMIT 1";

/// The greatest account id, if there is one.
pub fn last_id<S: Alter>(conn: &mut Connection<S>) -> Result<Option<u32>>
    requires { IsReady (state S.Store conn.old) }
    ensures { Finds S.Store conn.old conn.new result (IsLastId accounts_tree) }
{
    select_one(conn, LAST_ID_TEXT, &[])
}
