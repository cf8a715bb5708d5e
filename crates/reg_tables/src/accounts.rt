//! Calls on accounts.

ghost use Rattle.std.specs.Option.{option_map};
ghost use Rattle.reg_tables_represent.specs.Calls.{AddsAccount, FindsAccount, ListsAccounts, SetsEnabled};
ghost use Rattle.reg_tables.specs.Calling.{Queries, UpdatesBy, Updates};
ghost use Rattle.reg_tables.specs.Works.{IsActive};

use crate::work::{Result, Work, call};
use reg_tables_represent::accounts;
use reg_tables_sql::accounts::Account;
use sqlite::Alter;
use std::alloc::Global;

impl<S: Alter> Work<'_, S> {
    /// Adds an enabled account and returns its id.
    pub fn add_account(&mut self, login: &str, name: Option<&str>) -> Result<u32>
        requires { IsActive S.Store self.old }
        ensures { Updates S.Store self.old self.new result
            (AddsAccount login.now (option_map (λ n. n.now) name.entry)) }
    {
        call!(self, accounts::add(&mut self.tables.conn, login, name))
    }

    /// Enables or disables an account. If no account has the id, nothing changes.
    pub fn set_enabled(&mut self, id: u32, enabled: bool) -> Result<()>
        requires { IsActive S.Store self.old }
        ensures { UpdatesBy S.Store self.old self.new result (SetsEnabled enabled id) }
    {
        call!(self, accounts::enable(&mut self.tables.conn, id, enabled))
    }

    /// The account with this login, if there is one.
    pub fn account_by_login(&mut self, login: &str) -> Result<Option<Account>>
        requires { IsActive S.Store self.old }
        ensures { Queries S.Store self.old self.new result (FindsAccount login.now) }
    {
        call!(self, accounts::find(&mut self.tables.conn, login))
    }

    /// All accounts, by id.
    pub fn all_accounts(&mut self, alloc: Global) -> Result<Vec<Account>>
        requires { IsActive S.Store self.old }
        ensures { Queries S.Store self.old self.new result
            (λ db list. ListsAccounts db list.items) }
    {
        call!(self, accounts::list(alloc, &mut self.tables.conn))
    }
}
