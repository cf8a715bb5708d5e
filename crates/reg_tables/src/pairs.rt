//! Calls on the owners and the readers of crates.

ghost use Rattle.std.specs.Prelude.{not};
ghost use Rattle.reg_tables_represent.specs.Calls.{AddsOwner, AddsReader, ListsOwners, ListsReaders, RemovesOwner, RemovesReader, TellsPair};
ghost use Rattle.reg_tables.specs.Calling.{Queries, Sets};
ghost use Rattle.reg_tables.specs.Works.{IsActive};

use crate::work::{Result, Work, call};
use reg_tables_represent::pairs;
use reg_tables_sql::accounts::Account;
use reg_tables_sql::pairs::{Pair, Relation};
use sqlite::Alter;
use std::alloc::Global;

impl<S: Alter> Work<'_, S> {
    /// Makes an account an owner of a crate, and returns whether it was none. A crate that does not
    /// exist gets none.
    pub fn add_owner(&mut self, crate_id: u32, account: u32) -> Result<bool>
        requires { IsActive S.Store self.old }
        ensures { Sets S.Store self.old self.new result (AddsOwner crate_id account)
            (λ db added. TellsPair Relation.Owners crate_id account db (not added)) }
    {
        call!(
            self,
            pairs::add(
                &mut self.tables.conn,
                Relation::Owners,
                Pair { crate_id, account }
            )
        )
    }

    /// Removes an account from a crate's owners, and returns whether it was one.
    pub fn remove_owner(&mut self, crate_id: u32, account: u32) -> Result<bool>
        requires { IsActive S.Store self.old }
        ensures { Sets S.Store self.old self.new result (RemovesOwner crate_id account)
            (TellsPair Relation.Owners crate_id account) }
    {
        call!(
            self,
            pairs::remove(
                &mut self.tables.conn,
                Relation::Owners,
                Pair { crate_id, account }
            )
        )
    }

    /// The accounts that own a crate, by id; none if it does not exist.
    pub fn owners_of(&mut self, alloc: Global, crate_id: u32) -> Result<Vec<Account>>
        requires { IsActive S.Store self.old }
        ensures { Queries S.Store self.old self.new result
            (λ db list. ListsOwners crate_id db list.items) }
    {
        call!(
            self,
            pairs::list(alloc, &mut self.tables.conn, Relation::Owners, crate_id)
        )
    }

    /// Makes an account a reader of a crate, and returns whether it was none. A crate that does not
    /// exist gets none.
    pub fn add_reader(&mut self, crate_id: u32, account: u32) -> Result<bool>
        requires { IsActive S.Store self.old }
        ensures { Sets S.Store self.old self.new result (AddsReader crate_id account)
            (λ db added. TellsPair Relation.Readers crate_id account db (not added)) }
    {
        call!(
            self,
            pairs::add(
                &mut self.tables.conn,
                Relation::Readers,
                Pair { crate_id, account }
            )
        )
    }

    /// Removes an account from a crate's readers, and returns whether it was one.
    pub fn remove_reader(&mut self, crate_id: u32, account: u32) -> Result<bool>
        requires { IsActive S.Store self.old }
        ensures { Sets S.Store self.old self.new result (RemovesReader crate_id account)
            (TellsPair Relation.Readers crate_id account) }
    {
        call!(
            self,
            pairs::remove(
                &mut self.tables.conn,
                Relation::Readers,
                Pair { crate_id, account }
            )
        )
    }

    /// The accounts that read a crate, by id; none if it does not exist.
    pub fn readers_of(&mut self, alloc: Global, crate_id: u32) -> Result<Vec<Account>>
        requires { IsActive S.Store self.old }
        ensures { Queries S.Store self.old self.new result
            (λ db list. ListsReaders crate_id db list.items) }
    {
        call!(
            self,
            pairs::list(alloc, &mut self.tables.conn, Relation::Readers, crate_id)
        )
    }
}
