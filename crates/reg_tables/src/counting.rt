//! How much the registry has.

ghost use Rattle.std.specs.Prelude.{length};
ghost use Rattle.reg_tables_represent.specs.Calls.{Counted, ReachesCrates};
ghost use Rattle.reg_tables_rows.specs.Counting.{CountsAll};
ghost use Rattle.reg_tables.specs.Calling.{Queries};
ghost use Rattle.reg_tables.specs.Works.{IsActive};

use crate::work::{Result, Work, call};
use reg_tables_rows::counts::{self, Counts};
use sqlite::Alter;

impl<S: Alter> Work<'_, S> {
    /// How many accounts, tokens, crates and publications there are.
    pub fn counts(&mut self) -> Result<Counts>
        requires { IsActive S.Store self.old }
        ensures { Queries S.Store self.old self.new result CountsAll }
    {
        call!(self, counts::count(&mut self.tables.conn))
    }

    /// How many accounts there are, by the id of the last.
    pub fn count_accounts(&mut self) -> Result<u64>
        requires { IsActive S.Store self.old }
        ensures { Queries S.Store self.old self.new result (Counted (λ s. length s.accounts)) }
    {
        call!(self, counts::count_accounts(&mut self.tables.conn))
    }

    /// How many tokens there are, by the id of the last.
    pub fn count_tokens(&mut self) -> Result<u64>
        requires { IsActive S.Store self.old }
        ensures { Queries S.Store self.old self.new result (Counted (λ s. length s.tokens)) }
    {
        call!(self, counts::count_tokens(&mut self.tables.conn))
    }

    /// Whether there are at least this many crates. They are counted only if their ids come near
    /// the number.
    pub fn reaches_crates(&mut self, number: u64) -> Result<bool>
        requires { IsActive S.Store self.old }
        ensures { Queries S.Store self.old self.new result (ReachesCrates number) }
    {
        call!(self, counts::reaches_crates(&mut self.tables.conn, number))
    }
}
