//! A transaction on the tables.

ghost use Rattle.std.proofs.Common.{◌≡◌, IsErr};
ghost use Rattle.std.specs.Prelude.{◌==◌, length, map, not};
ghost use Rattle.sqlite.specs.Given.{IsPlain};
ghost use Rattle.sqlite.specs.Listing.{understood};
ghost use Rattle.sqlite.specs.Values.{bound};
ghost use Rattle.sqlite.specs.State.{Shown};
ghost use Rattle.reg_tables_schema.specs.Schema.{ours};
ghost use Rattle.reg_tables_schema.specs.Shown.{shown_of};
ghost use Rattle.reg_tables.specs.Ends.{IsDropped, IsEnded};
ghost use Rattle.reg_tables.specs.Works.{OnAnswer, IsActive, KeepsFrame, Unmoved, seen};

use crate::tables::Tables;
use reg_tables_schema::laws::{live_law, stop_law};
use reg_tables_schema::{SchemaVersion, finish, undo};
use reg_tables_sql::records::FromRow;
use reg_tables_sql::statements::{has_row, rows_of, select_list, select_one};
use sqlite::types::ValueRef;
use sqlite::{Alter, Row};
use std::alloc::{AllocError, Global};

/// The store failed, or memory ran out. Nothing of the transaction is kept; after a commit that
/// failed on disk, a crash may leave it.
#[derive(Clone, Copy, Debug, PartialEq, Eq)]
pub struct StoreFault;

impl From<AllocError> for StoreFault {
    fn from(_fault: AllocError) -> StoreFault {
        StoreFault
    }
}

/// What a call of a transaction answers.
pub type Result<T, E = StoreFault> = std::result::Result<T, E>;

/// What a call of the transaction `$work` returns, unless one has already failed. A fault ends the
/// transaction.
macro_rules! call {
    ($work:ident, $answer:expr) => {{
        if $work.failed {
            return Err(crate::work::StoreFault);
        }
        match $answer {
            Ok(told) => Ok(told),
            Err(_) => {
                $work.failed = true;
                Err(crate::work::StoreFault)
            }
        }
    }};
}

pub(crate) use call;

/// A transaction on the tables. After a failed call, nothing of it is kept. If dropped, it changes
/// nothing.
pub struct Work<'t, S: Alter> {
    pub(crate) tables: &'t mut Tables<S>,
    pub(crate) failed: bool,
}

impl<S: Alter> Work<'_, S> {
    /// Commits the changes, unless a call has failed. If the store fails, the tables no longer
    /// answer.
    pub fn commit(self) -> Result<()>
        requires { IsActive S.Store self }
        ensures { IsEnded S.Store result self.entry self.exit.0.now }
    {
        let Work { tables, failed } = self;
        if failed {
            undo(&mut tables.conn);
            stop_law(&tables.conn);
            return Err(StoreFault);
        }
        live_law(&tables.conn);
        if finish(&mut tables.conn).is_err() {
            tables.shut = true;
            stop_law(&tables.conn);
            return Err(StoreFault);
        }
        tables.edition = SchemaVersion::Second;
        Ok(())
    }
}

impl<S: Alter> Work<'_, S> {
    /// Ends the transaction as a fault does: out of memory, an unreadable row, or something
    /// missing.
    pub fn fail<T>(&mut self) -> Result<T>
        requires { IsActive S.Store self.old }
        ensures fails { IsErr result }
        ensures leaves { KeepsFrame S.Store result self.old self.new }
    {
        self.failed = true;
        Err(StoreFault)
    }

    /// All rows of a read-only query.
    pub fn select(&mut self, text: &str, params: &[ValueRef<'_>]) -> Result<Vec<Row>>
        requires at_work { IsActive S.Store self.old }
        requires reads { IsPlain (understood ours text.now) }
        ensures rows { OnAnswer S.Store self.new result (λ rows. Shown text.now (bound params.now)
            (seen S.Store self.old) (seen S.Store self.new) rows.items) }
        ensures same { Unmoved S.Store result self.old self.new }
        ensures leaves { KeepsFrame S.Store result self.old self.new }
    {
        call!(self, rows_of(&mut self.tables.conn, text, params))
    }

    /// The only row of a read-only query, as a record; none if there is no row. More than one row,
    /// or an unreadable one, is a fault.
    pub fn select_one<T: FromRow>(
        &mut self,
        text: &str,
        params: &[ValueRef<'_>],
    ) -> Result<Option<T>>
        requires at_work { IsActive S.Store self.old }
        requires reads { IsPlain (understood ours text.now) }
        ensures row { OnAnswer S.Store self.new result (λ found. Shown text.now (bound params.now)
            (seen S.Store self.old) (seen S.Store self.new) (shown_of T.FromRow.columns found)) }
        ensures same { Unmoved S.Store result self.old self.new }
        ensures leaves { KeepsFrame S.Store result self.old self.new }
    {
        call!(self, select_one(&mut self.tables.conn, text, params))
    }

    /// The rows of a read-only query, as records; no row is held beside its record. An unreadable
    /// one is a fault.
    pub fn select_list<T: FromRow>(
        &mut self,
        alloc: Global,
        text: &str,
        params: &[ValueRef<'_>],
    ) -> Result<Vec<T>>
        requires at_work { IsActive S.Store self.old }
        requires reads { IsPlain (understood ours text.now) }
        ensures rows { OnAnswer S.Store self.new result (λ list. Shown text.now (bound params.now)
            (seen S.Store self.old) (seen S.Store self.new) (map T.FromRow.columns list.items)) }
        ensures same { Unmoved S.Store result self.old self.new }
        ensures leaves { KeepsFrame S.Store result self.old self.new }
    {
        call!(
            self,
            select_list(alloc, &mut self.tables.conn, text, params)
        )
    }

    /// Whether a read-only query has a row.
    pub fn has_row(&mut self, text: &str, params: &[ValueRef<'_>]) -> Result<bool>
        requires at_work { IsActive S.Store self.old }
        requires reads { IsPlain (understood ours text.now) }
        ensures rows { OnAnswer S.Store self.new result (λ has. (rows : _)
            × Shown text.now (bound params.now) (seen S.Store self.old) (seen S.Store self.new) rows
            × (has ≡ not (length rows == 0))) }
        ensures same { Unmoved S.Store result self.old self.new }
        ensures leaves { KeepsFrame S.Store result self.old self.new }
    {
        call!(self, has_row(&mut self.tables.conn, text, params))
    }
}

impl<S: Alter> Drop for Work<'_, S> {
    fn drop(self)
        ensures { IsDropped S.Store self.entry self.exit.0.now }
    {
        let Work { tables, failed: _ } = self;
        undo(&mut tables.conn);
    }
}
