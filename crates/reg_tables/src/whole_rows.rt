//! Selections of whole tables, for the opening checks.

ghost use Rattle.reg_tables_sql.specs.Archives.{IsArchiveWithId};
ghost use Rattle.reg_tables_rows.specs.WholeRows.{AreAllRows};
ghost use Rattle.reg_tables.specs.Calling.{Queries};
ghost use Rattle.reg_tables.specs.Works.{IsActive};

use crate::work::{Result, Work, call};
use reg_tables_represent::archives;
use reg_tables_rows::all_rows::{self, AllRows};
use reg_tables_sql::archives::Archive;
use sqlite::Alter;
use std::alloc::Global;

impl<S: Alter> Work<'_, S> {
    /// The rows of all tables, except archives.
    pub fn all_rows(&mut self, alloc: Global) -> Result<AllRows>
        requires { IsActive S.Store self.old }
        ensures { Queries S.Store self.old self.new result (λ db it. AreAllRows it db) }
    {
        call!(self, all_rows::read(alloc, &mut self.tables.conn))
    }

    /// The archive of the version with this id. No version's id is 2^63 or more: such an id is a
    /// fault.
    pub fn archive_with_id(&mut self, version: u64) -> Result<Option<Archive>>
        requires { IsActive S.Store self.old }
        ensures { Queries S.Store self.old self.new result (IsArchiveWithId version) }
    {
        call!(self, archives::with_id(&mut self.tables.conn, version))
    }
}
