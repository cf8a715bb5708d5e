//! Calls on restricted crates.

ghost use Rattle.reg_tables_represent.specs.Calls.{Restricts, TellsOtherSight, TellsRestricted};
ghost use Rattle.reg_tables.specs.Calling.{Queries, Sets};
ghost use Rattle.reg_tables.specs.Works.{IsActive};

use crate::work::{Result, Work, call};
use reg_tables_represent::restricted;
use sqlite::Alter;

impl<S: Alter> Work<'_, S> {
    /// Restricts a crate to its owners and readers, or opens it to all, and returns whether it was
    /// not so. A crate that does not exist becomes neither.
    pub fn set_restricted(&mut self, crate_id: u32, restricted: bool) -> Result<bool>
        requires { IsActive S.Store self.old }
        ensures { Sets S.Store self.old self.new result (Restricts restricted crate_id)
            (TellsOtherSight crate_id restricted) }
    {
        call!(
            self,
            restricted::set(&mut self.tables.conn, crate_id, restricted)
        )
    }

    /// Whether a crate is restricted. A missing one is not.
    pub fn is_restricted(&mut self, crate_id: u32) -> Result<bool>
        requires { IsActive S.Store self.old }
        ensures { Queries S.Store self.old self.new result (TellsRestricted crate_id) }
    {
        call!(self, restricted::is(&mut self.tables.conn, crate_id))
    }
}
