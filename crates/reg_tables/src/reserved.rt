//! Calls on reserved names.

ghost use Rattle.std.specs.Prelude.{not};
ghost use Rattle.reg_model.specs.Changes.{with_reserved, without_reserved};
ghost use Rattle.reg_tables_represent.specs.Calls.{TellsReserved, Transforms};
ghost use Rattle.reg_tables.specs.Calling.{Queries, Sets};
ghost use Rattle.reg_tables.specs.Works.{IsActive};

use crate::work::{Result, Work, call};
use reg_names::CanonText;
use reg_tables_represent::reserved;
use sqlite::Alter;

impl<S: Alter> Work<'_, S> {
    /// Reserves a canonical name, and returns whether the administrator had not reserved it.
    pub fn reserve(&mut self, canon: &CanonText) -> Result<bool>
        requires { IsActive S.Store self.old }
        ensures { Sets S.Store self.old self.new result (Transforms
            (λ ids. with_reserved canon.now))
            (λ db added. TellsReserved canon.now db (not added)) }
    {
        call!(self, reserved::add(&mut self.tables.conn, canon.as_str()))
    }

    /// Frees a reserved name, and returns whether the administrator had reserved it. Names that are
    /// always reserved stay so.
    pub fn unreserve(&mut self, canon: &CanonText) -> Result<bool>
        requires { IsActive S.Store self.old }
        ensures { Sets S.Store self.old self.new result (Transforms
            (λ ids. without_reserved canon.now))
            (TellsReserved canon.now) }
    {
        call!(self, reserved::free(&mut self.tables.conn, canon.as_str()))
    }

    /// Whether the administrator reserved the name. Names that are always reserved are not among
    /// them.
    pub fn is_reserved(&mut self, canon: &CanonText) -> Result<bool>
        requires { IsActive S.Store self.old }
        ensures { Queries S.Store self.old self.new result (TellsReserved canon.now) }
    {
        call!(self, reserved::has(&mut self.tables.conn, canon.as_str()))
    }
}
