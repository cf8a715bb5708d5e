//! The base of the registry.

ghost use Rattle.std.specs.Prelude.{string_bytes};
ghost use Rattle.reg_tables.specs.Works.{IsActive};
ghost use Rattle.reg_tables.specs.Calling.{Queries};
ghost use Rattle.reg_service_steps.specs.Reads.{TellsBase};

use reg_tables::{Result, Work};
use sqlite::Alter;

const FIND_BASE_TEXT: &str = "SELECT base FROM about";

/// The base of the registry.
pub fn find_base<S: Alter>(work: &mut Work<'_, S>) -> Result<String>
    requires { IsActive S.Store work.old }
    ensures { Queries S.Store work.old work.new result (λ db base. TellsBase db
        (string_bytes base)) }
{
    match work.select_one::<String>(FIND_BASE_TEXT, &[])? {
        Some(base) => Ok(base),
        None => work.fail(),
    }
}
