//! The crates that texts name.

ghost use Rattle.std.specs.Prelude.{◌≡◌, false};
ghost use Rattle.reg_tables.specs.Works.{IsActive, has_failed};
ghost use Rattle.reg_tables.specs.Calling.{Queries};
ghost use Rattle.reg_service_steps.specs.Named.{FindsNamed};

use reg_names::{canon, parse_name};
use reg_tables::{Crate, Result, Work};
use sqlite::Alter;

/// The crate that a text names, in any of its spellings; none if the text is no crate name or no
/// crate has it.
pub fn find_named<S: Alter>(work: &mut Work<'_, S>, text: &str) -> Result<Option<Crate>>
    requires at_work { IsActive S.Store work.old }
    requires goes_on { has_failed work.old ≡ false }
    ensures { Queries S.Store work.old work.new result (FindsNamed text.now) }
{
    match parse_name(text) {
        Some(name) => work.crate_by_canon(&canon(&name)),
        None => Ok(None),
    }
}
