//! Commands on reserved names.

ghost use Rattle.std.specs.Prelude.{◌≡◌, false};
ghost use Rattle.reg_model.specs.Events.Command.{Reserve, Unreserve};
ghost use Rattle.reg_tables.specs.Works.{IsActive, has_failed};
ghost use Rattle.reg_service_commands.specs.Telling.{ObeysTold};

use crate::told::{TracedOrder, done_of, refused, unchanged};
use reg_model::AdminRefusal;
use reg_names::{canon, parse_name};
use reg_policy::is_reserved_always;
use reg_service_steps::is_told;
use reg_tables::{Result, Work};
use sqlite::Alter;
use std::alloc::Global;

/// Reserves a name. Names that are always reserved stay as they are.
pub(crate) fn reserve<S: Alter>(
    alloc: Global,
    work: &mut Work<'_, S>,
    name: &str,
    traced: bool,
) -> Result<TracedOrder>
    requires at_work { IsActive S.Store work.old }
    requires goes_on { has_failed work.old ≡ false }
    ensures { ObeysTold traced S.Store (Reserve name.now) result work.old work.new }
{
    let Some(parsed) = parse_name(name) else {
        return Ok(refused(AdminRefusal::G4));
    };
    let text = canon(&parsed);
    if is_reserved_always(&text) {
        return Ok(unchanged());
    }
    let added = work.reserve(&text)?;
    done_of(alloc, work, is_told(traced, added), "reserve", name)
}

/// Unreserves a name.
pub(crate) fn unreserve<S: Alter>(
    alloc: Global,
    work: &mut Work<'_, S>,
    name: &str,
    traced: bool,
) -> Result<TracedOrder>
    requires at_work { IsActive S.Store work.old }
    requires goes_on { has_failed work.old ≡ false }
    ensures { ObeysTold traced S.Store (Unreserve name.now) result work.old work.new }
{
    let Some(parsed) = parse_name(name) else {
        return Ok(refused(AdminRefusal::G4));
    };
    let removed = work.unreserve(&canon(&parsed))?;
    done_of(alloc, work, is_told(traced, removed), "unreserve", name)
}
