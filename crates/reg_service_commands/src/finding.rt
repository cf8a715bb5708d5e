//! The crates and accounts that the arguments of a command name.

ghost use Rattle.std.specs.Prelude.{◌≡◌, ◌∷◌, [], false};
ghost use Rattle.reg_tables.specs.Works.{IsActive, has_failed};
ghost use Rattle.reg_tables.specs.Calling.{Queries};
ghost use Rattle.reg_service_commands.specs.Orders.{FindsPair, first_ground};

use reg_model::AdminRefusal;
use reg_service_steps::find_named;
use reg_tables::{Crate, Result, Work};
use sqlite::Alter;

/// The crate with this name and the id of the account with this login, or why not.
pub(crate) fn find_pair<S: Alter>(
    work: &mut Work<'_, S>,
    name: &str,
    login: &str,
) -> Result<Result<(Crate, u32), AdminRefusal>>
    requires at_work { IsActive S.Store work.old }
    requires goes_on { has_failed work.old ≡ false }
    ensures { Queries S.Store work.old work.new result (FindsPair name.now login.now) }
{
    let Some(named) = find_named(work, name)? else {
        return Ok(Err(AdminRefusal::G8));
    };
    match work.account_by_login(login)? {
        Some(account) => Ok(Ok((named, account.id))),
        None => Ok(Err(AdminRefusal::G3)),
    }
}

/// The refusal, if `is` holds.
pub(crate) fn refused_if(refusal: AdminRefusal, is: bool) -> Option<AdminRefusal>
    ensures { result ≡ first_ground ((refusal, is) ∷ []) }
{
    if is { Some(refusal) } else { None }
}
