//! Commands that report and change nothing.

ghost use Rattle.std.specs.Prelude.{◌≡◌, false};
ghost use Rattle.reg_model.specs.Events.Command.{Access, Crates, Tokens, Users};
ghost use Rattle.reg_tables.specs.Works.{IsActive, has_failed};
ghost use Rattle.reg_service_commands.specs.Orders.{Obeys};

mod access;
mod crates;
mod tokens;
mod users;
mod versions;

use crate::reports::access::access_report;
use crate::reports::crates::crates_report;
use crate::reports::tokens::tokens_report;
use crate::reports::users::users_report;
use crate::told::Answer;
use reg_model::AdminRefusal;
use reg_names::parse_name;
use reg_policy::AdminReply;
use reg_tables::{Result, Work};
use sqlite::Alter;
use std::alloc::Global;

/// Who may act on a crate, and who reads it.
pub(crate) fn report_access<S: Alter>(
    alloc: Global,
    work: &mut Work<'_, S>,
    name: &str,
) -> Result<Answer>
    requires at_work { IsActive S.Store work.old }
    requires goes_on { has_failed work.old ≡ false }
    ensures { Obeys S.Store (Access name.now) result work.old work.new }
{
    let Some(parsed) = parse_name(name) else {
        return Ok(Err(AdminRefusal::G4));
    };
    let text = access_report(alloc, work, &parsed)?;
    Ok(Ok(AdminReply::Text(text)))
}

/// All accounts.
pub(crate) fn report_users<S: Alter>(alloc: Global, work: &mut Work<'_, S>) -> Result<Answer>
    requires { IsActive S.Store work.old }
    ensures { Obeys S.Store Users result work.old work.new }
{
    let text = users_report(alloc, work)?;
    Ok(Ok(AdminReply::Text(text)))
}

/// All tokens.
pub(crate) fn report_tokens<S: Alter>(alloc: Global, work: &mut Work<'_, S>) -> Result<Answer>
    requires { IsActive S.Store work.old }
    ensures { Obeys S.Store Tokens result work.old work.new }
{
    let text = tokens_report(alloc, work)?;
    Ok(Ok(AdminReply::Text(text)))
}

/// All crates.
pub(crate) fn report_crates<S: Alter>(alloc: Global, work: &mut Work<'_, S>) -> Result<Answer>
    requires { IsActive S.Store work.old }
    ensures { Obeys S.Store Crates result work.old work.new }
{
    let text = crates_report(alloc, work)?;
    Ok(Ok(AdminReply::Text(text)))
}
