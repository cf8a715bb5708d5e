//! The administrator's commands, within a transaction.

ghost use Rattle.std.specs.Prelude.{◌≡◌, false};
ghost use Rattle.reg_policy.specs.Events.{command_of};
ghost use Rattle.reg_tables.specs.Works.{IsActive, has_failed};
ghost use Rattle.reg_service_commands.specs.Telling.{ObeysToldUnder};

use crate::accounts::{add_account, set_enabled};
use crate::crates::{add_owner, add_reader, remove_reader, set_restricted};
use crate::names::{reserve, unreserve};
use crate::reports::{report_access, report_crates, report_tokens, report_users};
use crate::tokens::{add_token, revoke};
use crate::told::{TracedOrder, untold};
use reg_body::Limits;
use reg_policy::AdminCommand;
use reg_tables::{Result, Work};
use sqlite::Alter;
use std::alloc::Global;

/// Runs a command, or refuses it, and tells the line of what it changed if one is wanted.
pub fn order_told<S: Alter>(
    alloc: Global,
    work: &mut Work<'_, S>,
    limits: &Limits,
    command: &AdminCommand<'_>,
    traced: bool,
) -> Result<TracedOrder>
    requires at_work { IsActive S.Store work.old }
    requires goes_on { has_failed work.old ≡ false }
    ensures { ObeysToldUnder traced limits.now S.Store (command_of command.now)
        result work.old work.new }
{
    match command {
        AdminCommand::UserAdd(login, name) => {
            add_account(alloc, work, limits, login, *name, traced)
        }
        AdminCommand::UserDisable(login) => set_enabled(alloc, work, login, false, traced),
        AdminCommand::UserEnable(login) => set_enabled(alloc, work, login, true, traced),
        AdminCommand::TokenAdd(login, words, patterns, digest) => {
            add_token(alloc, work, limits, login, words, patterns, digest, traced)
        }
        AdminCommand::TokenRevoke(id) => revoke(alloc, work, *id, traced),
        AdminCommand::Reserve(name) => reserve(alloc, work, name, traced),
        AdminCommand::Unreserve(name) => unreserve(alloc, work, name, traced),
        AdminCommand::OwnerAdd(name, login) => add_owner(alloc, work, name, login, traced),
        AdminCommand::Access(name) => untold(report_access(alloc, work, name)),
        AdminCommand::Users => untold(report_users(alloc, work)),
        AdminCommand::Tokens => untold(report_tokens(alloc, work)),
        AdminCommand::Crates => untold(report_crates(alloc, work)),
        AdminCommand::CrateRestrict(name) => set_restricted(alloc, work, name, true, traced),
        AdminCommand::CrateOpen(name) => set_restricted(alloc, work, name, false, traced),
        AdminCommand::ReaderAdd(name, login) => add_reader(alloc, work, name, login, traced),
        AdminCommand::ReaderRemove(name, login) => remove_reader(alloc, work, name, login, traced),
    }
}
