//! Commands on crates: who owns and reads them, and whether all see them.

ghost use Rattle.std.specs.Prelude.{◌≡◌, false};
ghost use Rattle.reg_model.specs.Events.Command.{OwnerAdd, ReaderAdd, ReaderRemove};
ghost use Rattle.reg_tables.specs.Works.{IsActive, has_failed};
ghost use Rattle.reg_service_commands.specs.Orders.{restricting};
ghost use Rattle.reg_service_commands.specs.Telling.{ObeysTold, restricted_word};

use crate::finding::find_pair;
use crate::told::{TracedOrder, done_of, done_of_pair, refused};
use reg_model::AdminRefusal;
use reg_service_steps::{find_named, is_told};
use reg_tables::{Result, Work};
use sqlite::Alter;
use std::alloc::Global;

fn restricted_verb(restricted: bool) -> &'static str
    ensures { result.now ≡ restricted_word restricted }
{
    if restricted {
        "crate-restrict"
    } else {
        "crate-open"
    }
}

/// Lets everyone see a crate, or only its owners and readers.
pub(crate) fn set_restricted<S: Alter>(
    alloc: Global,
    work: &mut Work<'_, S>,
    name: &str,
    restricted: bool,
    traced: bool,
) -> Result<TracedOrder>
    requires at_work { IsActive S.Store work.old }
    requires goes_on { has_failed work.old ≡ false }
    ensures { ObeysTold traced S.Store (restricting restricted name.now)
        result work.old work.new }
{
    let Some(named) = find_named(work, name)? else {
        return Ok(refused(AdminRefusal::G8));
    };
    let changed = work.set_restricted(named.id, restricted)?;
    let told = is_told(traced, changed);
    let verb = restricted_verb(restricted);
    done_of(alloc, work, told, verb, &named.name)
}

/// Makes an account, enabled or not, an owner of a crate.
pub(crate) fn add_owner<S: Alter>(
    alloc: Global,
    work: &mut Work<'_, S>,
    name: &str,
    login: &str,
    traced: bool,
) -> Result<TracedOrder>
    requires at_work { IsActive S.Store work.old }
    requires goes_on { has_failed work.old ≡ false }
    ensures { ObeysTold traced S.Store (OwnerAdd name.now login.now) result work.old work.new }
{
    let (named, account) = match find_pair(work, name, login)? {
        Ok(pair) => pair,
        Err(refusal) => return Ok(refused(refusal)),
    };
    let added = work.add_owner(named.id, account)?;
    let told = is_told(traced, added);
    done_of_pair(alloc, work, told, "owner-add", &named.name, login)
}

/// Makes an account a reader of a crate.
pub(crate) fn add_reader<S: Alter>(
    alloc: Global,
    work: &mut Work<'_, S>,
    name: &str,
    login: &str,
    traced: bool,
) -> Result<TracedOrder>
    requires at_work { IsActive S.Store work.old }
    requires goes_on { has_failed work.old ≡ false }
    ensures { ObeysTold traced S.Store (ReaderAdd name.now login.now) result work.old work.new }
{
    let (named, account) = match find_pair(work, name, login)? {
        Ok(pair) => pair,
        Err(refusal) => return Ok(refused(refusal)),
    };
    let added = work.add_reader(named.id, account)?;
    let told = is_told(traced, added);
    done_of_pair(alloc, work, told, "reader-add", &named.name, login)
}

/// Removes an account from a crate's readers.
pub(crate) fn remove_reader<S: Alter>(
    alloc: Global,
    work: &mut Work<'_, S>,
    name: &str,
    login: &str,
    traced: bool,
) -> Result<TracedOrder>
    requires at_work { IsActive S.Store work.old }
    requires goes_on { has_failed work.old ≡ false }
    ensures { ObeysTold traced S.Store (ReaderRemove name.now login.now) result work.old work.new }
{
    let (named, account) = match find_pair(work, name, login)? {
        Ok(pair) => pair,
        Err(refusal) => return Ok(refused(refusal)),
    };
    let removed = work.remove_reader(named.id, account)?;
    let told = is_told(traced, removed);
    done_of_pair(alloc, work, told, "reader-remove", &named.name, login)
}
