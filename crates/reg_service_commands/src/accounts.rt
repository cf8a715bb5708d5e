//! Commands on accounts.

ghost use Rattle.std.specs.Prelude.{◌≡◌, ◌∷◌, ◌&&◌, codes, false, length, nat_le, string_bytes};
ghost use Rattle.std.specs.Option.{option_map};
ghost use Rattle.reg_names.specs.Logins.{is_login};
ghost use Rattle.reg_model.specs.Events.Command.{UserAdd};
ghost use Rattle.reg_model.specs.Refusals.{may_name as may_name_text};
ghost use Rattle.reg_tables.specs.Works.{IsActive, has_failed};
ghost use Rattle.reg_tables.specs.Calling.{Queries};
ghost use Rattle.reg_tables_represent.specs.Calls.{Tells};
ghost use Rattle.reg_model.specs.Trail.{name_words};
ghost use Rattle.reg_service_steps.specs.Telling.{line_if};
ghost use Rattle.reg_service_commands.specs.Orders.{account_refusal, enabling};
ghost use Rattle.reg_service_commands.specs.Telling.{ObeysTold, ObeysToldUnder, enabled_word};

use crate::finding::refused_if;
use crate::lines::new_user_line;
use crate::told::{TracedOrder, done_of, refused};
use reg_body::Limits;
use reg_model::AdminRefusal;
use reg_names::parse_login;
use reg_policy::{AdminReply, may_name};
use reg_service_steps::{differs, is_told, told_line};
use reg_tables::{Result, Work};
use sqlite::Alter;
use std::alloc::Global;

fn enabled_verb(enabled: bool) -> &'static str
    ensures { result.now ≡ enabled_word enabled }
{
    if enabled {
        "user-enable"
    } else {
        "user-disable"
    }
}

/// Enables or disables an account.
pub(crate) fn set_enabled<S: Alter>(
    alloc: Global,
    work: &mut Work<'_, S>,
    login: &str,
    enabled: bool,
    traced: bool,
) -> Result<TracedOrder>
    requires { IsActive S.Store work.old }
    ensures { ObeysTold traced S.Store (enabling enabled login.now) result work.old work.new }
{
    let Some(account) = work.account_by_login(login)? else {
        return Ok(refused(AdminRefusal::G3));
    };
    work.set_enabled(account.id, enabled)?;
    let told = is_told(traced, differs(account.enabled, enabled));
    done_of(alloc, work, told, enabled_verb(enabled), login)
}

/// Whether an account may have this login and this name.
#[tactic(auto, using(crate::proofs::Adding::is_login_so))]
fn is_account(login: &str, name: Option<&str>) -> bool
    ensures { result ≡ (is_login login.now && may_name_text (option_map (λ n. n.now) name.entry)) }
{
    parse_login(login).is_some() && may_name(name)
}

/// Whether there are as many accounts as allowed.
fn is_full<S: Alter>(work: &mut Work<'_, S>, limits: &Limits) -> Result<bool>
    requires { IsActive S.Store work.old }
    ensures { Queries S.Store work.old work.new result
        (λ db full. Tells (λ ids s. full ≡ nat_le limits.now.accounts (length s.accounts)) db) }
{
    let accounts = work.count_accounts()?;
    Ok(limits.accounts <= accounts)
}

/// Why an account with this login can't be added, if there is a reason.
fn refuses_account<S: Alter>(
    work: &mut Work<'_, S>,
    limits: &Limits,
    login: &str,
) -> Result<Option<AdminRefusal>>
    requires { IsActive S.Store work.old }
    ensures { Queries S.Store work.old work.new result (λ db found.
        Tells (λ ids s. account_refusal limits.now login.now s ≡ found) db) }
{
    let found = work.account_by_login(login)?;
    if found.is_some() {
        return Ok(Some(AdminRefusal::G2));
    }
    let full = is_full(work, limits)?;
    Ok(refused_if(AdminRefusal::G7, full))
}

/// The line of a new account, if it is to be told.
fn tell_account<S: Alter>(
    alloc: Global,
    work: &mut Work<'_, S>,
    told: bool,
    login: &str,
    name: Option<&str>,
) -> Result<Option<String>>
    requires at_work { IsActive S.Store work.old }
    requires goes_on { has_failed work.old ≡ false }
    ensures { Queries S.Store work.old work.new result (λ db line. option_map string_bytes line
        ≡ line_if told (codes "-" ∷ codes "admin" ∷ codes "user-add" ∷ login.now
        ∷ name_words (option_map (λ n. n.now) name.entry))) }
{
    if !told {
        return Ok(None);
    }
    told_line(work, new_user_line(alloc, login, name))
}

/// Adds an enabled account.
pub(crate) fn add_account<S: Alter>(
    alloc: Global,
    work: &mut Work<'_, S>,
    limits: &Limits,
    login: &str,
    name: Option<&str>,
    traced: bool,
) -> Result<TracedOrder>
    requires at_work { IsActive S.Store work.old }
    requires goes_on { has_failed work.old ≡ false }
    ensures { ObeysToldUnder traced limits.now S.Store
        (UserAdd login.now (option_map (λ n. n.now) name.entry)) result work.old work.new }
{
    if !is_account(login, name) {
        return Ok(refused(AdminRefusal::G1));
    }
    if let Some(refusal) = refuses_account(work, limits, login)? {
        return Ok(refused(refusal));
    }
    work.add_account(login, name)?;
    let line = tell_account(alloc, work, traced, login, name)?;
    Ok(TracedOrder {
        answer: Ok(AdminReply::Done),
        line,
    })
}
