//! The report on the accounts.

ghost use Rattle.std.specs.Prelude.{◌≡◌, ◌++◌, IfOk, OnOk, string_bytes};
ghost use Rattle.std.specs.List.{flat_map};
ghost use Rattle.reg_model.specs.Reports.{user_line, users_text};
ghost use Rattle.reg_tables_represent.specs.Entries.{entry_of_account};
ghost use Rattle.reg_tables.specs.Works.{IsActive};
ghost use Rattle.reg_tables.specs.Calling.{Queries};
ghost use Rattle.reg_service_commands.specs.Reports.{Reports};

use reg_policy::push_user_line;
use reg_tables::{Account, Result, Work};
use sqlite::Alter;
use std::alloc::{AllocError, Global};

fn push_user(report: &mut String, account: &Account) -> Result<(), AllocError>
    ensures { OnOk result (string_bytes report.new
        ≡ string_bytes report.old ++ user_line (entry_of_account account.now)) }
{
    let name = match &account.name {
        Some(name) => Some(name.as_str()),
        None => None,
    };
    push_user_line(
        report,
        account.id,
        account.login.as_str(),
        name,
        account.enabled,
    )
}

fn lines_of(alloc: Global, accounts: &[Account]) -> Result<String, AllocError>
    ensures { IfOk result (λ text. string_bytes text
        ≡ flat_map (λ a. user_line (entry_of_account a)) accounts.now) }
{
    let mut report = String::new(alloc);
    for account in accounts {
        push_user(&mut report, account)?;
    }
    Ok(report)
}

/// A line for each account, by id.
pub(crate) fn users_report<S: Alter>(alloc: Global, work: &mut Work<'_, S>) -> Result<String>
    requires { IsActive S.Store work.old }
    ensures { Queries S.Store work.old work.new result (Reports users_text) }
{
    let accounts = work.all_accounts(alloc)?;
    match lines_of(alloc, &accounts) {
        Ok(text) => Ok(text),
        Err(_) => work.fail(),
    }
}
