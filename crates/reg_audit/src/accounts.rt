//! The check of the base and the accounts.

ghost use Rattle.std.specs.Prelude.{◌≡◌, string_bytes};
ghost use Rattle.std.specs.List.{list_all};
ghost use Rattle.reg_audit.specs.Checks.{accounts_pass as accounts_pass_in, is_account as is_account_row};

use crate::texts::are_counted;
use reg_line::is_base;
use reg_names::parse_login;
use reg_policy::may_name;
use reg_tables::{Account, AllRows};

fn is_account(account: &Account) -> bool
    ensures { result ≡ is_account_row account.now }
{
    parse_login(&account.login).is_some() && may_name(account.name.as_deref())
}

fn are_accounts(accounts: &[Account]) -> bool
    ensures { result ≡ list_all is_account_row accounts.now }
{
    accounts.iter().all(|account| is_account(account))
}

/// Whether the base is valid, and the accounts have ids without gaps and well-formed logins and
/// names.
pub(crate) fn accounts_pass(rows: &AllRows) -> bool
    ensures { result ≡ accounts_pass_in rows.now }
{
    is_base(&rows.base) && are_counted(&rows.accounts) && are_accounts(&rows.accounts)
}
