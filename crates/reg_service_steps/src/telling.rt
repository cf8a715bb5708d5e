//! The line of what changes, from its words and from what differs.

ghost use Rattle.std.specs.Prelude.{◌≡◌, ◌&&◌, false, map, string_bytes};
ghost use Rattle.std.specs.List.{list_any};
ghost use Rattle.std.specs.Option.{option_map};
ghost use Rattle.std.specs.Str.{bytes_eq};
ghost use Rattle.reg_tables.specs.Works.{IsActive, has_failed};
ghost use Rattle.reg_tables.specs.Calling.{Queries};
ghost use Rattle.reg_service_steps.specs.Telling.{IsToldLine, differs, line_if};

use crate::lines::line_of;
use reg_policy::same_text;
use reg_tables::{Account, Result, Work};
use sqlite::Alter;
use std::alloc::{AllocError, Global};

/// Whether a line is to be told: one is wanted, and something changed.
pub fn is_told(traced: bool, changed: bool) -> bool
    ensures { result ≡ (traced && changed) }
{
    traced && changed
}

/// The line, unless there was no memory for it.
pub fn told_line<S: Alter>(
    work: &mut Work<'_, S>,
    line: Result<String, AllocError>,
) -> Result<Option<String>>
    requires at_work { IsActive S.Store work.old }
    requires goes_on { has_failed work.old ≡ false }
    ensures { Queries S.Store work.old work.new result (λ db found. IsToldLine line found) }
{
    match line {
        Ok(line) => Ok(Some(line)),
        Err(_) => work.fail(),
    }
}

/// The line of these words, if it is to be told.
pub fn tell_words<S: Alter>(
    alloc: Global,
    work: &mut Work<'_, S>,
    told: bool,
    words: &[&str],
) -> Result<Option<String>>
    requires at_work { IsActive S.Store work.old }
    requires goes_on { has_failed work.old ≡ false }
    ensures { Queries S.Store work.old work.new result (λ db found. option_map string_bytes found
        ≡ line_if told (map (λ w. w.now) words.now)) }
{
    if !told {
        return Ok(None);
    }
    told_line(work, line_of(alloc, words))
}

/// Whether the account has this login.
pub fn has_login(account: &Account, login: &str) -> bool
    ensures { result ≡ bytes_eq (string_bytes account.now.login) login.now }
{
    same_text(&account.login, login)
}

/// Whether one of the accounts has this login.
pub fn have_login(accounts: &[Account], login: &str) -> bool
    ensures { result ≡ list_any
        (λ a. bytes_eq (string_bytes a.login) login.now) accounts.now }
{
    accounts.iter().any(|account| has_login(account, login))
}

/// Whether what is so has yet to become so.
pub fn differs(is: bool, wanted: bool) -> bool
    ensures { result ≡ differs is wanted }
{
    if wanted { !is } else { is }
}
