//! Who reads a restricted crate, asked of the tables.

ghost use Rattle.std.specs.Prelude.{◌≡◌, IfOk, false, map};
ghost use Rattle.reg_tables_represent.specs.Calls.{FindsCrate};
ghost use Rattle.reg_tables.specs.Works.{IsActive, has_failed};
ghost use Rattle.reg_tables.specs.Calling.{Queries};
ghost use Rattle.reg_access.specs.Grants.{AreReaders, AreReadersAt, AreReadersOf, reader_of};

use crate::granting::find_named;
use reg_names::{CrateName, Login, canon, parse_login};
use reg_tables::{Account, Crate, Result, Work};
use sqlite::{Alter, Error};
use std::alloc::Global;

fn readers_at<S: Alter>(alloc: Global, work: &mut Work<'_, S>, id: u32) -> Result<Vec<Account>>
    requires { IsActive S.Store work.old }
    ensures { Queries S.Store work.old work.new result
        (λ db list. AreReadersAt id db list.items) }
{
    if !work.is_restricted(id)? {
        return Ok(Vec::new(alloc));
    }
    work.readers_of(alloc, id)
}

fn find_readers<S: Alter>(
    alloc: Global,
    work: &mut Work<'_, S>,
    found: &Option<Crate>,
) -> Result<Vec<Account>>
    requires at_work { IsActive S.Store work.old }
    requires goes_on { has_failed work.old ≡ false }
    ensures { Queries S.Store work.old work.new result
        (λ db list. AreReadersOf found.now db list.items) }
{
    match found {
        Some(it) => readers_at(alloc, work, it.id),
        None => Ok(Vec::new(alloc)),
    }
}

fn reader_of(account: &Account) -> Result<(u32, Login), Error>
    ensures { IfOk result (λ reader. reader ≡ reader_of account.now) }
{
    match parse_login(&account.login) {
        Some(login) => Ok((account.id, login)),
        None => Err(Error::InvalidQuery),
    }
}

fn readers_from(alloc: Global, accounts: &[Account]) -> Result<Vec<(u32, Login)>, Error>
    ensures { IfOk result (λ list. list.items ≡ map reader_of accounts.now) }
{
    let mut list = Vec::new(alloc);
    for account in accounts {
        list.push(reader_of(account)?)?;
    }
    Ok(list)
}

/// The readers that the administrator gave a restricted crate, by id, each with its login; none for
/// a crate that is open to all, or not there.
pub fn who_reads<S: Alter>(
    alloc: Global,
    work: &mut Work<'_, S>,
    name: &CrateName,
) -> Result<Vec<(u32, Login)>>
    requires { IsActive S.Store work.old }
    ensures { Queries S.Store work.old work.new result
        (λ db list. AreReaders name.now db list.items) }
{
    let found = find_named(work, &canon(name))?;
    let accounts = find_readers(alloc, work, &found)?;
    match readers_from(alloc, &accounts) {
        Ok(list) => Ok(list),
        Err(_) => work.fail(),
    }
}
