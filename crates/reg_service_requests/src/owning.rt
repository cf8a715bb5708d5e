//! Changing the owners of crates.

ghost use Rattle.std.specs.Prelude.{◌≡◌, IfOk, IsSome, false, map, string_bytes};
ghost use Rattle.std.specs.List.{find, list_all, list_any};
ghost use Rattle.std.specs.Option.{option_map};
ghost use Rattle.std.specs.Str.{bytes_eq};
ghost use Rattle.reg_model.specs.Events.Asked.{AddOwners};
ghost use Rattle.reg_model.specs.Facts.{has_login as has_login_of};
ghost use Rattle.reg_tables.specs.Works.{IsActive, has_failed};
ghost use Rattle.reg_tables.specs.Calling.{Queries, UpdatesBy, Updates};
ghost use Rattle.reg_service_requests.specs.Granted.{GrantsOf};
ghost use Rattle.reg_service_requests.specs.Owning.{AreIdsOf, AreLeaving, DoesOwning, FindsAllKnown, FindsKnown, GrantsAmong, SaysOwning, SetsOwner, SetsOwners, enabled_id, entries_of, id_among, owning};
ghost use Rattle.reg_service_requests.specs.Telling.{GrantsTold, changes};

use crate::served::Served;
use crate::telling::tell_owners;
use crate::told::TracedServed;
use reg_access::{FoundCrate, Principal};
use reg_api_replies::{Kind, Reply, owners_added_body, owners_removed_body};
use reg_policy::Rule;
use reg_service_steps::{differs, has_login, have_login, is_told};
use reg_tables::{Account, Result, Work};
use sqlite::Alter;
use std::alloc::{AllocError, Global};

/// The id of an account if enabled.
fn id_if_enabled(found: &Option<Account>) -> Option<u32>
    ensures { result ≡ enabled_id found.now }
{
    match found {
        Some(account) if account.enabled => Some(account.id),
        _ => None,
    }
}

/// The id of the enabled account with this login, if there is one.
fn find_known<S: Alter>(work: &mut Work<'_, S>, login: &str) -> Result<Option<u32>>
    requires { IsActive S.Store work.old }
    ensures { Queries S.Store work.old work.new result (FindsKnown login.now) }
{
    let found = work.account_by_login(login)?;
    Ok(id_if_enabled(&found))
}

/// The ids of the enabled accounts with these logins; none unless each has one.
fn find_all_known<S: Alter>(
    alloc: Global,
    work: &mut Work<'_, S>,
    logins: &[String],
) -> Result<Option<Vec<u32>>>
    requires at_work { IsActive S.Store work.old }
    requires goes_on { has_failed work.old ≡ false }
    ensures { Queries S.Store work.old work.new result (FindsAllKnown
        (map string_bytes logins.now)) }
{
    let mut ids = Vec::new(alloc);
    for login in logins {
        let Some(id) = find_known(work, login)? else {
            return Ok(None);
        };
        if ids.push(id).is_err() {
            return work.fail();
        }
    }
    Ok(Some(ids))
}

/// The id of the owner with this login, if there is one.
fn id_of_owner(owners: &[Account], login: &str) -> Option<u32>
    ensures { result ≡ option_map (λ a. a.id)
        (find (λ a. bytes_eq (string_bytes a.login) login.now) owners.now) }
{
    let found = owners.iter().find(|owner| has_login(owner, login));
    found.map(|owner| owner.id)
}

/// The ids of the owners with these logins; none unless each has one.
fn ids_of_owners(
    alloc: Global,
    owners: &[Account],
    logins: &[String],
) -> Result<Option<Vec<u32>>, AllocError>
    ensures { IfOk result (AreIdsOf (has_login_of (entries_of owners.now))
        (id_among (entries_of owners.now)) (map string_bytes logins.now)) }
{
    let mut ids = Vec::new(alloc);
    for login in logins {
        match id_of_owner(owners, login) {
            Some(id) => ids.push(id)?,
            None => return Ok(None),
        }
    }
    Ok(Some(ids))
}

fn is_named(logins: &[String], owner: &Account) -> bool
    ensures { result ≡ list_any
        (λ l. bytes_eq (string_bytes owner.now.login) (string_bytes l)) logins.now }
{
    logins.iter().any(|login| has_login(owner, login))
}

fn are_all_named(owners: &[Account], logins: &[String]) -> bool
    ensures { result ≡ list_all (λ o. list_any
        (λ l. bytes_eq (string_bytes o.login) (string_bytes l)) logins.now) owners.now }
{
    owners.iter().all(|owner| is_named(logins, owner))
}

/// The ids of the owners who leave; each must be an owner, and someone must remain.
fn ids_leaving(
    alloc: Global,
    owners: &[Account],
    logins: &[String],
) -> Result<Result<Vec<u32>, Rule>, AllocError>
    ensures { IfOk result (AreLeaving owners.now (map string_bytes logins.now)) }
{
    let Some(ids) = ids_of_owners(alloc, owners, logins)? else {
        return Ok(Err(Rule::O3));
    };
    let are_named = are_all_named(owners, logins);
    if are_named {
        return Ok(Err(Rule::O4));
    }
    Ok(Ok(ids))
}

/// Adds or removes an account as an owner of a crate.
fn set_owner<S: Alter>(
    work: &mut Work<'_, S>,
    crate_id: u32,
    account: u32,
    is_owner: bool,
) -> Result<bool>
    requires { IsActive S.Store work.old }
    ensures { UpdatesBy S.Store work.old work.new result (SetsOwner is_owner crate_id account) }
{
    if is_owner {
        work.add_owner(crate_id, account)
    } else {
        work.remove_owner(crate_id, account)
    }
}

/// Adds or removes accounts as owners of a crate.
fn set_owners<S: Alter>(
    work: &mut Work<'_, S>,
    crate_id: u32,
    accounts: &[u32],
    are_owners: bool,
) -> Result<()>
    requires at_work { IsActive S.Store work.old }
    requires goes_on { has_failed work.old ≡ false }
    ensures { Updates S.Store work.old work.new result
        (λ before after it. SetsOwners are_owners crate_id accounts.now before after) }
{
    for account in accounts {
        set_owner(work, crate_id, *account, are_owners)?;
    }
    Ok(())
}

/// The reply that says that owners were changed.
fn owning_reply(alloc: Global, are_owners: bool) -> Result<Reply, AllocError>
    ensures { IfOk result (SaysOwning are_owners) }
{
    let body = if are_owners {
        owners_added_body()
    } else {
        owners_removed_body()
    };
    Ok(Reply::Done(Kind::Json, body.to_vec(alloc)?))
}

/// Changes the owners, and says so. The reply is made first: nothing allocates after that.
fn change_owners<S: Alter>(
    alloc: Global,
    work: &mut Work<'_, S>,
    crate_id: u32,
    accounts: &[u32],
    are_owners: bool,
) -> Result<Served>
    requires at_work { IsActive S.Store work.old }
    requires goes_on { has_failed work.old ≡ false }
    ensures { Updates S.Store work.old work.new result
        (DoesOwning are_owners crate_id accounts.now) }
{
    let Ok(reply) = owning_reply(alloc, are_owners) else {
        return work.fail();
    };
    set_owners(work, crate_id, accounts, are_owners)?;
    Ok(Served::Done(reply))
}

/// Makes the accounts with these logins owners of a crate, or none of them.
fn add_owners<S: Alter>(
    alloc: Global,
    work: &mut Work<'_, S>,
    found: &FoundCrate,
    logins: &[String],
) -> Result<Served>
    requires at_work { IsActive S.Store work.old }
    requires goes_on { has_failed work.old ≡ false }
    ensures { GrantsOf found.now S.Store (λ name. AddOwners name (map string_bytes logins.now))
        result work.old work.new }
{
    match find_all_known(alloc, work, logins)? {
        Some(accounts) => change_owners(alloc, work, found.id, &accounts, true),
        None => Ok(Served::ReadOnly(Reply::Denied(Rule::O2))),
    }
}

/// Removes the accounts with these logins from these owners of a crate, or none of them.
fn remove_owners<S: Alter>(
    alloc: Global,
    work: &mut Work<'_, S>,
    found: &FoundCrate,
    owners: &[Account],
    logins: &[String],
) -> Result<Served>
    requires at_work { IsActive S.Store work.old }
    requires goes_on { has_failed work.old ≡ false }
    ensures { GrantsAmong owners.now found.now S.Store false (map string_bytes logins.now)
        result work.old work.new }
{
    match ids_leaving(alloc, owners, logins) {
        Ok(Ok(accounts)) => change_owners(alloc, work, found.id, &accounts, false),
        Ok(Err(rule)) => Ok(Served::ReadOnly(Reply::Denied(rule))),
        Err(_) => work.fail(),
    }
}

/// Adds the accounts with these logins to these owners of a crate, or removes them.
fn set_all<S: Alter>(
    alloc: Global,
    work: &mut Work<'_, S>,
    found: &FoundCrate,
    owners: &[Account],
    logins: &[String],
    are_owners: bool,
) -> Result<Served>
    requires at_work { IsActive S.Store work.old }
    requires goes_on { has_failed work.old ≡ false }
    ensures { GrantsAmong owners.now found.now S.Store are_owners (map string_bytes logins.now)
        result work.old work.new }
{
    if are_owners {
        add_owners(alloc, work, found, logins)
    } else {
        remove_owners(alloc, work, found, owners, logins)
    }
}

/// Whether an account with one of these logins is not yet what it is to be.
fn changes_owners(owners: &[Account], logins: &[String], are_owners: bool) -> bool
    ensures { result ≡ changes are_owners
        (λ l. list_any (λ a. bytes_eq (string_bytes a.login) (string_bytes l)) owners.now)
        logins.now }
{
    logins
        .iter()
        .any(|login| differs(have_login(owners, login), are_owners))
}

/// Makes the accounts with these logins owners of the crate that was found, or no longer, and tells
/// it if this changes anything.
pub(crate) fn own<S: Alter>(
    alloc: Global,
    work: &mut Work<'_, S>,
    principal: &Principal,
    logins: &[String],
    are_owners: bool,
    traced: bool,
) -> Result<TracedServed>
    requires at_work { IsActive S.Store work.old }
    requires there { IsSome principal.now.found }
    ensures { (limits : _) (name : _) → GrantsTold traced limits principal.now S.Store
        (owning are_owners name (map string_bytes logins.now)) result work.old work.new }
{
    let found = principal.found_crate();
    let owners = work.owners_of(alloc, found.id)?;
    let changed = changes_owners(&owners, logins, are_owners);
    let served = set_all(alloc, work, found, &owners, logins, are_owners)?;
    let told = is_told(traced, changed);
    let name = found.name.as_str();
    let line = tell_owners(alloc, work, principal, told, name, logins, are_owners)?;
    Ok(TracedServed { served, line })
}
