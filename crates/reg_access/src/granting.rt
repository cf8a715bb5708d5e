//! Who may act on a crate, asked of the tables.

ghost use Rattle.std.specs.Prelude.{◌≡◌, false, true};
ghost use Rattle.reg_names.specs.Names.{is_name};
ghost use Rattle.reg_tables_represent.specs.Calls.{FindsCrate};
ghost use Rattle.reg_tables.specs.Works.{IsActive, has_failed};
ghost use Rattle.reg_tables.specs.Calling.{Queries};
ghost use Rattle.reg_access.specs.Grants.{AreCandidates, AreGrants, AreOwnersOf, IsStanding, TellsTaken};

use crate::grants::{Grant, grants_of};
use reg_names::{CanonText, CrateName, canon};
use reg_policy::is_reserved_always;
use reg_tables::{Account, Crate, Result, TokenRow, Work};
use sqlite::{Alter, params};
use std::alloc::Global;

const FIND_CANDIDATES_TEXT: &str =
    "SELECT DISTINCT t.id, t.account, t.live, t.publish_new, t.publish_update, t.yank, \
    t.change_owners, a.login, a.enabled FROM scopes s JOIN tokens t ON s.token = t.id LEFT JOIN \
    accounts a ON a.id = t.account WHERE t.live = 1 AND a.enabled = 1 AND s.low <= ?1 AND ?1 < \
    s.high ORDER BY t.id";

/// The live tokens of enabled accounts that have a scope over the name, by id.
pub(crate) fn find_candidates<S: Alter>(
    alloc: Global,
    work: &mut Work<'_, S>,
    canon: &CanonText,
) -> Result<Vec<TokenRow>>
    requires { IsActive S.Store work.old }
    ensures { Queries S.Store work.old work.new result
        (λ db list. AreCandidates canon.now db list.items) }
{
    work.select_list(alloc, FIND_CANDIDATES_TEXT, params![canon.as_str()])
}

/// What a name says about tokens: who owns the crate, and whether a new one is impossible.
#[derive(Drop)]
pub(crate) struct Standing {
    pub owners: Vec<Account>,
    pub taken: bool,
}

/// The crate with this canonical text.
pub(crate) fn find_named<S: Alter>(
    work: &mut Work<'_, S>,
    canon: &CanonText,
) -> Result<Option<Crate>>
    requires { IsActive S.Store work.old }
    ensures { Queries S.Store work.old work.new result (FindsCrate canon.now) }
{
    work.crate_by_canon(canon)
}

fn find_owners<S: Alter>(
    alloc: Global,
    work: &mut Work<'_, S>,
    found: &Option<Crate>,
) -> Result<Vec<Account>>
    requires at_work { IsActive S.Store work.old }
    requires goes_on { has_failed work.old ≡ false }
    ensures { Queries S.Store work.old work.new result
        (λ db list. AreOwnersOf found.now db list.items) }
{
    match found {
        Some(it) => work.owners_of(alloc, it.id),
        None => Ok(Vec::new(alloc)),
    }
}

fn is_taken<S: Alter>(
    work: &mut Work<'_, S>,
    found: &Option<Crate>,
    canon: &CanonText,
) -> Result<bool>
    requires at_work { IsActive S.Store work.old }
    requires goes_on { has_failed work.old ≡ false }
    ensures { Queries S.Store work.old work.new result (TellsTaken found.now canon.now) }
{
    if found.is_some() {
        return Ok(true);
    }
    if is_reserved_always(canon) {
        return Ok(true);
    }
    work.is_reserved(canon)
}

fn standing_of<S: Alter>(
    alloc: Global,
    work: &mut Work<'_, S>,
    found: &Option<Crate>,
    canon: &CanonText,
) -> Result<Standing>
    requires at_work { IsActive S.Store work.old }
    requires goes_on { has_failed work.old ≡ false }
    ensures { Queries S.Store work.old work.new result (λ db it.
        AreOwnersOf found.now db it.owners.items
        × TellsTaken found.now canon.now db it.taken) }
{
    let owners = find_owners(alloc, work, found)?;
    let taken = is_taken(work, found, canon)?;
    Ok(Standing { owners, taken })
}

fn find_standing<S: Alter>(
    alloc: Global,
    work: &mut Work<'_, S>,
    canon: &CanonText,
) -> Result<Standing>
    requires { IsActive S.Store work.old }
    ensures { Queries S.Store work.old work.new result (IsStanding canon.now) }
{
    let found = find_named(work, canon)?;
    standing_of(alloc, work, &found, canon)
}

/// A crate name is a name: the body is there for the prover, which knows a name's form once its
/// text is read.
fn is_named(name: &CrateName)
    ensures { is_name name.now ≡ true }
{
    let _ = name.as_str();
}

/// Each token and endpoint that may be used on a crate, once, by token and then by endpoint.
pub fn who_may<S: Alter>(
    alloc: Global,
    work: &mut Work<'_, S>,
    name: &CrateName,
) -> Result<Vec<Grant>>
    requires { IsActive S.Store work.old }
    ensures { Queries S.Store work.old work.new result
        (λ db list. AreGrants name.now db list.items) }
{
    is_named(name);
    let text = canon(name);
    let standing = find_standing(alloc, work, &text)?;
    let rows = find_candidates(alloc, work, &text)?;
    match grants_of(alloc, &rows, &standing.owners, !standing.taken) {
        Ok(list) => Ok(list),
        Err(_) => work.fail(),
    }
}
