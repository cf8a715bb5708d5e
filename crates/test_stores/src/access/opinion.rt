//! A second opinion: the policy's own decision, of rows that are selected one table at a time.

ghost use Rattle.std.specs.Prelude.{◌≡◌};
ghost use Rattle.reg_tables.specs.Works.{IsActive};

use crate::access::fault::Fault;
use reg_body::Limits;
use reg_line::Digest;
use reg_model::Rule;
use reg_names::{CanonText, CrateName, Pattern, canon, parse_name};
use reg_policy::{
    Action, Decision, OwnerRow, Rows, TokenFacts, crate_of, decide, is_reserved_always,
};
use reg_tables::{Account, Crate, Scope, TokenRow, TokenRows, Version, Work};
use sqlite::Alter;
use std::alloc::{AllocError, Global};

/// What the tables say of the crate of an action.
#[derive(Drop)]
struct Known {
    first: Option<CrateName>,
    owners: Vec<Account>,
    readers: Vec<Account>,
    restricted: bool,
    versions: Vec<Version>,
    reserved: bool,
}

fn nothing_known(alloc: Global) -> Known {
    Known {
        first: None,
        owners: Vec::new(alloc),
        readers: Vec::new(alloc),
        restricted: false,
        versions: Vec::new(alloc),
        reserved: false,
    }
}

fn known_of<S: Alter>(alloc: Global, work: &mut Work<'_, S>, it: &Crate) -> Result<Known, Fault>
    requires { IsActive S.Store work.old }
    ensures at_work { IsActive S.Store work.new }
    ensures same_reference { work.new.tables.ghost_name ≡ work.old.tables.ghost_name }
{
    let owners = work.owners_of(alloc, it.id)?;
    let readers = work.readers_of(alloc, it.id)?;
    let versions = work.versions_of(alloc, it.id)?;
    Ok(Known {
        first: parse_name(&it.name),
        owners,
        readers,
        restricted: work.is_restricted(it.id)?,
        versions,
        reserved: false,
    })
}

fn named<S: Alter>(alloc: Global, work: &mut Work<'_, S>, text: &CanonText) -> Result<Known, Fault>
    requires { IsActive S.Store work.old }
    ensures at_work { IsActive S.Store work.new }
    ensures same_reference { work.new.tables.ghost_name ≡ work.old.tables.ghost_name }
{
    match work.crate_by_canon(text)? {
        Some(it) => known_of(alloc, work, &it),
        None => Ok(Known {
            reserved: is_reserved_always(text) || work.is_reserved(text)?,
            ..nothing_known(alloc)
        }),
    }
}

fn patterns_of(alloc: Global, scopes: &[Scope]) -> Result<Vec<Pattern>, AllocError> {
    let mut patterns = Vec::new(alloc);
    for scope in scopes {
        if let Some(pattern) = Pattern::parse(&scope.pattern) {
            patterns.push(pattern)?;
        }
    }
    Ok(patterns)
}

fn owner_rows<'a>(alloc: Global, owners: &'a [Account]) -> Result<Vec<OwnerRow<'a>>, AllocError> {
    let mut rows = Vec::new(alloc);
    for owner in owners {
        rows.push(OwnerRow {
            id: owner.id,
            login: &owner.login,
        })?;
    }
    Ok(rows)
}

fn ids_of(alloc: Global, accounts: &[Account]) -> Result<Vec<u32>, AllocError> {
    let mut ids = Vec::new(alloc);
    for account in accounts {
        ids.push(account.id)?;
    }
    Ok(ids)
}

fn texts_of<'a>(alloc: Global, versions: &'a [Version]) -> Result<Vec<&'a str>, AllocError> {
    let mut texts = Vec::new(alloc);
    for version in versions {
        texts.push(version.vers.as_str())?;
    }
    Ok(texts)
}

fn facts_of(token: &TokenRow) -> TokenFacts {
    TokenFacts {
        account: token.account,
        live: token.live,
        endpoints: token.endpoints,
    }
}

/// The decision, of which the rules that are no joins' are left out.
fn of_access(decision: Decision) -> Decision {
    match decision {
        Decision::Denied(Rule::O2 | Rule::O3 | Rule::O4 | Rule::L1 | Rule::L2) => Decision::Allowed,
        other => other,
    }
}

fn judged(
    alloc: Global,
    token: Option<&TokenRow>,
    patterns: &[Pattern],
    known: &Known,
    action: &Action,
) -> Result<Decision, AllocError> {
    let owners = owner_rows(alloc, &known.owners)?;
    let readers = ids_of(alloc, &known.readers)?;
    let versions = texts_of(alloc, &known.versions)?;
    let enabled = match token {
        Some(token) => token.enabled,
        None => false,
    };
    let rows = Rows {
        token: token.map(facts_of),
        enabled,
        patterns,
        first: known.first.as_ref(),
        owners: &owners,
        versions: &versions,
        reserved: known.reserved,
        restricted: known.restricted,
        readers: &readers,
        crates: 0,
        known: &[true],
        limits: &Limits::STANDARD,
    };
    Ok(of_access(decide(&rows, action)))
}

fn judged_of(
    alloc: Global,
    found: Option<&TokenRows>,
    known: &Known,
    action: &Action,
) -> Result<Decision, AllocError> {
    match found {
        Some(found) => {
            let patterns = patterns_of(alloc, &found.scopes)?;
            judged(alloc, Some(&found.token), &patterns, known, action)
        }
        None => judged(alloc, None, &[], known, action),
    }
}

/// The policy's decision on access.
pub(crate) fn second_opinion<S: Alter>(
    alloc: Global,
    work: &mut Work<'_, S>,
    digest: &Digest,
    action: &Action,
) -> Result<Decision, Fault>
    requires { IsActive S.Store work.old }
    ensures at_work { IsActive S.Store work.new }
    ensures same_reference { work.new.tables.ghost_name ≡ work.old.tables.ghost_name }
{
    let found = work.token_rows(alloc, digest)?;
    let known = match crate_of(action) {
        Some(name) => named(alloc, work, &canon(&name))?,
        None => nothing_known(alloc),
    };
    Ok(judged_of(alloc, found.as_ref(), &known, action)?)
}
