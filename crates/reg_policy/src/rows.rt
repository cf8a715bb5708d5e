//! The facts that the rows about a caller and a crate state.

ghost use Rattle.std.specs.Prelude.{◌≡◌, ◌==◌, string_bytes};
ghost use Rattle.std.specs.List.{list_all, list_any};
ghost use Rattle.std.specs.Str.{bytes_eq};
ghost use Rattle.reg_names.specs.Patterns.{covers};
ghost use Rattle.reg_body.specs.declared.limits.Limits.{Limits};
ghost use Rattle.reg_model.specs.Registry.{Registry, Text, holds};
ghost use Rattle.reg_model.specs.Refusals.{judged};
ghost use Rattle.reg_model.specs.Crates.{same_release as same_release_of};
ghost use Rattle.reg_model.specs.Actions.{crate_of};
ghost use Rattle.reg_model.specs.Rules.{verdict};
ghost use Rattle.reg_policy.specs.Facts.{AreCounted, access_in};
ghost use Rattle.reg_policy.specs.Views.{access_of, action_of, counts_of, decision_of, endpoints_of, is_admitted, is_seen};
ghost use Rattle.reg_policy.specs.Rows.{IsRowsOf};

use crate::action::{Action, Decision, Facts, OwnerRow, Rows, TokenFacts};
use crate::deciding::{first_broken, same_text};
use crate::named::{crate_of, logins_of, version_of};
use reg_model::Endpoints;
use reg_names::{CrateName, Pattern, covers};
use reg_versions::same_release;

/// Whether one of the patterns covers the name.
pub fn is_covered(patterns: &[Pattern], name: &CrateName) -> bool
    ensures { result ≡ list_any (λ p. covers p name.now) patterns.now }
{
    patterns.iter().any(|pattern| covers(pattern, name))
}

/// Whether a pattern covers the crate that the action names.
fn is_crate_covered(patterns: &[Pattern], action: &Action) -> bool
    ensures { result ≡ holds (λ n. list_any (λ p. covers p n) patterns.now)
        (crate_of (action_of action.now)) }
{
    match crate_of(action) {
        Some(name) => is_covered(patterns, &name),
        None => false,
    }
}

/// The endpoints of a token. An unknown one has none.
fn endpoints_of(token: &Option<TokenFacts>) -> Endpoints
    ensures { result ≡ endpoints_of token.now }
{
    match token {
        Some(token) => token.endpoints,
        None => Endpoints {
            publish_new: false,
            publish_update: false,
            yank: false,
            change_owners: false,
        },
    }
}

fn is_live(token: &Option<TokenFacts>) -> bool
    ensures { result ≡ holds (λ t. t.live) token.now }
{
    match token {
        Some(token) => token.live,
        None => false,
    }
}

/// Whether the token's account is among the crate's owners.
fn is_owned(rows: &Rows) -> bool
    ensures { result ≡ holds (λ t. list_any (λ o. o.id == t.account) rows.now.owners.now)
        rows.now.token }
{
    match &rows.token {
        Some(token) => is_owner(rows, token.account),
        None => false,
    }
}

/// Whether the token's account is among the crate's owners or readers.
fn is_admitted(rows: &Rows) -> bool
    ensures { result ≡ is_admitted rows.now }
{
    match &rows.token {
        Some(token) => is_owner(rows, token.account) || is_reader(rows, token.account),
        None => false,
    }
}

/// Whether the token sees the crate: it exists, and it is not restricted or the account is
/// admitted.
fn is_seen(rows: &Rows) -> bool
    ensures { result ≡ is_seen rows.now }
{
    rows.first.is_some() && (!rows.restricted || is_admitted(rows))
}

fn has_id(owner: &OwnerRow, id: u32) -> bool
    ensures { result ≡ (owner.now.id == id) }
{
    owner.id == id
}

fn is_owner(rows: &Rows, id: u32) -> bool
    ensures { result ≡ list_any (λ o. o.id == id) rows.now.owners.now }
{
    rows.owners.iter().any(|owner| has_id(owner, id))
}

fn is_reader(rows: &Rows, id: u32) -> bool
    ensures { result ≡ list_any (λ reader. reader == id) rows.now.readers.now }
{
    rows.readers.contains(&id)
}

fn has_version(rows: &Rows, version: &str) -> bool
    ensures { result ≡ list_any (λ v. bytes_eq v.now version.now) rows.now.versions.now }
{
    rows.versions.iter().any(|known| same_text(known, version))
}

fn has_release(rows: &Rows, version: &str) -> bool
    ensures { result ≡ list_any (λ v. same_release_of v.now version.now) rows.now.versions.now }
{
    rows.versions
        .iter()
        .any(|known| same_release(known, version))
}

fn are_all(known: &[bool]) -> bool
    ensures { result ≡ list_all (λ b. b) known.now }
{
    known.iter().all(|b| *b)
}

fn owns_login(rows: &Rows, login: &str) -> bool
    ensures { result ≡ list_any (λ o. bytes_eq o.login.now login.now) rows.now.owners.now }
{
    rows.owners
        .iter()
        .any(|owner| same_text(owner.login, login))
}

fn is_named(logins: &[String], login: &str) -> bool
    ensures { result ≡ list_any (λ l. bytes_eq login.now (string_bytes l)) logins.now }
{
    logins.iter().any(|named| same_text(login, named))
}

fn are_owners(rows: &Rows, logins: &[String]) -> bool
    ensures { result ≡ list_all (λ l. list_any
        (λ o. bytes_eq o.login.now (string_bytes l)) rows.now.owners.now) logins.now }
{
    logins.iter().all(|login| owns_login(rows, login))
}

fn are_all_owners(rows: &Rows, logins: &[String]) -> bool
    ensures { result ≡ list_all (λ o. list_any
        (λ l. bytes_eq o.login.now (string_bytes l)) logins.now) rows.now.owners.now }
{
    rows.owners
        .iter()
        .all(|owner| is_named(logins, owner.login))
}

/// The facts that the rows state, for an action.
#[tactic(auto, using(reg_model::proofs::Lists::list_any_map))]
fn facts_of<'a>(rows: &Rows<'a>, action: &Action) -> Facts<'a>
    ensures access { access_in result ≡ access_of rows.now (action_of action.now) }
    ensures counts { AreCounted rows.now.limits.now (counts_of rows.now (action_of action.now))
        result }
{
    let version = version_of(action);
    let logins = logins_of(action);
    Facts {
        is_known: rows.token.is_some(),
        is_live: is_live(&rows.token),
        is_enabled: rows.enabled,
        endpoints: endpoints_of(&rows.token),
        is_covered: is_crate_covered(rows.patterns, action),
        first: rows.first,
        is_visible: is_seen(rows),
        is_owner: is_owned(rows),
        is_reserved: rows.reserved,
        has_version: has_version(rows, version),
        has_release: has_release(rows, version),
        is_crate_full: rows.limits.versions <= rows.versions.len() as u64,
        is_registry_full: rows.limits.crates <= rows.crates,
        are_known: are_all(rows.known),
        are_owners: are_owners(rows, logins),
        are_all_owners: are_all_owners(rows, logins),
    }
}

/// The first rule on the state that the action breaks, in the action's order. Whether there is a
/// token, and what the body or query breaks, is judged before.
pub fn decide(rows: &Rows, action: &Action) -> Decision
    ensures facts { result ≡ decision_of (verdict rows.now.limits.now
        (access_of rows.now (action_of action.now)) (counts_of rows.now (action_of action.now))
        (action_of action.now)) }
    ensures policy { (limits : Limits) (s : Registry) (digest : Text) → IsRowsOf limits s digest
        (action_of action.now) rows.now → result ≡ decision_of
        (judged limits s digest (action_of action.now)) }
{
    first_broken(&facts_of(rows, action), action)
}
