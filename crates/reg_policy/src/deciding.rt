//! The first rule on the state that an action breaks.

ghost use Rattle.std.specs.Prelude.{◌≡◌};
ghost use Rattle.std.specs.List.{find, list_any};
ghost use Rattle.std.specs.Str.{bytes_eq};
ghost use Rattle.reg_names.specs.Names.{path_of};
ghost use Rattle.reg_body.specs.declared.limits.Limits.{Limits};
ghost use Rattle.reg_model.specs.Facts.{Counts};
ghost use Rattle.reg_model.specs.Registry.{holds};
ghost use Rattle.reg_model.specs.Rules.{access, has_endpoint, is_absent, is_misspelled, lacks, needed as needed_by, verdict};
ghost use Rattle.reg_policy.specs.Facts.{AreCounted, AreUncounted, access_in, is_broken, spelling_in};
ghost use Rattle.reg_policy.specs.Views.{action_of, decision_of};

use crate::action::{Action, Decision, Facts};
use crate::orders::{needed, rules_in_order};
use reg_model::{Endpoint, Endpoints, Rule};
use reg_names::index_path;

/// Whether two texts have the same bytes.
pub fn same_text(one: &str, other: &str) -> bool
    ensures { result ≡ bytes_eq one.now other.now }
{
    one == other
}

/// Whether a text is among these.
pub(crate) fn is_among(texts: &[&str], text: &str) -> bool
    ensures { result ≡ list_any (λ t. bytes_eq t.now text.now) texts.now }
{
    texts.iter().any(|known| same_text(known, text))
}

/// Whether a token with these endpoints has this one.
pub fn has_endpoint(endpoints: &Endpoints, endpoint: Endpoint) -> bool
    ensures { result ≡ has_endpoint endpoints.now endpoint }
{
    match endpoint {
        Endpoint::PublishNew => endpoints.publish_new,
        Endpoint::PublishUpdate => endpoints.publish_update,
        Endpoint::Yank => endpoints.yank,
        Endpoint::ChangeOwners => endpoints.change_owners,
    }
}

/// Whether the token lacks the endpoint that the action needs.
fn lacks_endpoint(facts: &Facts, action: &Action) -> bool
    ensures { result ≡ lacks facts.now.endpoints
        (needed_by (spelling_in facts.now) (action_of action.now)) }
{
    match needed(facts.first.is_some(), action) {
        Some(endpoint) => !has_endpoint(&facts.endpoints, endpoint),
        None => false,
    }
}

/// Whether this is the crate's path.
fn has_path(facts: &Facts, path: &str) -> bool
    ensures { result ≡ holds (λ n. bytes_eq (path_of n) path.now) (spelling_in facts.now) }
{
    match facts.first {
        Some(name) => same_text(index_path(name).as_str(), path),
        None => false,
    }
}

/// Whether the token sees no crate, or none at this path.
fn is_absent(facts: &Facts, action: &Action) -> bool
    ensures { result ≡ is_absent (access_in facts.now) (action_of action.now) }
{
    match action {
        Action::Index(path) => !(facts.is_visible && has_path(facts, path)),
        Action::Read | Action::Download(_, _) | Action::ListOwners(_) => !facts.is_visible,
        Action::Publish(_, _) | Action::Yank(_, _) | Action::Unyank(_, _) => !facts.is_visible,
        Action::AddOwners(_, _) | Action::RemoveOwners(_, _) => !facts.is_visible,
    }
}

/// Whether the crate is there, but spelled differently than published.
fn is_misspelled(facts: &Facts, action: &Action) -> bool
    ensures { result ≡ is_misspelled (access_in facts.now) (action_of action.now) }
{
    match action {
        Action::Publish(name, _) => match facts.first {
            Some(first) => !same_text(first.as_str(), name.as_str()),
            None => true,
        },
        Action::Read | Action::Index(_) | Action::Download(_, _) | Action::ListOwners(_) => false,
        Action::Yank(_, _) | Action::Unyank(_, _) => false,
        Action::AddOwners(_, _) | Action::RemoveOwners(_, _) => false,
    }
}

/// Whether the action breaks the rule.
fn broken(facts: &Facts, action: &Action, rule: Rule) -> bool
    ensures { result ≡ is_broken facts.now (action_of action.now) rule }
{
    match rule {
        Rule::A2 => !facts.is_known,
        Rule::A3 => !facts.is_live,
        Rule::A4 => !facts.is_enabled,
        Rule::A6 => lacks_endpoint(facts, action),
        Rule::A7 => !facts.is_covered,
        Rule::A8 => is_absent(facts, action),
        Rule::A9 => !facts.is_owner,
        Rule::A10 => !facts.has_version,
        Rule::N2 => facts.is_reserved,
        Rule::N3 => is_misspelled(facts, action),
        Rule::V2 => facts.has_release,
        Rule::L1 => facts.is_crate_full,
        Rule::L2 => facts.is_registry_full,
        Rule::O2 => !facts.are_known,
        Rule::O3 => !facts.are_owners,
        Rule::O4 => facts.are_all_owners,
        Rule::H1 | Rule::H2 | Rule::H3 | Rule::H4 | Rule::H5 | Rule::H6 | Rule::H7 => false,
        Rule::B1 | Rule::B2 | Rule::B3 | Rule::B4 | Rule::B5 => false,
        Rule::A1 | Rule::N1 | Rule::V1 | Rule::M1 | Rule::O1 | Rule::Q1 | Rule::S1 => false,
    }
}

/// The first of these rules that the action breaks.
fn first_among(rules: &[Rule], facts: &Facts, action: &Action) -> Decision
    ensures { result ≡ decision_of (find (is_broken facts.now (action_of action.now)) rules.now) }
{
    for rule in rules {
        if broken(facts, action, *rule) {
            return Decision::Denied(*rule);
        }
    }
    Decision::Allowed
}

/// The first rule on the state that the action breaks, in the action's order. Whether there is a
/// token, and what the body or query breaks, is judged before.
pub fn first_broken(facts: &Facts, action: &Action) -> Decision
    ensures counted { (limits : Limits) (c : Counts) → AreCounted limits c facts.now
        → result ≡ decision_of
        (verdict limits (access_in facts.now) c (action_of action.now)) }
    ensures uncounted { AreUncounted facts.now
        → result ≡ decision_of (access (access_in facts.now) (action_of action.now)) }
{
    first_among(rules_in_order(facts.first.is_some(), action), facts, action)
}
