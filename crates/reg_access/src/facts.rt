//! The facts that a token and what was found about a crate are.

ghost use Rattle.std.specs.Prelude.{◌≡◌};
ghost use Rattle.reg_policy.specs.Facts.{AreUncounted, access_in};
ghost use Rattle.reg_policy.specs.Views.{action_of};
ghost use Rattle.reg_access.specs.Found.{facts_found, is_owned as is_owned_of, is_visible as is_visible_of, spelling_in};
ghost use Rattle.std.specs.Option.{option_map};
ghost use Rattle.reg_access.specs.Verdict.{is_always_reserved as is_always_reserved_of};

use crate::finding::CrateFacts;
use crate::found::CrateRow;
use reg_names::{CrateName, canon};
use reg_policy::{Action, Facts, crate_of, is_reserved_always};
use reg_tables::TokenRow;

fn spelling(row: &Option<CrateRow>) -> Option<&CrateName>
    ensures { option_map (λ n. n.now) result ≡ spelling_in row.now }
{
    match row {
        Some(row) => Some(&row.name),
        None => None,
    }
}

fn is_owned(row: &Option<CrateRow>) -> bool
    ensures { result ≡ is_owned_of row.now }
{
    match row {
        Some(row) => row.owner.is_some(),
        None => false,
    }
}

/// Whether the crate is there, and is unrestricted, or owned or read by the account.
fn is_visible(row: &Option<CrateRow>) -> bool
    ensures { result ≡ is_visible_of row.now }
{
    match row {
        Some(row) => { !row.restricted.is_some() || (row.owner.is_some() || row.reader.is_some()) }
        None => false,
    }
}

/// Whether the crate's name is always reserved.
fn is_always_reserved(action: &Action) -> bool
    ensures { result ≡ is_always_reserved_of (action_of action.now) }
{
    match crate_of(action) {
        Some(name) => is_reserved_always(&canon(&name)),
        None => false,
    }
}

/// The facts on access of a token that was found. Nothing else was counted or looked up.
pub(crate) fn facts_of<'a>(token: &TokenRow, found: &'a CrateFacts, action: &Action) -> Facts<'a>
    ensures access { access_in result
        ≡ facts_found (action_of action.now) token.now found.now }
    ensures uncounted { AreUncounted result }
{
    Facts {
        is_known: true,
        is_live: token.live,
        is_enabled: token.enabled,
        endpoints: token.endpoints,
        is_covered: found.covered,
        first: spelling(&found.row),
        is_visible: is_visible(&found.row),
        is_owner: is_owned(&found.row),
        is_reserved: is_always_reserved(action) || found.against,
        has_version: found.version.is_some(),
        has_release: found.against,
        is_crate_full: false,
        is_registry_full: false,
        are_known: true,
        are_owners: true,
        are_all_owners: false,
    }
}
