//! What a decision is about, and what it rests on.

use reg_body::Limits;
use reg_model::{Endpoints, Rule};
use reg_names::{CrateName, Pattern};

/// What a request does, as far as the rules on the state look at it. Crates and versions are as
/// written in a path.
#[derive(Drop)]
pub enum Action<'a> {
    /// Reads the config, or searches.
    Read,
    /// Reads the index file at a path.
    Index(&'a str),
    /// Downloads a version of a crate.
    Download(&'a str, &'a str),
    /// Lists a crate's owners.
    ListOwners(&'a str),
    /// Publishes a version of a name.
    Publish(&'a CrateName, &'a str),
    /// Yanks a version of a crate.
    Yank(&'a str, &'a str),
    /// Undoes a yank.
    Unyank(&'a str, &'a str),
    /// Makes the accounts with these logins owners of a crate.
    AddOwners(&'a str, &'a [String]),
    /// Removes these accounts from a crate's owners.
    RemoveOwners(&'a str, &'a [String]),
}

/// Whether the rules on the state allow an action, or the first one it breaks.
#[derive(Clone, Copy, Debug, PartialEq, Eq)]
pub enum Decision {
    Allowed,
    Denied(Rule),
}

/// A token, with the id of its account.
#[derive(Clone, Copy, Debug, PartialEq, Eq)]
pub struct TokenFacts {
    pub account: u32,
    pub live: bool,
    pub endpoints: Endpoints,
}

/// An owner of a crate: the id and the login of an account.
#[derive(Drop)]
pub struct OwnerRow<'a> {
    pub id: u32,
    pub login: &'a str,
}

/// All that the rules ask of a state, about one caller and the crate of one action.
#[derive(Drop)]
pub struct Facts<'a> {
    /// Whether the token is known.
    pub is_known: bool,
    /// Whether it is live.
    pub is_live: bool,
    /// Whether its account is enabled.
    pub is_enabled: bool,
    /// Its endpoints; none if it is unknown.
    pub endpoints: Endpoints,
    /// Whether a pattern of it covers the crate.
    pub is_covered: bool,
    /// The crate's spelling, if it exists.
    pub first: Option<&'a CrateName>,
    /// Whether the token may see the crate.
    pub is_visible: bool,
    /// Whether the token's account owns it.
    pub is_owner: bool,
    /// Whether its name is reserved.
    pub is_reserved: bool,
    /// Whether it has the version that the action names.
    pub has_version: bool,
    /// Whether it has a version of the same release.
    pub has_release: bool,
    /// Whether it has as many versions as a crate may have.
    pub is_crate_full: bool,
    /// Whether there are as many crates as there may be.
    pub is_registry_full: bool,
    /// Whether enabled accounts have the logins that the action names.
    pub are_known: bool,
    /// Whether owners of the crate have them.
    pub are_owners: bool,
    /// Whether they are the logins of all its owners.
    pub are_all_owners: bool,
}

/// What a registry holds about one caller and one crate.
#[derive(Drop)]
pub struct Rows<'a> {
    /// The token, if it is known.
    pub token: Option<TokenFacts>,
    /// Whether the token's account is enabled.
    pub enabled: bool,
    /// The token's patterns.
    pub patterns: &'a [Pattern],
    /// The crate's spelling, if it exists.
    pub first: Option<&'a CrateName>,
    /// The crate's owners.
    pub owners: &'a [OwnerRow<'a>],
    /// The crate's versions.
    pub versions: &'a [&'a str],
    /// Whether the crate's name is reserved.
    pub reserved: bool,
    /// Whether only the crate's owners and readers may see it.
    pub restricted: bool,
    /// The ids of the crate's readers.
    pub readers: &'a [u32],
    /// How many crates there are.
    pub crates: u64,
    /// For each login that the action names, whether an enabled account has it.
    pub known: &'a [bool],
    /// The limits of the registry.
    pub limits: &'a Limits,
}
