//! Whether a request is allowed, and what was found on the way.

ghost use Rattle.std.specs.Prelude.{◌≡◌, IsSome, Some};
ghost use Rattle.std.specs.Option.{option_map};
ghost use Rattle.reg_policy.specs.Views.{action_of};
ghost use Rattle.reg_access.specs.Admitted.{IsAdmitted, decision_in, shown_crate};

use crate::facts::facts_of;
use crate::finding::CrateFacts;
use crate::found::CrateRow;
use reg_model::Rule;
use reg_names::CrateName;
use reg_policy::{Action, Decision, first_broken};
use reg_tables::TokenRow;

/// A crate that an action names.
#[derive(Drop)]
pub struct FoundCrate {
    /// Its id in the tables.
    pub id: u32,
    /// Its spelling, which may differ from the one that the action uses.
    pub name: CrateName,
}

/// Who is allowed, and the crate and the version of the action.
#[derive(Drop)]
pub struct Principal {
    /// The id of the token.
    pub token: u32,
    /// The id of the token's account.
    pub account: u32,
    /// The login of that account.
    pub login: String,
    /// The crate that the action names, if it is there. Only an action that names none, or one that
    /// publishes, is allowed without one.
    pub found: Option<FoundCrate>,
    /// The id in the tables of the version that a download, a yank or an unyank names. None of
    /// these is allowed without one.
    pub version: Option<u64>,
}

impl Principal {
    /// The crate of an action that is not allowed without one.
    pub fn found_crate(&self) -> &FoundCrate
        requires { IsSome self.now.found }
        ensures { self.now.found ≡ Some result.now }
    {
        self.found.as_ref().unwrap()
    }

    /// The version of an action that is not allowed without one: its id in the tables.
    pub fn found_version(&self) -> u64
        requires { IsSome self.now.version }
        ensures { self.now.version ≡ Some result }
    {
        self.version.unwrap()
    }
}

/// Whether a request is allowed.
#[derive(Drop)]
pub enum Admission {
    /// This is the first access rule that it breaks.
    Denied(Rule),
    /// It breaks none.
    Allowed(Principal),
}

impl Admission {
    /// The decision alone.
    pub fn decision(&self) -> Decision
        ensures { result ≡ decision_in self.now }
    {
        match self {
            Admission::Denied(rule) => Decision::Denied(*rule),
            Admission::Allowed(_) => Decision::Allowed,
        }
    }
}

fn crate_of_row(row: Option<CrateRow>) -> Option<FoundCrate>
    ensures { result ≡ option_map shown_crate row }
{
    match row {
        Some(row) => Some(FoundCrate {
            id: row.id,
            name: row.name,
        }),
        None => None,
    }
}

/// The admission of an action, given what was found.
pub(crate) fn admission_of(token: TokenRow, found: CrateFacts, action: &Action) -> Admission
    ensures { IsAdmitted (action_of action.now) token found result }
{
    match first_broken(&facts_of(&token, &found, action), action) {
        Decision::Denied(rule) => Admission::Denied(rule),
        Decision::Allowed => Admission::Allowed(Principal {
            token: token.id,
            account: token.account,
            login: token.login,
            found: crate_of_row(found.row),
            version: found.version,
        }),
    }
}
