//! What each action is checked against: the rules on the state, and the endpoint that it needs.

ghost use Rattle.std.specs.Prelude.{◌≡◌, is_some, Option};
ghost use Rattle.reg_model.specs.Registry.{Text};
ghost use Rattle.reg_model.specs.Rules.{needed as needed_by, order as order_of};
ghost use Rattle.reg_policy.specs.Views.{action_of};

use crate::action::Action;
use reg_model::Endpoint;
use reg_model::Rule::{self, A2, A3, A4, A6, A7, A8, A9, A10, L1, L2, N2, N3, O2, O3, O4, V2};

/// The rules that are checked for an action, in order, given whether its crate is there.
pub fn rules_in_order(is_there: bool, action: &Action) -> &'static [Rule]
    ensures { (s : Option Text) → is_some s ≡ is_there
        → result.now ≡ order_of s (action_of action.now) }
{
    match action {
        Action::Read => &[A2, A3, A4],
        Action::Index(_) | Action::ListOwners(_) => &[A2, A3, A4, A8],
        Action::Download(_, _) => &[A2, A3, A4, A8, A10],
        Action::Publish(_, _) => {
            if is_there {
                &[A2, A3, A4, A6, A7, N3, A9, V2, L1]
            } else {
                &[A2, A3, A4, A6, A7, N2, L2]
            }
        }
        Action::Yank(_, _) | Action::Unyank(_, _) => &[A2, A3, A4, A6, A8, A7, A9, A10],
        Action::AddOwners(_, _) => &[A2, A3, A4, A6, A8, A7, A9, O2],
        Action::RemoveOwners(_, _) => &[A2, A3, A4, A6, A8, A7, A9, O3, O4],
    }
}

/// The endpoint that an action needs, given whether its crate is there; reading needs none.
pub fn needed(is_there: bool, action: &Action) -> Option<Endpoint>
    ensures { (s : Option Text) → is_some s ≡ is_there
        → result ≡ needed_by s (action_of action.now) }
{
    match action {
        Action::Read | Action::Index(_) | Action::Download(_, _) | Action::ListOwners(_) => None,
        Action::Publish(_, _) => {
            if is_there {
                Some(Endpoint::PublishUpdate)
            } else {
                Some(Endpoint::PublishNew)
            }
        }
        Action::Yank(_, _) | Action::Unyank(_, _) => Some(Endpoint::Yank),
        Action::AddOwners(_, _) | Action::RemoveOwners(_, _) => Some(Endpoint::ChangeOwners),
    }
}
