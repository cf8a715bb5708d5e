//! What an action names.

ghost use Rattle.std.specs.Prelude.{◌≡◌, map, string_bytes};
ghost use Rattle.reg_model.specs.Actions.{crate_of, logins_of, version_of};
ghost use Rattle.reg_policy.specs.Views.{action_of};

use crate::action::Action;
use reg_names::{CrateName, name_of_path, parse_name};

/// The name of the crate that an action is about; none if the text there is no crate name.
pub fn crate_of(action: &Action) -> Option<CrateName>
    ensures { result ≡ crate_of (action_of action.now) }
{
    match action {
        Action::Read => None,
        Action::Index(path) => name_of_path(path),
        Action::Download(name, _) => parse_name(name),
        Action::ListOwners(name) => parse_name(name),
        Action::Publish(name, _) => Some(name.copy()),
        Action::Yank(name, _) => parse_name(name),
        Action::Unyank(name, _) => parse_name(name),
        Action::AddOwners(name, _) => parse_name(name),
        Action::RemoveOwners(name, _) => parse_name(name),
    }
}

/// The version that an action names.
pub(crate) fn version_of<'a>(action: &Action<'a>) -> &'a str
    ensures { result.now ≡ version_of (action_of action.now) }
{
    match action {
        Action::Read => "",
        Action::Index(_) => "",
        Action::Download(_, version) => version,
        Action::ListOwners(_) => "",
        Action::Publish(_, version) => version,
        Action::Yank(_, version) => version,
        Action::Unyank(_, version) => version,
        Action::AddOwners(_, _) => "",
        Action::RemoveOwners(_, _) => "",
    }
}

/// The logins that an action names.
pub fn logins_of<'a>(action: &Action<'a>) -> &'a [String]
    ensures { map string_bytes result.now ≡ logins_of (action_of action.now) }
{
    match action {
        Action::Read => &[],
        Action::Index(_) => &[],
        Action::Download(_, _) => &[],
        Action::ListOwners(_) => &[],
        Action::Publish(_, _) => &[],
        Action::Yank(_, _) => &[],
        Action::Unyank(_, _) => &[],
        Action::AddOwners(_, logins) => logins,
        Action::RemoveOwners(_, logins) => logins,
    }
}
