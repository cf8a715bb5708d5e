//! The words of an action.

use reg_names::CrateName;
use reg_policy::Action;

fn reading<'a>(words: &[&'a str]) -> Option<Action<'a>> {
    Some(match words {
        ["config"] => Action::Read,
        ["index", path] => Action::Index(path),
        ["download", name, version] => Action::Download(name, version),
        ["owners", name] => Action::ListOwners(name),
        _ => return None,
    })
}

fn changing<'a>(words: &[&'a str]) -> Option<Action<'a>> {
    Some(match words {
        ["yank", name, version] => Action::Yank(name, version),
        ["unyank", name, version] => Action::Unyank(name, version),
        ["add-owners", name] => Action::AddOwners(name, &[]),
        ["remove-owners", name] => Action::RemoveOwners(name, &[]),
        _ => return None,
    })
}

/// The action that these words are, where they publish nothing.
pub(crate) fn action_of<'a>(words: &[&'a str]) -> Option<Action<'a>> {
    match reading(words) {
        Some(action) => Some(action),
        None => changing(words),
    }
}

pub(crate) fn publication<'a>(name: &'a CrateName, version: &'a str) -> Action<'a> {
    Action::Publish(name, version)
}
