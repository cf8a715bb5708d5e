//! Where a crate's file stands in the index (the Cargo Book, "Registry Index", "Index files").

ghost use Rattle.std.specs.Prelude.{◌≡◌, ◌+◌, ◌<◌, ◌≤◌, ◌↔◌, ℕ, List, Some, length, slice_index, true, [], ◌++◌};
ghost use Rattle.std.specs.Str.{IsAscii};
ghost use Rattle.reg_names.specs.Names.{IsPathOf, IsPathText, folder_of, is_name, lower, name_at, path_of};

use crate::name::{CrateName, lower, parse_name};
use arrayvec::ArrayString;
use std::marker::Model;

/// The most bytes in an index path: a folder of 6 and a name of 64.
pub const LONGEST_PATH: usize = 70;

/// The index path of some crate name, like `ca/rg/cargo`.
#[derive(Drop)]
pub struct PathText(ArrayString<LONGEST_PATH>);

impl Model for PathText {
    ghost Value = { List ℕ };

    ghost view = { λ p. p.0.bytes };

    ghost invariant = { λ p. IsPathText p.0.bytes };
}

impl PathText {
    /// The path, without a slash at either end.
    pub fn as_str(&self) -> &str
        ensures { result.now ≡ self.now }
    {
        self.0.as_str()
    }
}

/// The folder of a lower-case name, with its trailing slash.
#[tactic(auto, using(crate::proofs::Folders::three, crate::proofs::Folders::longer))]
fn folder(name: &str) -> ArrayString<6>
    requires { IsAscii name.now }
    ensures { result.bytes ≡ folder_of name.now }
{
    let mut text = ArrayString::new();
    match name.len() {
        0 => {}
        1 => text.push_str("1/"),
        2 => text.push_str("2/"),
        3 => {
            text.push_str("3/");
            text.push_str(&name[..1]);
            text.push_str("/");
        }
        _ => {
            text.push_str(&name[..2]);
            text.push_str("/");
            text.push_str(&name[2..4]);
            text.push_str("/");
        }
    }
    text
}

/// The path of a crate's index file.
pub fn index_path(name: &CrateName) -> PathText
    ensures { result ≡ path_of name.now }
{
    let name = lower(name);
    let mut text = ArrayString::new();
    text.push_str(folder(name.as_str()).as_str());
    text.push_str(name.as_str());
    PathText(text)
}

/// The length of a path's folder, from the length of the path.
#[tactic(auto, using(crate::proofs::PathFacts::path_lengths))]
fn folder_len(path_len: usize) -> usize
    ensures { (m : List ℕ) → 0 < length m → path_len ≡ length (folder_of m ++ m)
        → result ≡ length (folder_of m) }
{
    match path_len {
        3 | 4 => 2,
        7 => 4,
        _ => 6,
    }
}

/// What stands after the folder of a path, or nothing for a text that is no path.
fn file_name(path: &str) -> &str
    ensures { (n : List ℕ) → is_name n ≡ true → path_of n ≡ path.now → result.now ≡ lower n }
{
    match path.split_at_checked(folder_len(path.len())) {
        Some((_, name)) => name,
        None => "",
    }
}

/// The name after the folder of a path, if the text is its path.
fn named_by(path: &str) -> Option<CrateName>
    ensures { (n : List ℕ) → (result ≡ Some n) ↔ IsPathOf n path.now }
{
    let name = parse_name(file_name(path))?;
    let is_lower = lower(&name).as_str() == name.as_str();
    let is_its_path = index_path(&name).as_str() == path;
    if is_lower && is_its_path {
        Some(name)
    } else {
        None
    }
}

/// Accepts a text exactly when it is the index path of a name in lower case. Returns that name.
pub fn name_of_path(path: &str) -> Option<CrateName>
    ensures meaning { (n : List ℕ) → (result ≡ Some n) ↔ IsPathOf n path.now }
    ensures value { result ≡ name_at path.now }
{
    named_by(path)
}
