//! Patterns of crate names, as token scopes have them.

ghost use Rattle.std.specs.Prelude.{◌≡◌, ◌≤◌, ◌↔◌, IsTrue, List, ℕ, length, nat_eq, true};
ghost use Rattle.std.specs.List.{starts_with};
ghost use Rattle.std.specs.Str.{bytes_eq};
ghost use Rattle.reg_names.specs.Names.{canon, is_name};
ghost use Rattle.reg_names.specs.Patterns.{Covers, covers, has_star, is_pattern, pattern_of, prefix_of};

use crate::canonical::canon_byte;
use crate::name::{CrateName, is_name};
use arrayvec::ArrayString;
use std::marker::Model;

/// A crate name, or a prefix of names followed by `*`. It keeps its text as given.
#[derive(Drop)]
pub struct Pattern(ArrayString<65>);

impl Model for Pattern {
    ghost Value = { List ℕ };

    ghost view = { λ p. p.0.bytes };

    ghost invariant = { λ p. is_pattern p.0.bytes ≡ true };
}

pub(crate) fn has_star(bytes: &[u8]) -> bool
    ensures { result ≡ has_star bytes.now }
{
    bytes.ends_with(b"*")
}

pub(crate) fn prefix_of(bytes: &[u8]) -> &[u8]
    ensures { result.now ≡ prefix_of bytes.now }
{
    if bytes.is_empty() {
        return bytes;
    }
    &bytes[..bytes.len() - 1]
}

fn is_pattern(text: &str) -> bool
    ensures { result ≡ is_pattern text.now }
{
    let bytes = text.as_bytes();
    if !has_star(bytes) {
        return is_name(bytes);
    }
    let prefix = prefix_of(bytes);
    prefix.is_empty() || is_name(prefix)
}

fn are_alike(one: &[u8], other: &[u8]) -> bool
    ensures { result ≡ bytes_eq (canon one.now) (canon other.now) }
{
    match (one, other) {
        ([], []) => true,
        ([x, one @ ..], [y, other @ ..]) => {
            canon_byte(*x) == canon_byte(*y) && are_alike(one, other)
        }
        _ => false,
    }
}

fn begins_like(name: &[u8], prefix: &[u8]) -> bool
    ensures { result ≡ starts_with nat_eq (canon name.now) (canon prefix.now) }
{
    prefix.len() <= name.len() && are_alike(prefix, &name[..prefix.len()])
}

impl Pattern {
    /// Accepts a text exactly when it is a pattern.
    pub fn parse(text: &str) -> Option<Pattern>
        ensures { result ≡ pattern_of text.now }
    {
        if !is_pattern(text) {
            return None;
        }
        match ArrayString::from(text) {
            Ok(text) => Some(Pattern(text)),
            Err(_) => None,
        }
    }

    /// The pattern as given.
    pub fn as_str(&self) -> &str
        ensures value { result.now ≡ self.now }
        ensures pattern { is_pattern result.now ≡ true }
        ensures fits { length result.now ≤ 65 }
    {
        self.0.as_str()
    }
}

/// Whether the pattern covers the name. Case makes no difference, and neither does `-` for `_`.
pub fn covers(pattern: &Pattern, name: &CrateName) -> bool
    ensures meaning { IsTrue result ↔ Covers pattern.now name.now }
    ensures test { result ≡ covers pattern.now name.now }
{
    let text = pattern.as_str().as_bytes();
    let name = name.as_str().as_bytes();
    if has_star(text) {
        begins_like(name, prefix_of(text))
    } else {
        are_alike(name, text)
    }
}
