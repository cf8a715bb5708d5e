//! Crate names.

ghost use Rattle.std.specs.Prelude.{◌≡◌, ◌<◌, ◌≤◌, ℕ, List, length, true};
ghost use Rattle.std.specs.Char.{to_ascii_lowercase};
ghost use Rattle.std.specs.List.{list_all};
ghost use Rattle.std.specs.Str.{IsAscii};
ghost use Rattle.reg_names.specs.Names.{is_name, is_name_byte, lower, name_of};

use arrayvec::ArrayString;
use std::marker::Model;

/// A crate name: 1 to 64 ASCII letters, digits, `-` and `_`, the first a letter.
#[derive(Drop)]
pub struct CrateName(ArrayString<64>);

impl Model for CrateName {
    ghost Value = { List ℕ };

    ghost view = { λ n. n.0.bytes };

    ghost invariant = { λ n. is_name n.0.bytes ≡ true };
}

fn is_name_byte(b: u8) -> bool
    ensures { result ≡ is_name_byte b }
{
    b.is_ascii_alphanumeric() || b == b'-' || b == b'_'
}

fn lower_byte(b: u8) -> u8
    ensures value { result ≡ to_ascii_lowercase b }
    ensures ascii { b < 128 → result < 128 }
{
    b.to_ascii_lowercase()
}

fn all_name_bytes(bytes: &[u8]) -> bool
    ensures { result ≡ list_all is_name_byte bytes.now }
{
    bytes.iter().all(|b| is_name_byte(*b))
}

pub(crate) fn is_name(bytes: &[u8]) -> bool
    ensures { result ≡ is_name bytes.now }
{
    if bytes.is_empty() || bytes.len() > 64 {
        return false;
    }
    bytes[0].is_ascii_alphabetic() && all_name_bytes(bytes)
}

/// Accepts a text exactly when it is a crate name.
pub fn parse_name(text: &str) -> Option<CrateName>
    ensures { result ≡ name_of text.now }
{
    if !is_name(text.as_bytes()) {
        return None;
    }
    match ArrayString::from(text) {
        Ok(text) => Some(CrateName(text)),
        Err(_) => None,
    }
}

impl CrateName {
    /// The name as it was spelled.
    pub fn as_str(&self) -> &str
        ensures value { result.now ≡ self.now }
        ensures name { is_name result.now ≡ true }
        ensures fits { length result.now ≤ 64 }
        ensures ascii { IsAscii result.now }
    {
        self.0.as_str()
    }

    /// A copy of the name.
    pub fn copy(&self) -> CrateName
        ensures { result ≡ self.now }
    {
        CrateName(self.0)
    }
}

/// The name in ASCII lower case, as index paths spell it.
pub fn lower(name: &CrateName) -> CrateName
    ensures { result ≡ lower name.now }
{
    let mut text = ArrayString::new();
    for b in name.as_str().as_bytes() {
        text.push(lower_byte(*b) as char);
    }
    CrateName(text)
}
