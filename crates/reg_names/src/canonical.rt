//! Canonical texts: what two spellings of one crate have in common.

ghost use Rattle.std.specs.Prelude.{◌≡◌, ◌<◌, ◌↔◌, ℕ, IfOk, IsTrue, List};
ghost use Rattle.reg_names.specs.Names.{IsCanonText, canon, canon_byte};

use crate::name::CrateName;
use arrayvec::ArrayString;
use std::alloc::{AllocError, Global};
use std::marker::Model;

/// A canonical text: that of some crate name, in ASCII lower case with `_` for `-`.
#[derive(Drop)]
pub struct CanonText(ArrayString<64>);

impl Model for CanonText {
    ghost Value = { List ℕ };

    ghost view = { λ n. n.0.bytes };

    ghost invariant = { λ n. IsCanonText n.0.bytes };
}

impl CanonText {
    /// The text.
    pub fn as_str(&self) -> &str
        ensures { result.now ≡ self.now }
    {
        self.0.as_str()
    }
}

/// A byte of a canonical text: in ASCII lower case, `_` for `-`, and any other as it is.
pub fn canon_byte(b: u8) -> u8
    ensures value { result ≡ canon_byte b }
    ensures ascii { b < 128 → result < 128 }
{
    if b == b'-' {
        b'_'
    } else {
        b.to_ascii_lowercase()
    }
}

/// The name in ASCII lower case with `_` for `-`. Names that differ in nothing else are one crate.
pub fn canon(name: &CrateName) -> CanonText
    ensures { result ≡ canon name.now }
{
    let mut text = ArrayString::new();
    for b in name.as_str().as_bytes() {
        text.push(canon_byte(*b) as char);
    }
    CanonText(text)
}

/// The canonical text of any text, even one that is no name.
pub fn canon_text(alloc: Global, text: &str) -> Result<Vec<u8>, AllocError>
    ensures { IfOk result (λ v. v.items ≡ canon text.now) }
{
    text.as_bytes()
        .iter()
        .map(|byte| canon_byte(*byte))
        .collect(alloc)
}

/// Whether two names have the same canonical text. A registry holds only one of them.
pub fn collides(one: &CrateName, other: &CrateName) -> bool
    ensures { IsTrue result ↔ (canon one.now ≡ canon other.now) }
{
    canon(one).0 == canon(other).0
}
