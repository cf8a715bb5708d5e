//! Texts that need no memory.

ghost use Rattle.std.specs.Prelude.{◌≡◌};

use arrayvec::ArrayString;
use std::marker::Model;

/// How many bytes such a text has at most; no head is longer.
pub(crate) const ROOM: usize = 200;

/// A short text that needs no memory.
#[derive(Drop)]
pub struct FixedText {
    pub(crate) text: ArrayString<ROOM>,
}

impl Model for FixedText {
    ghost use Rattle.std.specs.Prelude.{List, ℕ};

    ghost Value = { List ℕ };

    ghost view = { λ t. t.text.bytes };
}

impl FixedText {
    /// The text's bytes.
    pub fn as_bytes(&self) -> &[u8]
        ensures { result.now ≡ self.now }
    {
        self.text.as_str().as_bytes()
    }
}
