//! Patterns compiled to ranges of canonical texts. Whether a pattern covers a name then takes two
//! comparisons.

ghost use Rattle.std.specs.Prelude.{◌≡◌, IfOk, string_bytes};
ghost use Rattle.std.specs.Str.{IsAscii};
ghost use Rattle.reg_names.specs.Names.{canon};
ghost use Rattle.reg_names.specs.Ranges.{is_within, range_of, range_to, range_view};

use crate::canonical::{canon, canon_byte};
use crate::name::CrateName;
use crate::pattern::{Pattern, has_star, prefix_of};
use std::alloc::{AllocError, Global};

/// A half-open range of canonical texts, in byte order: `low` is in it, and `high` is not.
#[derive(Drop)]
pub struct NameRange {
    pub low: String,
    pub high: String,
}

/// The canonical text of some characters.
fn canon_string(alloc: Global, text: &[u8]) -> Result<String, AllocError>
    requires { IsAscii text.now }
    ensures { IfOk result (λ s. string_bytes s ≡ canon text.now) }
{
    let mut canonical = String::with_capacity(alloc, text.len() + 1)?;
    for b in text {
        canonical.push(canon_byte(*b) as char)?;
    }
    Ok(canonical)
}

/// The range from a canonical text to that text followed by another.
fn range_to(alloc: Global, base: &[u8], end: &str) -> Result<NameRange, AllocError>
    requires { IsAscii base.now }
    ensures { IfOk result (λ r. range_view r ≡ range_to base.now end.now) }
{
    let low = canon_string(alloc, base)?;
    let mut high = canon_string(alloc, base)?;
    high.push_str(end)?;
    Ok(NameRange { low, high })
}

/// The range in which a name lies exactly when the pattern covers it.
pub fn compile(alloc: Global, pattern: &Pattern) -> Result<NameRange, AllocError>
    ensures { IfOk result (λ r. range_view r ≡ range_of pattern.now) }
{
    let text = pattern.as_str().as_bytes();
    if has_star(text) {
        range_to(alloc, prefix_of(text), "{")
    } else {
        range_to(alloc, text, "!")
    }
}

/// Whether a name's canonical text is in a range.
pub fn in_range(range: &NameRange, name: &CrateName) -> bool
    ensures { result ≡ is_within (range_view range.now) (canon name.now) }
{
    let canonical = canon(name);
    let text = canonical.as_str();
    range.low.as_str() <= text && text < range.high.as_str()
}
