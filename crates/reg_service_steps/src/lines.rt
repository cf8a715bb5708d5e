//! The line of what is changed, from its words.

ghost use Rattle.std.specs.Prelude.{◌≡◌, IfOk, map, string_bytes};
ghost use Rattle.reg_model.specs.Reports.{with_commas};
ghost use Rattle.reg_model.specs.Trail.{line_of};

use std::alloc::{AllocError, Global};
use std::convert::AsStr;

/// A line of these words, with a space between each two.
#[tactic(auto, using(crate::proofs::Joined::joined))]
pub fn line_of(alloc: Global, words: &[&str]) -> Result<String, AllocError>
    ensures { IfOk result (λ line. string_bytes line ≡ line_of (map (λ w. w.now) words.now)) }
{
    let mut line = words.join(alloc, " ")?;
    line.push_str("\n")?;
    Ok(line)
}

/// Texts with a comma between each two.
#[tactic(auto, using(crate::proofs::Joined::joined))]
pub fn with_commas<T: AsStr>(alloc: Global, texts: &[T]) -> Result<String, AllocError>
    ensures { IfOk result (λ text. string_bytes text ≡ with_commas (map T.text texts.now)) }
{
    texts.join(alloc, ",")
}
