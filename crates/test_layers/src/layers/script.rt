//! Scripts: a line is a call, an arrow, and its answer.
//!
//! What is indented by four spaces goes on with the line above, and `""` is the empty text.

use crate::layers::name_calls::of_names;
use std::alloc::{AllocError, Global};
use std::test::Fail;

/// What a call is answered.
fn answered(alloc: Global, call: &str) -> Result<String, AllocError> {
    let (word, text) = call.split_once(' ').unwrap_or((call, ""));
    let text = if text == "\"\"" { "" } else { text };
    of_names(alloc, word, text)
}

/// Fails where a line is answered otherwise than it says.
fn play_line(alloc: Global, line: &str) -> Result<(), Fail> {
    let (call, want) = line.split_once(" -> ").unwrap_or((line, "no arrow"));
    let found = answered(alloc, call)?;
    if found.as_str() == want {
        return Ok(());
    }
    Err(Fail::new(format!(in alloc; "{call}: found {found}")?))
}

/// Plays a script: fails where a line of it is answered otherwise than it says.
pub(crate) fn play(alloc: Global, script: &str) -> Result<(), Fail> {
    let whole = script.replace(alloc, "\n    ", "")?;
    for line in whole.lines() {
        play_line(alloc, line)?;
    }
    Ok(())
}
