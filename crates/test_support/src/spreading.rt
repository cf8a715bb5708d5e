//! Parts of scripts that stand for many: `[[1..3|c#,]]` is `c1,c2,c3,`.

use std::alloc::{AllocError, Global};

/// The first number and the last; none where it is no range.
fn range_of(text: &str) -> Option<(u32, u32)> {
    let (first, last) = text.split_once("..")?;
    Some((first.parse().ok()?, last.parse().ok()?))
}

/// Adds the part behind the range once for each number, and then the rest.
fn add_spread(alloc: Global, text: &mut String, piece: &str) -> Result<(), AllocError> {
    let (inner, rest) = piece.split_once("]]").unwrap_or((piece, ""));
    let (range, part) = inner.split_once('|').unwrap_or(("no range", inner));
    let (first, last) = range_of(range).unwrap_or((0, 0));
    for number in first..=last {
        let digits = format!(in alloc; "{number}")?;
        text.push_str(&part.replace(alloc, "#", &digits)?)?;
    }
    text.push_str(rest)
}

/// The script with each such part written out.
pub fn spread(alloc: Global, script: &str) -> Result<String, AllocError> {
    let (front, behind) = script.split_once("[[").unwrap_or((script, ""));
    let mut text = String::from_str(alloc, front)?;
    if behind.is_empty() {
        return Ok(text);
    }
    for piece in behind.split("[[") {
        add_spread(alloc, &mut text, piece)?;
    }
    Ok(text)
}
