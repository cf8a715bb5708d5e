//! Lines of scripts that are answered by one call, one after another.

ghost use Rattle.std.specs.Prelude.{IfOk};
ghost use Rattle.std.specs.List.{AllByRecursion};
ghost use Rattle.reg_service.specs.Sequences.{IsFitCall};

use crate::calls::Parts;
use crate::replies::told_text;
use reg_service::{Call, Registry, Response, answer_all};
use sqlite::Alter;
use std::alloc::{AllocError, Global};

/// What a line asks for, and its answer.
fn halves(line: &str) -> (&str, &str) {
    line.split_once(" -> ").unwrap_or((line, "no arrow"))
}

fn parts_of<'a>(alloc: Global, lines: &'a str) -> Result<Vec<Parts<'a>>, AllocError> {
    let mut list = Vec::new(alloc);
    for line in lines.lines() {
        list.push(Parts::read(alloc, halves(line).0)?)?;
    }
    Ok(list)
}

/// The calls of lines. What is no call is left out.
fn calls_of<'p>(alloc: Global, parts: &'p [Parts<'_>]) -> Result<Vec<Call<'p>>, AllocError>
    ensures { IfOk result (λ calls. AllByRecursion IsFitCall calls.items) }
{
    let mut calls = Vec::new(alloc);
    for part in parts {
        if let Some(call) = part.call() {
            calls.push(call)?;
        }
    }
    Ok(calls)
}

/// A line for each answer.
fn told_lines(alloc: Global, told: &[Response]) -> Result<String, AllocError> {
    let mut lines = String::new(alloc);
    for told in told {
        lines.push_str(&told_text(alloc, told)?)?;
        lines.push_str("\n")?;
    }
    Ok(lines)
}

fn wanted_lines(alloc: Global, lines: &str) -> Result<String, AllocError> {
    let mut wanted = String::new(alloc);
    for line in lines.lines() {
        wanted.push_str(halves(line).1)?;
        wanted.push_str("\n")?;
    }
    Ok(wanted)
}

/// What lines are answered by one call, where it is not what they say.
pub fn told_otherwise<S: Alter>(
    alloc: Global,
    registry: &mut Registry<S>,
    lines: &str,
) -> Result<Option<String>, AllocError> {
    let parts = parts_of(alloc, lines)?;
    let told = answer_all(alloc, registry, &calls_of(alloc, &parts)?)?;
    let found = told_lines(alloc, &told)?;
    if found == wanted_lines(alloc, lines)? {
        return Ok(None);
    }
    Ok(Some(found))
}
