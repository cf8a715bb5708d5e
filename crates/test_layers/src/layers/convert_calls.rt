//! Calls of `line`: how it ends, and what it prints.

use crate::layers::bytes::{bytes_of, counted};
use crate::layers::part_calls::nested_json;
use crate::layers::refusal_calls::of_refusals;
use reg_body::{Counted, Limits, join};
use reg_cli_line::{Exit, run_line, run_line_within};
use std::alloc::{AllocError, Global};
use test_support::examples::FIRST_JSON;

/// `line` on an input, and what it printed.
fn line_on(alloc: Global, input: &[u8]) -> (Exit, Vec<u8>) {
    let mut reader = Counted::new(input);
    let mut writer = Counted::new(Vec::new(alloc));
    let exit = run_line(alloc, &mut reader, &mut writer);
    (exit, writer.into_inner())
}

/// The same where at most so many bytes of JSON and of archive are taken.
fn line_within(alloc: Global, input: &[u8], (json, archive): (u32, u32)) -> (Exit, Vec<u8>) {
    let limits = Limits {
        json,
        archive,
        ..Limits::STANDARD
    };
    let mut reader = Counted::new(input);
    let mut writer = Counted::new(Vec::new(alloc));
    let exit = run_line_within(alloc, &mut reader, &mut writer, &limits);
    (exit, writer.into_inner())
}

/// How `line` on an input ends, and all that it prints.
fn ended(alloc: Global, input: &[u8]) -> Result<String, AllocError> {
    let (exit, printed) = line_on(alloc, input);
    let printed = counted(alloc, &printed)?;
    format!(in alloc; "{} '{}' {printed}", exit.status, exit.message)
}

fn body(alloc: Global, json: &[u8], archive: &[u8]) -> Result<Vec<u8>, AllocError> {
    match join(alloc, json, archive) {
        Ok(body) => Ok(body),
        Err(_) => Err(AllocError),
    }
}

/// `line` on the bytes of a body.
fn of_body(alloc: Global, text: &str) -> Result<String, AllocError> {
    ended(alloc, &bytes_of(alloc, text)?)
}

/// `line` on a body of metadata and an archive, with a `|` between them where there is one.
fn of_metadata(alloc: Global, text: &str) -> Result<String, AllocError> {
    let (json, archive) = text.split_once('|').unwrap_or((text, ""));
    ended(alloc, &body(alloc, json.as_bytes(), archive.as_bytes())?)
}

/// `line` on metadata with an unknown field of so many nested lists.
fn of_nested(alloc: Global, levels: &str) -> Result<String, AllocError> {
    of_metadata(alloc, &nested_json(alloc, levels)?)
}

/// These bytes, and so many more that their number is `len`.
fn padded(alloc: Global, bytes: &[u8], more: u8, len: &str) -> Result<Vec<u8>, AllocError> {
    let mut padded = Vec::new(alloc);
    padded.extend_from_slice(bytes)?;
    padded.resize(len.parse().unwrap_or(0), more)?;
    Ok(padded)
}

/// A body whose metadata is a manifest and spaces, so many bytes, and whose archive has so many.
fn long_body(alloc: Global, lens: &str) -> Result<Vec<u8>, AllocError> {
    let (json, archive) = lens.split_once(' ').unwrap_or((lens, ""));
    let json = padded(alloc, FIRST_JSON.as_bytes(), b' ', json)?;
    body(alloc, &json, &padded(alloc, b"", 0, archive)?)
}

/// What `line` says where it prints nothing; else that it prints.
fn said(alloc: Global, (exit, printed): (Exit, Vec<u8>)) -> Result<String, AllocError> {
    String::from_str(
        alloc,
        match (exit.message, printed.is_empty()) {
            ("", false) => "printed",
            (words, true) => words,
            _ => "words and bytes",
        },
    )
}

/// What `line` says of a long body.
fn of_long(alloc: Global, lens: &str) -> Result<String, AllocError> {
    said(alloc, line_on(alloc, &long_body(alloc, lens)?))
}

/// The same within a mebibyte of metadata and ten of archive.
fn of_long_within(alloc: Global, lens: &str) -> Result<String, AllocError> {
    let body = long_body(alloc, lens)?;
    said(alloc, line_within(alloc, &body, (1_048_576, 10_485_760)))
}

pub(crate) fn of_conversions(alloc: Global, word: &str, text: &str) -> Result<String, AllocError> {
    match word {
        "line-of-body" => of_body(alloc, text),
        "line-of-metadata" => of_metadata(alloc, text),
        "line-of-nested" => of_nested(alloc, text),
        "line-of-long" => of_long(alloc, text),
        "line-of-long-within" => of_long_within(alloc, text),
        _ => of_refusals(alloc, word, text),
    }
}
