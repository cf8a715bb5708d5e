//! Calls on names, patterns and logins.

use crate::layers::part_calls::of_versions;
use reg_names::{
    Pattern, canon, collides, compile, covers, in_range, index_path, lower, name_of_path,
    parse_login, parse_name,
};
use std::alloc::{AllocError, Global};
use std::fmt::Debug;

/// A yes or a no as a text.
pub(crate) fn yes(alloc: Global, holds: bool) -> Result<String, AllocError> {
    String::from_str(alloc, if holds { "yes" } else { "no" })
}

/// A value as it is written for a programmer.
pub(crate) fn shown<T: Debug>(alloc: Global, value: &T) -> Result<String, AllocError> {
    format!(in alloc; "{value:?}")
}

fn none(alloc: Global) -> Result<String, AllocError> {
    String::from_str(alloc, "none")
}

fn name(alloc: Global, text: &str) -> Result<String, AllocError> {
    match parse_name(text) {
        Some(name) => String::from_str(alloc, name.as_str()),
        None => none(alloc),
    }
}

fn path(alloc: Global, text: &str) -> Result<String, AllocError> {
    match parse_name(text) {
        Some(name) => String::from_str(alloc, index_path(&name).as_str()),
        None => none(alloc),
    }
}

fn lower_name(alloc: Global, text: &str) -> Result<String, AllocError> {
    match parse_name(text) {
        Some(name) => String::from_str(alloc, lower(&name).as_str()),
        None => none(alloc),
    }
}

fn canon_name(alloc: Global, text: &str) -> Result<String, AllocError> {
    match parse_name(text) {
        Some(name) => String::from_str(alloc, canon(&name).as_str()),
        None => none(alloc),
    }
}

fn path_name(alloc: Global, path: &str) -> Result<String, AllocError> {
    match name_of_path(path) {
        Some(name) => String::from_str(alloc, name.as_str()),
        None => none(alloc),
    }
}

fn collide(alloc: Global, text: &str) -> Result<String, AllocError> {
    let (one, other) = text.split_once(' ').unwrap_or((text, ""));
    match (parse_name(one), parse_name(other)) {
        (Some(one), Some(other)) => yes(alloc, collides(&one, &other)),
        _ => none(alloc),
    }
}

/// What a call is answered: one on names, or another.
pub(crate) fn of_names(alloc: Global, word: &str, text: &str) -> Result<String, AllocError> {
    match word {
        "length" => format!(in alloc; "{}", text.len()),
        "parse-name" => name(alloc, text),
        "index-path" => path(alloc, text),
        "lower" => lower_name(alloc, text),
        "canon" => canon_name(alloc, text),
        "name-of-path" => path_name(alloc, text),
        "collides" => collide(alloc, text),
        _ => of_patterns(alloc, word, text),
    }
}

fn pattern(alloc: Global, text: &str) -> Result<String, AllocError> {
    match Pattern::parse(text) {
        Some(pattern) => String::from_str(alloc, pattern.as_str()),
        None => none(alloc),
    }
}

fn covered(alloc: Global, text: &str) -> Result<String, AllocError> {
    let (pattern, name) = text.split_once(' ').unwrap_or((text, ""));
    match (Pattern::parse(pattern), parse_name(name)) {
        (Some(pattern), Some(name)) => yes(alloc, covers(&pattern, &name)),
        _ => none(alloc),
    }
}

fn compiled(alloc: Global, text: &str) -> Result<String, AllocError> {
    let Some(pattern) = Pattern::parse(text) else {
        return none(alloc);
    };
    let range = compile(alloc, &pattern)?;
    format!(in alloc;
        "from '{}' to '{}'",
        range.low.as_str(),
        range.high.as_str()
    )
}

fn ranged(alloc: Global, text: &str) -> Result<String, AllocError> {
    let (pattern, name) = text.split_once(' ').unwrap_or((text, ""));
    match (Pattern::parse(pattern), parse_name(name)) {
        (Some(pattern), Some(name)) => yes(alloc, in_range(&compile(alloc, &pattern)?, &name)),
        _ => none(alloc),
    }
}

fn login(alloc: Global, text: &str) -> Result<String, AllocError> {
    match parse_login(text) {
        Some(login) => String::from_str(alloc, login.as_str()),
        None => none(alloc),
    }
}

/// What a call is answered that is none on names.
fn of_patterns(alloc: Global, word: &str, text: &str) -> Result<String, AllocError> {
    match word {
        "parse-pattern" => pattern(alloc, text),
        "covers" => covered(alloc, text),
        "compile" => compiled(alloc, text),
        "in-range" => ranged(alloc, text),
        "parse-login" => login(alloc, text),
        _ => of_versions(alloc, word, text),
    }
}
