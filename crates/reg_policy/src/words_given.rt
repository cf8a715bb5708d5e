//! The arguments of a command: account names, endpoints, patterns.

ghost use Rattle.std.specs.Prelude.{◌≡◌, ◌&&◌, if◌then◌else◌, IfOk, None, Some, map, nat_le};
ghost use Rattle.std.specs.Option.{option_map};
ghost use Rattle.std.specs.List.{list_all};
ghost use Rattle.reg_names.specs.Patterns.{is_pattern};
ghost use Rattle.reg_model.specs.Refusals.{endpoints_named as endpoints_named_by, is_account_name as is_account_name_text, is_endpoint, may_name as may_name_text, patterns_given};

use crate::deciding::{is_among, same_text};
use reg_model::Endpoints;
use reg_names::Pattern;
use std::alloc::{AllocError, Global};

fn is_printed(byte: u8) -> bool
    ensures { result ≡ (nat_le 32 byte && nat_le byte 126) }
{
    32 <= byte && byte <= 126
}

fn are_printed(bytes: &[u8]) -> bool
    ensures { result ≡ list_all (λ b. nat_le 32 b && nat_le b 126) bytes.now }
{
    bytes.iter().all(|byte| is_printed(*byte))
}

fn is_account_name(name: &str) -> bool
    ensures { result ≡ is_account_name_text name.now }
{
    let bytes = name.as_bytes();
    if bytes.is_empty() || bytes.len() > 100 {
        return false;
    }
    are_printed(bytes)
}

/// Whether an account may have this name, or none.
pub fn may_name(name: Option<&str>) -> bool
    ensures { result ≡ may_name_text (option_map (λ n. n.now) name.entry) }
{
    match name {
        Some(name) => is_account_name(name),
        None => true,
    }
}

const ENDPOINTS: [&str; 4] = ["publish-new", "publish-update", "yank", "change-owners"];

fn is_endpoint(word: &str) -> bool
    ensures { result ≡ is_endpoint word.now }
{
    ENDPOINTS.iter().any(|known| same_text(word, known))
}

fn all_endpoints(words: &[&str]) -> bool
    ensures { result ≡ list_all (λ w. is_endpoint w.now) words.now }
{
    words.iter().all(|word| is_endpoint(word))
}

/// Whether each word names an endpoint.
#[tactic(auto, using(crate::proofs::Lists::list_all_map))]
pub fn are_endpoints(words: &[&str]) -> bool
    ensures { result ≡ list_all is_endpoint (map (λ w. w.now) words.now) }
{
    all_endpoints(words)
}

/// The endpoints that the words name.
#[tactic(auto, using(reg_model::proofs::Lists::list_any_map))]
pub fn endpoints_named(words: &[&str]) -> Endpoints
    ensures { result ≡ endpoints_named_by (map (λ w. w.now) words.now) }
{
    Endpoints {
        publish_new: is_among(words, "publish-new"),
        publish_update: is_among(words, "publish-update"),
        yank: is_among(words, "yank"),
        change_owners: is_among(words, "change-owners"),
    }
}

fn parse_all(alloc: Global, texts: &[&str]) -> Result<Option<Vec<Pattern>>, AllocError>
    ensures { IfOk result (λ o. option_map (λ v. v.items) o
        ≡ (if list_all is_pattern (map (λ t. t.now) texts.now) then Some
        (map (λ t. t.now) texts.now) else None)) }
{
    let mut patterns = Vec::new(alloc);
    for text in texts {
        match Pattern::parse(text) {
            Some(pattern) => patterns.push(pattern)?,
            None => return Ok(None),
        }
    }
    Ok(Some(patterns))
}

fn or_all_names(mut patterns: Vec<Pattern>) -> Result<Vec<Pattern>, AllocError>
    ensures { IfOk result (λ v. v.items ≡ patterns_given patterns.items) }
{
    if patterns.is_empty() {
        if let Some(pattern) = Pattern::parse("*") {
            patterns.push(pattern)?;
        }
    }
    Ok(patterns)
}

/// The given patterns, or the one that covers all names if none is given; `None` if a text is no
/// pattern.
pub fn parse_patterns(alloc: Global, texts: &[&str]) -> Result<Option<Vec<Pattern>>, AllocError>
    ensures { IfOk result (λ o. option_map (λ v. v.items) o
        ≡ (if list_all is_pattern (map (λ t. t.now) texts.now) then Some
        (patterns_given (map (λ t. t.now) texts.now)) else None)) }
{
    match parse_all(alloc, texts)? {
        Some(patterns) => Ok(Some(or_all_names(patterns)?)),
        None => Ok(None),
    }
}
