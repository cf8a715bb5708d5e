//! Calls on the texts of refusals.

use reg_policy::{AdminRefusal, Rule, admin_text, rule_status, rule_text};
use std::alloc::{AllocError, Global};

/// All rules in their order.
const RULES: [Rule; 35] = [
    Rule::H1,
    Rule::H2,
    Rule::H3,
    Rule::H4,
    Rule::H5,
    Rule::H6,
    Rule::H7,
    Rule::A1,
    Rule::A2,
    Rule::A3,
    Rule::A4,
    Rule::A6,
    Rule::A7,
    Rule::A8,
    Rule::A9,
    Rule::A10,
    Rule::B1,
    Rule::B2,
    Rule::B3,
    Rule::B4,
    Rule::B5,
    Rule::N1,
    Rule::N2,
    Rule::N3,
    Rule::V1,
    Rule::V2,
    Rule::M1,
    Rule::L1,
    Rule::L2,
    Rule::O1,
    Rule::O2,
    Rule::O3,
    Rule::O4,
    Rule::Q1,
    Rule::S1,
];

/// All refusals of the administrator in their order.
const REFUSALS: [AdminRefusal; 10] = [
    AdminRefusal::G1,
    AdminRefusal::G2,
    AdminRefusal::G3,
    AdminRefusal::G4,
    AdminRefusal::G5,
    AdminRefusal::G6,
    AdminRefusal::G7,
    AdminRefusal::G8,
    AdminRefusal::G9,
    AdminRefusal::G10,
];

/// Whether a text begins with this word.
fn begins(text: &str, word: &str) -> bool {
    match text.split_once(' ') {
        Some((first, _)) => first == word,
        None => false,
    }
}

/// The rule whose text begins with this name.
fn rule_named(name: &str) -> Option<Rule> {
    for rule in &RULES {
        if begins(rule_text(*rule), name) {
            return Some(*rule);
        }
    }
    None
}

fn refusal_named(name: &str) -> Option<AdminRefusal> {
    for refusal in &REFUSALS {
        if begins(admin_text(*refusal), name) {
            return Some(*refusal);
        }
    }
    None
}

/// What a refusal is told: its name, of a rule its status, and its text.
fn told(alloc: Global, name: &str) -> Result<String, AllocError> {
    if let Some(rule) = rule_named(name) {
        let (status, text) = (rule_status(rule), rule_text(rule));
        return format!(in alloc; "{rule:?}: {status} {text}");
    }
    if let Some(refusal) = refusal_named(name) {
        return format!(in alloc; "{refusal:?}: {}", admin_text(refusal));
    }
    String::from_str(alloc, "no such refusal")
}

/// What a call is answered that is none on publish bodies and lines.
pub(crate) fn of_refusals(alloc: Global, word: &str, name: &str) -> Result<String, AllocError> {
    match word {
        "told" => told(alloc, name),
        _ => String::from_str(alloc, "no such call"),
    }
}
