//! What a refusal means, as `docs/REFUSALS.md` says.

use crate::meanings::{ACCESS, COMMANDS, CONTENTS, DAMAGES, HEADS, OTHERS, WORDS};
use crate::store::damage_words;
use clap::ArgMatches;
use reg_cli_line::Exit;
use reg_cli_run::print;
use reg_model::AdminRefusal;
use reg_policy::{Rule, admin_text, rule_text};
use reg_service::Check;

/// What is refused, or how a run ends.
#[derive(Clone, Copy)]
pub(crate) enum Subject {
    /// A request, by the rule that it breaks.
    Rule(Rule),
    /// An administrator's command.
    Command(AdminRefusal),
    /// A file, by the check that it fails.
    Damage(Check),
    /// A run that ends with this line.
    Words(&'static str),
}

/// What a refusal means, and what to do about it.
#[derive(Clone, Copy)]
pub(crate) struct Meaning {
    pub(crate) subject: Subject,
    pub(crate) text: &'static str,
}

impl Subject {
    /// The line that is printed for it.
    fn title(&self) -> &'static str {
        match self {
            Subject::Rule(rule) => rule_text(*rule),
            Subject::Command(refusal) => admin_text(*refusal),
            Subject::Damage(check) => damage_words(*check),
            Subject::Words(words) => words,
        }
    }
}

/// Whether a title has this name: its code, before or after its first space, or the whole title.
fn is_called(subject: &Subject, name: &str) -> bool {
    let title = subject.title();
    if title == name {
        return true;
    }
    match (subject, title.split_once(' ')) {
        (Subject::Rule(_) | Subject::Command(_), Some((code, _))) => code == name,
        (Subject::Damage(_), Some((_, code))) => code == name,
        _ => false,
    }
}

fn find_in(meanings: &[Meaning], name: &str) -> Option<Meaning> {
    meanings
        .iter()
        .find(|meaning| is_called(&meaning.subject, name))
        .copied()
}

fn find_of_request(name: &str) -> Option<Meaning> {
    find_in(&HEADS, name).or(find_in(&ACCESS, name))
}

fn find_of_publish(name: &str) -> Option<Meaning> {
    find_in(&CONTENTS, name).or(find_in(&OTHERS, name))
}

fn find_of_run(name: &str) -> Option<Meaning> {
    find_in(&DAMAGES, name).or(find_in(&WORDS, name))
}

/// The meaning of the refusal with this code, or of the run that ends with this line.
fn find(name: &str) -> Option<Meaning> {
    find_of_request(name)
        .or(find_of_publish(name))
        .or(find_in(&COMMANDS, name))
        .or(find_of_run(name))
}

/// `explain`.
pub(crate) fn explain(rt: &HostRuntime, words: &ArgMatches<'_>) -> Exit {
    let Some(name) = words.get_str("CODE") else {
        return Exit::BAD_WORDS;
    };
    let Some(meaning) = find(name) else {
        return Exit::BAD_WORDS;
    };
    let title = meaning.subject.title();
    match format!(in rt.alloc(); "{title}\n\n{}", meaning.text) {
        Ok(text) => print(rt, &text),
        Err(_) => Exit::MEMORY,
    }
}
