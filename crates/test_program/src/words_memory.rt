//! The program's words with each amount of memory, as a script: a line is the words of a run, an
//! arrow, how the run ends, and behind a bar how it ends once it was done.
//!
//! With too little memory it is refused, and has done nothing: the next run ends as the first.

use crate::runs::{ending, new_file, words_of};
use reg_cli::run_words;
use std::alloc::{AllocError, Global};
use std::test::Fail;
use std::{fs, io};
use test_support::scarce_memory::Amounts;

/// How many amounts there are at most.
const AMOUNTS: u32 = 40;

/// The unit of a script whose lines take no file: the bytes of an amount are so many times the
/// square of its number.
const SMALL: u32 = 12_000;

/// The unit of a script whose lines open a file, which takes some 10 MB.
const LARGE: u32 = 400_000;

/// How a run ends with too little memory.
const REFUSED: [&str; 3] = ["3 memory", "3 storage", "3 G10 storage or memory"];

/// How a run ends that has so many bytes of memory.
fn scarce_ending(
    rt: &HostRuntime,
    line: &str,
    file: &str,
    size: u32,
) -> Result<String, AllocError> {
    let words = words_of(rt.alloc(), line, file)?;
    let mut amounts = Amounts::new(rt.alloc(), 1, size)?;
    if !amounts.advance(rt.alloc()) {
        return Err(AllocError);
    }
    let exit = run_words(rt, &words);
    drop(amounts);
    let (status, words) = (exit.status, exit.message);
    if words.is_empty() {
        return format!(in rt.alloc(); "{status}");
    }
    format!(in rt.alloc(); "{status} {words}")
}

/// How a line goes with an amount of memory.
#[derive(Drop)]
enum Went {
    Done,
    Refused,
    Wrong(String),
}

/// What came of a line that ended as found with the amount of this number, and as next with ample
/// memory.
fn came_of(
    alloc: Global,
    k: u32,
    line: &str,
    ends: &str,
    found: &str,
    next: &str,
) -> io::Result<Went> {
    let (first, again) = ends.split_once(" | ").unwrap_or((ends, ends));
    if found == first && next == again {
        return Ok(Went::Done);
    }
    if REFUSED.iter().any(|end| *end == found) && next == first {
        return Ok(Went::Refused);
    }
    Ok(Went::Wrong(format!(in alloc; "{k}: {line} -> {found}, then {next}")?))
}

/// Runs a line with the amount of this number, and once more with ample memory. `NEW` stands for
/// a number of four digits, another one for each amount.
fn with_amount(rt: &HostRuntime, line: &str, file: &str, unit: u32, k: u32) -> io::Result<Went> {
    let number = format!(in rt.alloc(); "{}", k.saturating_add(1_000))?;
    let line = line.replace(rt.alloc(), "NEW", &number)?;
    let (words, ends) = line.split_once(" -> ").unwrap_or((&line, "no arrow"));
    let found = scarce_ending(rt, words, file, k.saturating_mul(k).saturating_mul(unit))?;
    let next = ending(rt, words, file)?;
    came_of(rt.alloc(), k, words, ends, &found, &next)
}

/// What is wrong with a line up to the first amount that is enough.
fn line_fault(rt: &HostRuntime, line: &str, file: &str, unit: u32) -> io::Result<Option<String>> {
    for k in 0..AMOUNTS {
        match with_amount(rt, line, file, unit, k)? {
            Went::Done => return Ok(None),
            Went::Refused => {}
            Went::Wrong(fault) => return Ok(Some(fault)),
        }
    }
    Ok(Some(String::from_str(rt.alloc(), line)?))
}

/// Changes of accounts.
const ACCOUNTS: &str = "user-add aNEW --name Ada --db FILE -> 0 | 1 G2 login taken
user-disable ada --db FILE -> 0
user-enable ada --db FILE -> 0";

/// Changes of tokens and reserved names.
const TOKENS: &str = "token-add ada --endpoints yank --patterns a,b-* --db FILE --digest \
000000000000000000000000000000000000000000000000000000000000NEW -> 0 | 1 G5 token digest taken
token-revoke 1 --db FILE -> 0
reserve acmeNEW --db FILE -> 0
unreserve acmeNEW --db FILE -> 0";

/// Reports.
const REPORTS: &str = "users --db FILE -> 0
tokens --db FILE -> 0
crates --db FILE -> 0
access a --db FILE -> 0";

/// What reads all rows.
const WHOLE: &str = "audit --db FILE -> 0
export FILE.index --db FILE -> 0";

/// What is refused once the file is open, and what another file stops.
const REFUSALS: &str = "user-add ada --db FILE -> 1 G2 login taken
user-disable carol --db FILE -> 1 G3 no such login
owner-add a ada --db FILE -> 1 G8 no such crate
token-add ada --endpoints yank --random FILE.none --db FILE -> 3 storage
pipe --db FILE --setup FILE.none -> 3 storage";

/// What opens no file.
const WORDS: &str = "explain A9 -> 0
--version -> 0
users ada --db FILE -> 2
token-add ada --endpoints yank --digest 00 --db FILE -> 2 bad words
pipe --memory --base r/ -> 1 bad base";

/// Plays a script over a registry of one account in a file of its own.
fn play(rt: &HostRuntime, name: &str, unit: u32, script: &str) -> Result<(), Fail> {
    let file = new_file(rt, name)?;
    for line in [
        "init --base http://127.0.0.1:8080 --db FILE",
        "user-add ada --db FILE",
    ] {
        let _ = ending(rt, line, &file)?;
    }
    for line in script.lines() {
        if let Some(fault) = line_fault(rt, line, &file, unit)? {
            return Err(Fail::new(fault));
        }
    }
    Ok(())
}

#[test]
fn accounts(rt: HostRuntime) -> Result<(), Fail> {
    play(&rt, "memory_accounts", LARGE, ACCOUNTS)
}

#[test]
fn tokens(rt: HostRuntime) -> Result<(), Fail> {
    play(&rt, "memory_tokens", LARGE, TOKENS)
}

#[test]
fn reports(rt: HostRuntime) -> Result<(), Fail> {
    play(&rt, "memory_reports", LARGE, REPORTS)
}

#[test]
fn whole(rt: HostRuntime) -> Result<(), Fail> {
    play(&rt, "memory_whole", LARGE, WHOLE)
}

#[test]
fn refusals(rt: HostRuntime) -> Result<(), Fail> {
    play(&rt, "memory_refusals", LARGE, REFUSALS)
}

#[test]
fn words(rt: HostRuntime) -> Result<(), Fail> {
    play(&rt, "memory_words", SMALL, WORDS)
}
