//! Lines that the plain registry is asked with more and more memory.
//!
//! Where that is too little it answers so, and nothing has changed; then it answers as it says.

use crate::service::agreeing::owners_body;
use reg_api_requests::{digest_shown, read_call};
use reg_body::Limits;
use reg_policy::{Answer, Event};
use reg_reference::PlainRegistry;
use std::alloc::{AllocError, Global};
use std::process::Abort;
use test_files::leave_only;
use test_scripts::{Parts, TWO_ACCOUNTS_AND_A, body_text, order_text};

/// Bytes between two amounts.
const STEP: u32 = 64;

/// More amounts than any line needs.
const MOST_AMOUNTS: u32 = 250;

/// Eight blocks of each of 65 sizes.
const SPARE_BLOCKS: u32 = 520;

/// With the lines of *two accounts and a* four of each, so that the lists of the registry are full.
const FULL: &str = "ada release c 0.1.0
ada release d 0.1.0
ada release e 0.1.0
user-add carol
token-add carol publish-new,publish-update,yank,change-owners - carol
user-add dora
token-add dora publish-new,publish-update,yank,change-owners - dora
reserve f
reserve g
reserve h
reserve i";

/// What shows all that the lines of the tests change.
const LOOKS: &str = "users
tokens
crates
access a
access b
ada index 1/a
ada index 1/b
bob index 1/a";

fn answer_text(alloc: Global, answer: Answer) -> Result<String, AllocError> {
    match answer {
        Answer::Denied(rule) => format!(in alloc; "{rule:?}"),
        Answer::Granted => String::from_str(alloc, "granted"),
        Answer::File(bytes) => body_text(alloc, &bytes),
        Answer::Archive(bytes) => body_text(alloc, &bytes),
        Answer::Owners(owners) => body_text(alloc, &owners_body(alloc, &owners)?),
        Answer::Refused(refusal) => order_text(alloc, &Err(refusal)),
        Answer::Replied(reply) => order_text(alloc, &Ok(reply)),
    }
}

/// Blocks of each small size: more than the allocator keeps of those that were freed.
fn spare_blocks(alloc: Global) -> Result<Vec<Vec<u8>>, AllocError> {
    let mut blocks = Vec::with_capacity(alloc, SPARE_BLOCKS as usize)?;
    for k in 0..SPARE_BLOCKS {
        blocks.push(Vec::with_capacity(alloc, (k / 8) as usize * 16 + 8)?)?;
    }
    Ok(blocks)
}

/// What an event is answered with this amount of memory, or with all.
fn told(
    alloc: Global,
    plain: &mut PlainRegistry,
    event: &Event,
    amount: Option<u32>,
) -> Result<String, AllocError> {
    let spare = spare_blocks(alloc)?;
    let memory = leave_only(alloc, amount)?;
    let answer = plain.step(event);
    drop(memory);
    drop(spare);
    answer_text(alloc, answer)
}

/// What a line is answered with this amount of memory, or with all. Its own answer is left out.
fn answered(
    alloc: Global,
    plain: &mut PlainRegistry,
    line: &str,
    amount: Option<u32>,
) -> Result<String, AllocError> {
    let (call, _answer) = line.split_once(" -> ").unwrap_or((line, ""));
    let parts = Parts::read(alloc, call)?;
    if let Some(command) = parts.command() {
        return told(alloc, plain, &Event::Order(command), amount);
    }
    let Some(request) = parts.request() else {
        return String::from_str(alloc, "no such words");
    };
    let digest = digest_shown(&request);
    let asked = read_call(alloc, &request.call, &Limits::STANDARD)?;
    let event = Event::Ask(digest.as_ref(), asked);
    told(alloc, plain, &event, amount)
}

/// What lines are answered.
fn all_answered(
    alloc: Global,
    plain: &mut PlainRegistry,
    lines: &str,
) -> Result<String, AllocError> {
    let mut text = String::new(alloc);
    for line in lines.lines() {
        text.push_str(&answered(alloc, plain, line, None)?)?;
        text.push('\n')?;
    }
    Ok(text)
}

fn full(alloc: Global) -> Result<PlainRegistry, AllocError> {
    let mut plain = PlainRegistry::new(alloc, Limits::STANDARD);
    all_answered(alloc, &mut plain, TWO_ACCOUNTS_AND_A)?;
    all_answered(alloc, &mut plain, FULL)?;
    Ok(plain)
}

/// What a line is answered once there is enough memory, and how many amounts were too little; or
/// that something was changed though there was too little.
#[derive(Drop)]
struct Tried {
    answer: String,
    wanting: u32,
}

fn is_want(answer: &str) -> bool {
    matches!(answer, "S1" | "G10")
}

/// Asks with more and more memory, as long as that is too little and nothing has changed.
fn try_amounts(alloc: Global, plain: &mut PlainRegistry, line: &str) -> Result<Tried, AllocError> {
    let before = all_answered(alloc, plain, LOOKS)?;
    for wanting in 0..MOST_AMOUNTS {
        let amount = wanting.saturating_mul(STEP).saturating_add(STEP);
        let answer = answered(alloc, plain, line, Some(amount))?;
        if !is_want(&answer) {
            return Ok(Tried { answer, wanting });
        }
        if all_answered(alloc, plain, LOOKS)? != before {
            let answer = String::from_str(alloc, "changed")?;
            return Ok(Tried { answer, wanting });
        }
    }
    let answer = String::from_str(alloc, "never enough")?;
    Ok(Tried {
        answer,
        wanting: MOST_AMOUNTS,
    })
}

/// What is wrong with a line; none where it is answered as it says, with ample memory and after a
/// few amounts that were too little, and both registries are in the same state then.
fn fault_of(
    alloc: Global,
    ample: &mut PlainRegistry,
    scarce: &mut PlainRegistry,
    line: &str,
) -> Result<Option<String>, AllocError> {
    let (call, want) = line.split_once(" -> ").unwrap_or((line, "no arrow"));
    let found = answered(alloc, ample, line, None)?;
    let Tried { answer, wanting } = try_amounts(alloc, scarce, line)?;
    let is_same = all_answered(alloc, ample, LOOKS)? == all_answered(alloc, scarce, LOOKS)?;
    if is_same && found.as_str() == want && answer.as_str() == want && wanting > 1 {
        return Ok(None);
    }
    Ok(Some(format!(in alloc; "{call}: found {found}, then {answer} after {wanting}")?))
}

fn first_fault(
    alloc: Global,
    ample: &mut PlainRegistry,
    scarce: &mut PlainRegistry,
    lines: &str,
) -> Result<Option<String>, AllocError> {
    for line in lines.lines() {
        let fault = fault_of(alloc, ample, scarce, line)?;
        if fault.is_some() {
            return Ok(fault);
        }
    }
    Ok(None)
}

fn fault_in(alloc: Global, script: &str) -> Result<Option<String>, AllocError> {
    let lines = script.replace(alloc, "\n    ", "")?;
    first_fault(alloc, &mut full(alloc)?, &mut full(alloc)?, &lines)
}

/// Plays lines on a registry whose lists are full: fails where one is answered otherwise.
fn play_scarce<R: Abort + AllocGlobal>(rt: &R, script: &str) {
    match fault_in(rt.alloc(), script) {
        Ok(None) => {}
        Ok(Some(fault)) => panic!(rt; "{fault}"),
        Err(_) => panic!(rt; "no memory"),
    }
}

#[test]
fn requests(rt: HostRuntime) {
    let script = r#"ada index 1/a -> 
    {"cksum":"e3b0c44298fc1c149afbf4c8996fb92427ae41e4649b934ca495991b7852b855",
    "deps":[],"features":{},"links":null,"name":"a","rust_version":null,
    "vers":"0.1.0","yanked":false}<0a>
ada owners a -> {"users":[{"id":1,"login":"ada","name":"Ada"}]}
ada yank a 0.1.0 -> granted
ada add-owners a {"users":["bob","carol"]} -> granted
ada remove-owners a {"users":["dora"]} -> O3"#;
    play_scarce(&rt, script);
}

#[test]
fn publishes(rt: HostRuntime) {
    let script = "ada release b 0.1.0 abc -> granted
ada release a 0.2.0 abc -> granted";
    play_scarce(&rt, script);
}

#[test]
fn commands(rt: HostRuntime) {
    let script = "user-add eve Eve -> done
token-add bob yank a,b-* fifth -> 5
reserve b -> done
owner-add a bob -> done";
    play_scarce(&rt, script);
}

#[test]
fn restricting(rt: HostRuntime) {
    let script = "crate-restrict a -> done
reader-add a bob -> done";
    play_scarce(&rt, script);
}

#[test]
fn reports(rt: HostRuntime) {
    let script = "access a ->        1  publish-update  ada<0a>
           1  yank            ada<0a>
           1  change-owners   ada<0a>
users ->        1  ada                               enabled   Ada<0a>
           2  bob                               enabled   -<0a>
           3  carol                             enabled   -<0a>
           4  dora                              enabled   -<0a>
crates -> a                                                                      1  0.1.0<0a>
    c                                                                      1  0.1.0<0a>
    d                                                                      1  0.1.0<0a>
    e                                                                      1  0.1.0<0a>
tokens ->        1  ada                               live     publish-new,publish-update,
    yank,change-owners  *<0a>
           2  bob                               live     publish-update,yank  *<0a>
           3  carol                             live     publish-new,publish-update,
    yank,change-owners  *<0a>
           4  dora                              live     publish-new,publish-update,
    yank,change-owners  *<0a>";
    play_scarce(&rt, script);
}
