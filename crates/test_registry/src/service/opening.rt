//! Registries are made and opened, by their worked examples.
//!
//! Blocks of lines have an empty line between them. One that begins with `create` or `open` is
//! played over the registry that this makes or opens, any other over the connection alone.

use sqlite::{Alter, Connection};
use std::alloc::{AllocError, Global};
use std::process::Abort;
use test_scripts::{Fault, play as play_over, setup_of};
use test_support::spreading::spread;
use test_tables::by_line;

/// Statements and words on the tables, each with its answer. A line may have one, which is left
/// out.
fn altered<S: Alter>(
    alloc: Global,
    conn: &mut Connection<S>,
    lines: &str,
) -> Result<String, AllocError> {
    let mut text = String::new(alloc);
    for line in lines.lines() {
        let (call, _answer) = line.split_once(" -> ").unwrap_or((line, ""));
        let found = by_line(alloc, conn, call)?;
        text.push_str(&format!(in alloc; "{call} -> {found}\n")?)?;
    }
    Ok(text)
}

/// The connection after a block, and its lines, each with its answer.
fn block_over<S: Alter + Drop>(
    alloc: Global,
    mut conn: Connection<S>,
    block: &str,
) -> (Connection<S>, Result<String, AllocError>) {
    if block.starts_with("create") || block.starts_with("open") {
        let (conn, played) = play_over(alloc, conn, block, None);
        return (conn, played.map(|found| found.lines));
    }
    let text = altered(alloc, &mut conn, block);
    (conn, text)
}

/// The first block that is answered otherwise than it says, with its answers.
fn blocks_over<S: Alter + Drop>(
    alloc: Global,
    mut conn: Connection<S>,
    blocks: &str,
) -> Result<Option<String>, AllocError> {
    for block in blocks.split("\n\n") {
        let (next, found) = block_over(alloc, conn, block);
        conn = next;
        let found = found?;
        if found.strip_suffix('\n') != Some(block) {
            return Ok(Some(found));
        }
    }
    Ok(None)
}

/// The blocks of a script, with those of the registry that it begins with.
fn blocks_of(alloc: Global, script: &str) -> Result<String, AllocError> {
    let (first, lines) = script.split_once('\n').unwrap_or((script, "no lines"));
    let whole = spread(alloc, &lines.replace(alloc, "\n    ", "")?)?;
    match setup_of(first) {
        "" => Ok(whole),
        setup => format!(in alloc; "create -> done\n{setup}{whole}"),
    }
}

fn fault_in(alloc: Global, script: &str) -> Result<Option<String>, Fault> {
    let blocks = blocks_of(alloc, script)?;
    Ok(blocks_over(alloc, Connection::open_in_memory(alloc)?, &blocks)?)
}

/// Plays a script: fails where a line of it is answered otherwise than it says.
pub(crate) fn play<R: Abort + AllocGlobal>(rt: &R, script: &str) {
    match fault_in(rt.alloc(), script) {
        Ok(None) => {}
        Ok(Some(found)) => panic!(rt; "{found}"),
        Err(fault) => panic!(rt; "{fault:?}"),
    }
}

const OPENING: &str = "given nothing
open -> UnknownSchema

create r/ -> BadBase

create -> done
audit -> none

create -> UnknownSchema

open -> done
audit -> none";

#[test]
fn opening(rt: HostRuntime) {
    play(&rt, OPENING);
}

const THE_SAME_REGISTRY: &str = r#"given two-accounts-and-a
users ->        1  ada                               enabled   Ada<0a>
           2  bob                               enabled   -<0a>
crates -> a                                                                      1  0.1.0<0a>
export -> config.json(95) {"api":"http://127.0.0.1:8080","auth-required":true,
    "dl":"http://127.0.0.1:8080/api/v1/crates"};1/a(175)
     {"cksum":"e3b0c44298fc1c149afbf4c8996fb92427ae41e4649b934ca495991b7852b855",
    "deps":[],"features":{},"links":null,"name":"a","rust_version":null,
    "vers":"0.1.0","yanked":false}<0a>;

open -> done
users ->        1  ada                               enabled   Ada<0a>
           2  bob                               enabled   -<0a>
crates -> a                                                                      1  0.1.0<0a>
export -> config.json(95) {"api":"http://127.0.0.1:8080","auth-required":true,
    "dl":"http://127.0.0.1:8080/api/v1/crates"};1/a(175)
     {"cksum":"e3b0c44298fc1c149afbf4c8996fb92427ae41e4649b934ca495991b7852b855",
    "deps":[],"features":{},"links":null,"name":"a","rust_version":null,
    "vers":"0.1.0","yanked":false}<0a>;
audit -> none"#;

#[test]
fn the_same_registry(rt: HostRuntime) {
    play(&rt, THE_SAME_REGISTRY);
}

const ALTERED_STORES: &str = r#"given two-accounts
ada release a 0.1.0 abc -> Json
     {"warnings":{"invalid_badges":[],"invalid_categories":[],"other":[]}}

UPDATE archives SET bytes = x'616264' -> done

open -> Damaged(C4)

UPDATE archives SET bytes = x'616263' -> done
UPDATE summaries SET index_length = 176 -> done

open -> Damaged(C7)

UPDATE summaries SET index_length = 175 -> done
stem {"cksum":"ba7816bf8f01cfea414140de5dae2223b00361a396177a9cb410ff61f20015ad","deps":1,
    "features":{},"links":null,"name":"a","rust_version":null,"vers":"0.1.0","yanked": -> done

open -> Damaged(C5)

stem {"cksum":"ba7816bf8f01cfea414140de5dae2223b00361a396177a9cb410ff61f20015ad","deps":[],
    "features":{},"links":null,"name":"a","rust_version":null,"vers":"0.1.0","yanked": -> done

open -> done
audit -> none"#;

#[test]
fn altered_stores(rt: HostRuntime) {
    play(&rt, ALTERED_STORES);
}

const OLD_SCHEMA: &str = r#"given nothing
make-old -> done
rows SELECT schema FROM about -> 1;

open -> done
ada index 1/a -> Text(175)
     {"cksum":"ba7816bf8f01cfea414140de5dae2223b00361a396177a9cb410ff61f20015ad",
    "deps":[],"features":{},"links":null,"name":"a","rust_version":null,
    "vers":"0.1.0","yanked":false}<0a>

rows SELECT schema FROM about -> 2;

open -> done
ada index 1/a -> Text(175)
     {"cksum":"ba7816bf8f01cfea414140de5dae2223b00361a396177a9cb410ff61f20015ad",
    "deps":[],"features":{},"links":null,"name":"a","rust_version":null,
    "vers":"0.1.0","yanked":false}<0a>
audit -> none

rows SELECT schema FROM about -> 2;
UPDATE about SET schema = 3 -> done

open -> UnknownSchema"#;

#[test]
fn old_schema(rt: HostRuntime) {
    play(&rt, OLD_SCHEMA);
}

const AN_OLD_DAMAGED_STORE: &str = "given nothing
make-old -> done
UPDATE archives SET bytes = x'616264' -> done

open -> Damaged(C4)

rows SELECT schema FROM about -> 1;";

#[test]
fn an_old_damaged_store(rt: HostRuntime) {
    play(&rt, AN_OLD_DAMAGED_STORE);
}

/// Of schema 1 it lacks the tables of restricted crates and of readers.
const TWO_ACCOUNTS_AND_A_OF_THE_OLD_SCHEMA: &str = r#"given two-accounts-and-a

DROP TABLE readers -> done
DROP TABLE restricted -> done
UPDATE about SET schema = 1 -> done
UPDATE archives SET bytes = x'61' -> done

open -> Damaged(C4)

rows SELECT schema FROM about -> 1;
rows SELECT length(bytes) FROM archives -> 1;
UPDATE archives SET bytes = x'' -> done

open -> done
users ->        1  ada                               enabled   Ada<0a>
           2  bob                               enabled   -<0a>
tokens ->        1  ada                               live     publish-new,publish-update,
    yank,change-owners  *<0a>
           2  bob                               live     publish-update,yank  *<0a>
bob owners a -> Json {"users":[{"id":1,"login":"ada","name":"Ada"}]}
export -> config.json(95) {"api":"http://127.0.0.1:8080","auth-required":true,
    "dl":"http://127.0.0.1:8080/api/v1/crates"};1/a(175)
     {"cksum":"e3b0c44298fc1c149afbf4c8996fb92427ae41e4649b934ca495991b7852b855",
    "deps":[],"features":{},"links":null,"name":"a","rust_version":null,
    "vers":"0.1.0","yanked":false}<0a>;
ada download a 0.1.0 -> Archive(0) 
crate-restrict a -> done
bob download a 0.1.0 -> A8
audit -> none

rows SELECT schema FROM about -> 2;"#;

#[test]
fn two_accounts_and_a_of_the_old_schema(rt: HostRuntime) {
    play(&rt, TWO_ACCOUNTS_AND_A_OF_THE_OLD_SCHEMA);
}

const STORE_ABOVE_A_LIMIT: &str = r#"given two-accounts-and-a
ada release a 0.2.0 -> Json
     {"warnings":{"invalid_badges":[],"invalid_categories":[],"other":[]}}

open versions=1 -> done
ada release a 0.3.0 -> L1
ada yank a 0.1.0 -> Json {"ok":true}"#;

#[test]
fn store_above_a_limit(rt: HostRuntime) {
    play(&rt, STORE_ABOVE_A_LIMIT);
}

const LARGER_LIMITS: &str = r#"given two-accounts-and-a
ada yank a 0.1.0 -> Json {"ok":true}

open versions=1 crates=1 -> done
ada release b 0.1.0 -> L2
export -> config.json(95) {"api":"http://127.0.0.1:8080","auth-required":true,
    "dl":"http://127.0.0.1:8080/api/v1/crates"};1/a(174)
     {"cksum":"e3b0c44298fc1c149afbf4c8996fb92427ae41e4649b934ca495991b7852b855",
    "deps":[],"features":{},"links":null,"name":"a","rust_version":null,
    "vers":"0.1.0","yanked":true}<0a>;
ada download a 0.1.0 -> Archive(0) 

open -> done
export -> config.json(95) {"api":"http://127.0.0.1:8080","auth-required":true,
    "dl":"http://127.0.0.1:8080/api/v1/crates"};1/a(174)
     {"cksum":"e3b0c44298fc1c149afbf4c8996fb92427ae41e4649b934ca495991b7852b855",
    "deps":[],"features":{},"links":null,"name":"a","rust_version":null,
    "vers":"0.1.0","yanked":true}<0a>;
ada download a 0.1.0 -> Archive(0) 
ada release b 0.1.0 -> Json
     {"warnings":{"invalid_badges":[],"invalid_categories":[],"other":[]}}"#;

#[test]
fn larger_limits(rt: HostRuntime) {
    play(&rt, LARGER_LIMITS);
}
