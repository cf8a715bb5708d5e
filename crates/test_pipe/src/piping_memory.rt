//! A setup file and a stream after it, with each amount of memory.
//!
//! A line of the script is a way that the run may end: its status, what it says, and the replies
//! that it wrote. Behind the arrow is how a second run goes, with ample memory, which asks for
//! what the first one did: each thing that was answered as done, and nothing else.

use crate::piping::REPLIED;
use reg_body::{Counted, Limits};
use reg_cli_line::Exit;
use reg_cli_run::run_pipe;
use reg_service::Registry;
use sqlite::{Alter, Connection};
use std::alloc::{AllocError, Global};
use std::test::Fail;
use test_support::scarce_memory::Amounts;

/// Two accounts, each with a token.
const TWO_ACCOUNTS: &str = "user-add ada --name Ada
user-add bob
token-add ada --endpoints publish-new,publish-update,yank,change-owners --digest \
ba7816bf8f01cfea414140de5dae2223b00361a396177a9cb410ff61f20015ad
token-add bob --endpoints publish-update,yank --digest \
248d6a61d20638b8e5c026930c3e6039a33ce45964ff2167f6ecedd419db06c1
";

/// The setup of the first run: bob is disabled, and `b` is reserved.
const SETUP: &str = "user-disable bob\nreserve b\n";

/// The stream of the first run: ada publishes `a`, and asks for its index file.
const STREAM: &str = "PUT /api/v1/crates/new HTTP/1.1\r\nhost: r\r\n\
authorization: abc\r\ncontent-length: 35\r\n\r\n\
\x1b\0\0\0{\"name\":\"a\",\"vers\":\"0.1.0\"}\0\0\0\0\
GET /index/1/a HTTP/1.1\r\nhost: r\r\nauthorization: abc\r\n\r\n";

/// The stream of the second run: bob asks for the config, ada publishes `b`, and asks for the
/// index file of `a`.
const SECOND: &str = "GET /index/config.json HTTP/1.1\r\nhost: r\r\n\
authorization: abcdbcdecdefdefgefghfghighijhijkijkljklmklmnlmnomnopnopq\r\n\r\n\
PUT /api/v1/crates/new HTTP/1.1\r\nhost: r\r\n\
authorization: abc\r\ncontent-length: 35\r\n\r\n\
\x1b\0\0\0{\"name\":\"b\",\"vers\":\"0.1.0\"}\0\0\0\0\
GET /index/1/a HTTP/1.1\r\nhost: r\r\nauthorization: abc\r\n\r\n";

const INDEX_FILE: &str = "HTTP/1.1 200 OK\r\ncontent-type: text/plain\r\n\
content-length: 175\r\n\r\n\
{\"cksum\":\"e3b0c44298fc1c149afbf4c8996fb92427ae41e4649b934ca495991b7852b855\",\
\"deps\":[],\"features\":{},\"links\":null,\"name\":\"a\",\"rust_version\":null,\
\"vers\":\"0.1.0\",\"yanked\":false}\n";

/// The whole replies that there are.
const REPLIES: [(&str, &str); 8] = [
    ("config", REPLIED),
    ("file", INDEX_FILE),
    (
        "published",
        "HTTP/1.1 200 OK\r\ncontent-type: application/json\r\ncontent-length: 69\r\n\r\n\
        {\"warnings\":{\"invalid_badges\":[],\"invalid_categories\":[],\"other\":[]}}",
    ),
    (
        "A4",
        "HTTP/1.1 403 Forbidden\r\ncontent-type: application/json\r\ncontent-length: 42\r\n\r\n\
        {\"errors\":[{\"detail\":\"A4 user disabled\"}]}",
    ),
    (
        "A8",
        "HTTP/1.1 404 Not Found\r\ncontent-type: application/json\r\ncontent-length: 42\r\n\r\n\
        {\"errors\":[{\"detail\":\"A8 no such crate\"}]}",
    ),
    (
        "N2",
        "HTTP/1.1 409 Conflict\r\ncontent-type: application/json\r\ncontent-length: 51\r\n\r\n\
        {\"errors\":[{\"detail\":\"N2 crate name is reserved\"}]}",
    ),
    (
        "S1",
        "HTTP/1.1 503 Service Unavailable\r\ncontent-type: application/json\r\n\
        content-length: 46\r\n\r\n{\"errors\":[{\"detail\":\"S1 storage or memory\"}]}",
    ),
    (
        "S1-closed",
        "HTTP/1.1 503 Service Unavailable\r\ncontent-type: application/json\r\n\
        content-length: 46\r\nconnection: close\r\n\r\n\
        {\"errors\":[{\"detail\":\"S1 storage or memory\"}]}",
    ),
];

/// The name of the first reply, and what follows it.
fn first_reply(written: &[u8]) -> Option<(&'static str, &[u8])> {
    for (name, reply) in &REPLIES {
        if let Some(rest) = written.strip_prefix(reply.as_bytes()) {
            return Some((*name, rest));
        }
    }
    None
}

/// How a run went: how it ended, and the names of the replies that it wrote.
fn told(alloc: Global, exit: Exit, written: &[u8]) -> Result<String, AllocError> {
    let mut text = format!(in alloc; "{} {}:", exit.status, exit.message)?;
    let mut rest = written;
    for _ in 0..10 {
        if rest.is_empty() {
            return Ok(text);
        }
        let (name, more) = first_reply(rest).unwrap_or(("other", &[]));
        text.push(' ')?;
        text.push_str(name)?;
        rest = more;
    }
    Ok(text)
}

/// Runs a setup and a stream. What it wrote is added to `taken`.
fn run<S: Alter>(
    alloc: Global,
    registry: &mut Registry<S>,
    setup: &str,
    stream: &str,
    taken: Vec<u8>,
) -> (Exit, Vec<u8>) {
    let _turns = registry.limits().turns;
    let mut reader = Counted::new(stream.as_bytes());
    let mut writer = Counted::new(taken);
    let exit = run_pipe(alloc, registry, setup, &mut reader, &mut writer);
    (exit, writer.into_inner())
}

/// Runs the first setup and stream with so many bytes of memory.
fn run_scarcely<S: Alter>(
    alloc: Global,
    registry: &mut Registry<S>,
    size: u32,
) -> Result<String, AllocError> {
    let taken = Vec::with_capacity(alloc, 1_000)?;
    let mut amounts = Amounts::new(alloc, 1, size)?;
    if !amounts.advance(alloc) {
        return Err(AllocError);
    }
    let (exit, written) = run(alloc, registry, SETUP, STREAM, taken);
    drop(amounts);
    told(alloc, exit, &written)
}

/// How a first run with so many bytes of memory goes over two accounts, and the second run.
fn runs<S: Alter>(
    alloc: Global,
    registry: &mut Registry<S>,
    size: u32,
) -> Result<String, AllocError> {
    let (_, _) = run(alloc, registry, TWO_ACCOUNTS, "", Vec::new(alloc));
    let first = run_scarcely(alloc, registry, size)?;
    let (exit, written) = run(alloc, registry, "", SECOND, Vec::new(alloc));
    let second = told(alloc, exit, &written)?;
    format!(in alloc; "{first} -> {second}")
}

/// How two runs over a new registry go.
fn piped(alloc: Global, size: u32) -> Result<String, Fail> {
    let conn = Connection::open_in_memory(alloc)?;
    if !conn.is_autocommit() {
        return Err("begun")?;
    }
    match Registry::create(conn, "http://127.0.0.1:8080", Limits::STANDARD) {
        Ok(mut registry) => Ok(runs(alloc, &mut registry, size)?),
        Err((_conn, _fault)) => Err("not made")?,
    }
}

/// How many amounts there are at most, and by how many bytes they differ.
const AMOUNTS: (u32, u32) = (400, 1_500);

/// With too little memory for the setup, for reading a request, or for answering it.
const WAYS: &str = "3 memory: -> 0 : config published A8
3 G10 storage or memory: -> 0 : config published A8
3 memory: -> 0 : A4 published A8
3 G10 storage or memory: -> 0 : A4 published A8
3 memory: -> 0 : A4 N2 A8
0 : S1-closed -> 0 : A4 N2 A8
0 : S1 S1-closed -> 0 : A4 N2 A8
0 : S1 S1 -> 0 : A4 N2 A8
0 : S1 A8 -> 0 : A4 N2 A8
0 : published S1-closed -> 0 : A4 N2 file
0 : published S1 -> 0 : A4 N2 file";

/// With enough.
const ENOUGH: &str = "0 : published file -> 0 : A4 N2 file";

/// What is wrong up to the first amount that is enough, and how many are too little.
fn first_fault(alloc: Global) -> Result<(Option<String>, u32), Fail> {
    for k in 0..AMOUNTS.0 {
        let found = piped(alloc, k.saturating_mul(AMOUNTS.1))?;
        if found.as_str() == ENOUGH {
            return Ok((None, k));
        }
        if !WAYS.lines().any(|way| way == found.as_str()) {
            return Ok((Some(found), k));
        }
    }
    Ok((None, AMOUNTS.0))
}

#[test]
fn each_amount_of_memory(rt: HostRuntime) -> Result<(), Fail> {
    let (fault, scarce) = first_fault(rt.alloc())?;
    if let Some(fault) = fault {
        return Err(Fail::new(fault));
    }
    assert!(rt; scarce > 20 && scarce < AMOUNTS.0);
    Ok(())
}
