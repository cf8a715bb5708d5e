//! Setups and streams with their trail: each kind of line, and a trail that fails.

use reg_body::{Counted, Limits};
use reg_cli_line::Exit;
use reg_cli_run::pipe_traced;
use reg_http::Trail;
use reg_service::Registry;
use sqlite::{Alter, Connection};
use std::alloc::Global;
use std::io;
use std::io::Write;
use std::test::Fail;

/// Commands, of which the third and the last but one change nothing. The first token has the text
/// `abc`.
const SETUP: &str = "user-add ada --name Ada
user-add bob
user-enable bob
user-disable bob
user-enable bob
token-add ada --endpoints publish-new,publish-update,yank,change-owners --digest \
ba7816bf8f01cfea414140de5dae2223b00361a396177a9cb410ff61f20015ad
token-add bob --endpoints yank --patterns a,b-* --digest \
248d6a61d20638b8e5c026930c3e6039a33ce45964ff2167f6ecedd419db06c1
token-revoke 2
reserve b-1
reserve b-1
unreserve b-1
";

/// Requests: a publish of `A`, and of it as `a` a yank, the same again, an unyank, an owner who is
/// added and removed; then a reading, and a yank by the token that was revoked.
const STREAM: &[u8] = b"PUT /api/v1/crates/new HTTP/1.1\r\nhost: r\r\n\
authorization: abc\r\ncontent-length: 35\r\n\r\n\
\x1b\0\0\0{\"name\":\"A\",\"vers\":\"0.1.0\"}\0\0\0\0\
DELETE /api/v1/crates/a/0.1.0/yank HTTP/1.1\r\nhost: r\r\nauthorization: abc\r\n\r\n\
DELETE /api/v1/crates/a/0.1.0/yank HTTP/1.1\r\nhost: r\r\nauthorization: abc\r\n\r\n\
PUT /api/v1/crates/a/0.1.0/unyank HTTP/1.1\r\nhost: r\r\nauthorization: abc\r\n\r\n\
PUT /api/v1/crates/a/owners HTTP/1.1\r\nhost: r\r\nauthorization: abc\r\n\
content-length: 17\r\n\r\n{\"users\":[\"bob\"]}\
DELETE /api/v1/crates/a/owners HTTP/1.1\r\nhost: r\r\nauthorization: abc\r\n\
content-length: 17\r\n\r\n{\"users\":[\"bob\"]}\
GET /index/1/a HTTP/1.1\r\nhost: r\r\nauthorization: abc\r\n\r\n\
DELETE /api/v1/crates/a/0.1.0/yank HTTP/1.1\r\nhost: r\r\n\
authorization: abcdbcdecdefdefgefghfghighijhijkijkljklmklmnlmnomnopnopq\r\n\r\n";

/// Commands on the crate, each twice: the second changes nothing.
const LATER: &str = "owner-add a bob
owner-add a bob
crate-restrict a
crate-restrict a
reader-add a bob
reader-add a bob
reader-remove a bob
reader-remove a bob
crate-open a
crate-open a
";

/// What all of it leaves.
const TRAIL: &str = "- admin user-add ada --name Ada
- admin user-add bob
- admin user-disable bob
- admin user-enable bob
- admin token-add ada --endpoints publish-new,publish-update,yank,change-owners --patterns *
- admin token-add bob --endpoints yank --patterns a,b-*
- admin token-revoke 2
- admin reserve b-1
- admin unreserve b-1
1 ada publish A 0.1.0
1 ada yank A 0.1.0
1 ada unyank A 0.1.0
1 ada add-owners A bob
1 ada remove-owners A bob
- admin owner-add A bob
- admin crate-restrict A
- admin reader-add A bob
- admin reader-remove A bob
- admin crate-open A
";

/// Where the trail goes: it takes a byte a write, and fails after so many.
#[derive(Drop)]
struct Sink {
    taken: Vec<u8>,
    left: u64,
}

impl Write for Sink {
    fn write(&mut self, buf: &[u8]) -> io::Result<usize> {
        if self.left == 0 {
            return Err(io::Error::other("full"));
        }
        self.left -= 1;
        let Some(byte) = buf.first() else {
            return Ok(0);
        };
        match self.taken.push(*byte) {
            Ok(()) => Ok(1),
            Err(_) => Ok(0),
        }
    }

    fn flush(&mut self) -> io::Result<()> {
        Ok(())
    }
}

/// Runs a setup and a stream. What is replied is added to `written`.
fn run<S: Alter>(
    alloc: Global,
    registry: &mut Registry<S>,
    setup: &str,
    stream: &[u8],
    written: Vec<u8>,
    trail: &mut Trail<Sink>,
) -> (Exit, Vec<u8>) {
    let _turns = registry.limits().turns;
    let mut reader = Counted::new(stream);
    let mut writer = Counted::new(written);
    let exit = pipe_traced(alloc, registry, setup, &mut reader, &mut writer, trail);
    (exit, writer.into_inner())
}

/// The replies and the trail of all of it over a new registry, where the trail takes so many
/// writes; none where a run did not end well.
fn traced(alloc: Global, writes: u64) -> Option<(Vec<u8>, Vec<u8>)> {
    let conn = Connection::open_in_memory(alloc).ok()?;
    if !conn.is_autocommit() {
        return None;
    }
    let made = Registry::create(conn, "http://127.0.0.1:8080", Limits::STANDARD);
    let Ok(mut registry) = made else {
        return None;
    };
    let sink = Sink {
        taken: Vec::new(alloc),
        left: writes,
    };
    let mut trail = Trail::new(sink, u64::MAX);
    let of = &mut registry;
    let (first, written) = run(alloc, of, SETUP, STREAM, Vec::new(alloc), &mut trail);
    let (last, written) = run(alloc, of, LATER, &[], written, &mut trail);
    if first != Exit::DONE || last != Exit::DONE {
        return None;
    }
    Some((written, trail.into_inner().taken))
}

#[test]
fn each_change_has_its_line(rt: HostRuntime) {
    let Some((replies, trail)) = traced(rt.alloc(), u64::MAX) else {
        assert!(rt; false);
        return;
    };
    assert_eq!(rt; std::str::from_utf8(&trail).unwrap_or("no text"), TRAIL);
    assert_eq!(rt; replies.is_empty(), false);
}

/// The trail fails before its first byte, within a line, and behind one.
#[test]
fn a_trail_that_fails_changes_no_reply(rt: HostRuntime) -> Result<(), Fail> {
    let Some((replies, _)) = traced(rt.alloc(), u64::MAX) else {
        assert!(rt; false);
        return Ok(());
    };
    for writes in [0, 1, 31, 32, 33, 100, 500] {
        let Some((same, trail)) = traced(rt.alloc(), writes) else {
            return Err(Fail::new(format!(in rt.alloc(); "{writes}: not done")?));
        };
        assert_eq!(rt; same.as_slice(), replies.as_slice());
        assert_eq!(rt; trail.as_slice(), &TRAIL.as_bytes()[..writes as usize]);
    }
    Ok(())
}
