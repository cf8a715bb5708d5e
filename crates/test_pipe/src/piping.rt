//! A setup file and a stream after it.

use reg_body::{Counted, Limits};
use reg_cli_line::Exit;
use reg_cli_run::run_pipe;
use reg_service::Registry;
use sqlite::Connection;
use std::alloc::{AllocError, Global};
use std::test::Fail;

/// An account, and its token `abc`.
const ADA: &str = "user-add ada --name=Ada
token-add ada --endpoints publish-new --digest \
ba7816bf8f01cfea414140de5dae2223b00361a396177a9cb410ff61f20015ad
";

/// The request for the config, and its reply.
const ASKED: &str = "GET /index/config.json HTTP/1.1\r\nhost: r\r\nauthorization: abc\r\n\r\n";

pub(super) const REPLIED: &str = "HTTP/1.1 200 OK\r\ncontent-type: application/json\r\n\
content-length: 95\r\n\r\n{\"api\":\"http://127.0.0.1:8080\",\"auth-required\":true,\
\"dl\":\"http://127.0.0.1:8080/api/v1/crates\"}";

/// How a run over a new registry ends, and what it writes.
fn piped(alloc: Global, setup: &str, input: &[u8]) -> Option<(Exit, Vec<u8>)> {
    let conn = Connection::open_in_memory(alloc).ok()?;
    if !conn.is_autocommit() {
        return None;
    }
    let made = Registry::create(conn, "http://127.0.0.1:8080", Limits::STANDARD);
    let Ok(mut registry) = made else {
        return None;
    };
    let mut reader = Counted::new(input);
    let mut writer = Counted::new(Vec::new(alloc));
    let exit = run_pipe(alloc, &mut registry, setup, &mut reader, &mut writer);
    Some((exit, writer.into_inner()))
}

/// Whether a setup of ada and these lines ends so, and nothing is served.
fn serves_nothing(alloc: Global, lines: &str, status: u8, words: &str) -> Result<bool, AllocError> {
    let setup = format!(in alloc; "{ADA}{lines}")?;
    Ok(match piped(alloc, &setup, ASKED.as_bytes()) {
        Some((exit, written)) => {
            exit.status == status && exit.message == words && written.is_empty()
        }
        None => false,
    })
}

/// Lines that a setup file may not have.
const UNREADABLE: &str = "user-add  carol
user-add carol 
users
user-add carol --db x
user-add -
user-add -- carol
user-add carol --name -x
user-add carol --name=-x
token-add ada --endpoints yank
token-add ada --endpoints yank --random /dev/zero
token-revoke 4294967296
init --base http://127.0.0.1:8080
access a";

#[test]
fn a_setup_and_a_stream(rt: HostRuntime) {
    for setup in [ADA, ADA.trim_end()] {
        let Some((exit, written)) = piped(rt.alloc(), setup, ASKED.as_bytes()) else {
            assert!(rt; false);
            return;
        };
        assert!(rt; exit == Exit::DONE);
        assert_eq!(rt; written.as_slice(), REPLIED.as_bytes());
    }
}

#[test]
fn an_unfinished_setup_serves_nothing(rt: HostRuntime) -> Result<(), Fail> {
    let of = rt.alloc();
    assert!(rt; serves_nothing(of, "user-add ada", 1, "G2 login taken")?);
    assert!(rt;
        serves_nothing(
            of,
            "user-add bob\nuser-disable dan\n",
            1,
            "G3 no such login"
        )?
    );
    assert!(rt; serves_nothing(of, "user-disable ", 1, "G3 no such login")?);
    assert!(rt; serves_nothing(of, "\n", 2, "bad setup line")?);
    for line in UNREADABLE.split('\n') {
        assert!(rt; serves_nothing(of, line, 2, "bad setup line")?);
    }
    Ok(())
}
