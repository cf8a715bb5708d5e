//! A publish body becomes a line: the worked examples, failing ends, and without memory.

use crate::layers::memory::{Call, try_each};
use crate::layers::script::play;
use reg_body::{Counted, Limits, join};
use reg_cli_line::{Exit, run_line, run_line_within};
use std::alloc::{AllocError, Global};
use std::io;
use std::io::{Read, Write};
use std::test::Fail;
use test_support::examples::{FIRST_BODY, RENAMED_JSON, RENAMED_LINE};

#[test]
fn first_line(rt: HostRuntime) -> Result<(), Fail> {
    let script = r#"line-of-body <1b><00><00><00>{"name":"a","vers":"0.1.0"}<00><00><00><00>
     -> 0 '' 179:1/a<0a>
    {"cksum":"e3b0c44298fc1c149afbf4c8996fb92427ae41e4649b934ca495991b7852b855","deps":[],
    "features":{},"links":null,"name":"a","rust_version":null,"vers":"0.1.0",
    "yanked":false}<0a>"#;
    play(rt.alloc(), script)
}

#[test]
fn renamed_dependency(rt: HostRuntime) -> Result<(), Fail> {
    let script = r#"line-of-metadata {"name":"acme-net","vers":"1.0.0-rc.1",
    "deps":[{"name":"serde","version_req":"^1.0","features":["derive"],"optional":true,
    "default_features":false,"target":null,"kind":"normal","registry":null,
    "explicit_name_in_toml":"codec"}],"features":{"std":[],"wire":["dep:codec"]},
    "rust_version":"1.70"}|abc
     -> 0 '' 409:ac/me/acme-net<0a>
    {"cksum":"ba7816bf8f01cfea414140de5dae2223b00361a396177a9cb410ff61f20015ad",
    "deps":[{"default_features":false,"features":["derive"],"kind":"normal",
    "name":"codec","optional":true,"package":"serde","registry":null,"req":"^1.0",
    "target":null}],"features":{"std":[]},"features2":{"wire":["dep:codec"]},
    "links":null,"name":"acme-net","rust_version":"1.70","v":2,
    "vers":"1.0.0-rc.1","yanked":false}<0a>"#;
    play(rt.alloc(), script)
}

/// A reader that gives one byte a call and fails after so many.
#[derive(Drop)]
struct Dripping<'a> {
    bytes: &'a [u8],
    left: u32,
}

impl Read for Dripping<'_> {
    fn read(&mut self, buf: &mut [u8]) -> io::Result<usize> {
        if self.left == 0 {
            return Err(io::Error::other("broken"));
        }
        self.left -= 1;
        let len = buf.len().min(1);
        (&mut self.bytes).read(&mut buf[..len])
    }
}

/// A writer that takes the bytes that are expected, at most so many a call, and no memory.
///
/// It fails after so many calls, and takes none of other bytes.
#[derive(Drop)]
struct Expecting<'a> {
    rest: &'a [u8],
    most: usize,
    left: u32,
}

impl Write for Expecting<'_> {
    fn write(&mut self, buf: &[u8]) -> io::Result<usize> {
        if self.left == 0 {
            return Err(io::Error::other("full"));
        }
        self.left -= 1;
        let len = buf.len().min(self.most);
        match self.rest.strip_prefix(&buf[..len]) {
            Some(rest) => {
                self.rest = rest;
                Ok(len)
            }
            None => Ok(0),
        }
    }

    fn flush(&mut self) -> io::Result<()> {
        Ok(())
    }
}

/// What `line` prints of the first example.
const PRINTED: &[u8] =
    b"1/a\n{\"cksum\":\"e3b0c44298fc1c149afbf4c8996fb92427ae41e4649b934ca495991b7852b855\",\
    \"deps\":[],\"features\":{},\"links\":null,\"name\":\"a\",\"rust_version\":null,\
    \"vers\":\"0.1.0\",\"yanked\":false}\n";

/// How `line` on the first example ends, reading and writing one byte a call, and how many of the
/// right bytes it printed.
fn first_by_bytes(alloc: Global, reads: u32, writes: u32, turns: u64) -> (Exit, u64) {
    let limits = Limits {
        turns,
        ..Limits::STANDARD
    };
    let mut reader = Counted::new(Dripping {
        bytes: FIRST_BODY,
        left: reads,
    });
    let mut writer = Counted::new(Expecting {
        rest: PRINTED,
        most: 1,
        left: writes,
    });
    let exit = run_line_within(alloc, &mut reader, &mut writer, &limits);
    let rest = writer.inner().rest.len();
    (exit, PRINTED.len().saturating_sub(rest) as u64)
}

#[test]
fn first_line_by_single_bytes(rt: HostRuntime) {
    // 35 bytes, the end, and 179 bytes.
    let (exit, printed) = first_by_bytes(rt.alloc(), 36, 179, 215);
    assert!(rt; exit == Exit::DONE && printed == 179);
}

/// Whether `line` ends in a fault of these words, and has printed so many of the right bytes.
fn is_fault((exit, printed): (Exit, u64), words: &str, count: u64) -> bool {
    exit.status == 3 && exit.message == words && printed == count
}

#[test]
fn failing_reader(rt: HostRuntime) {
    for reads in 0..36 {
        let end = first_by_bytes(rt.alloc(), reads, 179, 1000);
        assert!(rt; is_fault(end, "read fault", 0));
    }
}

#[test]
fn failing_writer(rt: HostRuntime) {
    for writes in 0..179 {
        let end = first_by_bytes(rt.alloc(), 36, writes, 1000);
        assert!(rt; is_fault(end, "write fault", u64::from(writes)));
    }
}

#[test]
fn spent_turns(rt: HostRuntime) {
    for turns in 0..215 {
        let end = first_by_bytes(rt.alloc(), 1000, 1000, turns);
        assert!(rt; is_fault(end, "too many turns", turns.saturating_sub(36)));
    }
}

/// The limits of long bodies handed in: how long metadata and archive are, and what is said.
#[test]
fn long_bodies(rt: HostRuntime) -> Result<(), Fail> {
    let script = "line-of-long-within 1048576 0 -> printed
line-of-long-within 1048577 0 -> B3 metadata or archive too long
line-of-long-within 2097152 0 -> B3 metadata or archive too long
line-of-long-within 27 10485760 -> printed
line-of-long-within 27 10485761 -> B3 metadata or archive too long";
    play(rt.alloc(), script)
}

/// The standard limits of long bodies.
#[test]
fn larger_limits(rt: HostRuntime) -> Result<(), Fail> {
    let script = "line-of-long 4194304 0 -> printed
line-of-long 4194305 0 -> B3 metadata or archive too long
line-of-long 27 33554432 -> printed
line-of-long 27 33554433 -> B3 metadata or archive too long";
    play(rt.alloc(), script)
}

/// Each refusal of `line`, by its own words, with nothing printed.
#[test]
fn refusals(rt: HostRuntime) -> Result<(), Fail> {
    let script = r#"line-of-metadata { -> 1 'B4 metadata is not JSON' 0:
line-of-metadata [] -> 1 'B5 metadata field missing or of the wrong kind' 0:
line-of-metadata {"name":"1abc","vers":"1.0.0"} -> 1 'N1 bad crate name' 0:
line-of-metadata {"name":"","vers":"1.0.0"} -> 1 'N1 bad crate name' 0:
line-of-metadata {"name":"a","vers":"1.0"} -> 1 'V1 bad version' 0:
line-of-metadata {"name":"a","vers":"1.0.0",
    "deps":[{"name":"b","version_req":"1","kind":"test"}]} -> 1 'M1 bad dependency' 0:"#;
    play(rt.alloc(), script)
}

#[test]
fn deep_nesting(rt: HostRuntime) -> Result<(), Fail> {
    let script = r#"line-of-nested 130 -> 1 'B4 metadata is not JSON' 0:
line-of-nested 126 -> 0 '' 179:1/a<0a>
    {"cksum":"e3b0c44298fc1c149afbf4c8996fb92427ae41e4649b934ca495991b7852b855","deps":[],
    "features":{},"links":null,"name":"a","rust_version":null,"vers":"1.0.0",
    "yanked":false}<0a>"#;
    play(rt.alloc(), script)
}

#[test]
fn frame_faults(rt: HostRuntime) -> Result<(), Fail> {
    let script = r#"line-of-body "" -> 1 'B1 publish body too short' 0:
line-of-body <1b><00><00> -> 1 'B1 publish body too short' 0:
line-of-body <1c><00><00><00>{"name":"a","vers":"0.1.0"}<00><00><00><00>
     -> 1 'B1 publish body too short' 0:
line-of-body <ff><ff><ff><ff>{}<00><00><00><00> -> 1 'B1 publish body too short' 0:
line-of-body <02><00><00><00>{}<00><00><00><00><00> -> 1 'B2 publish body has trailing bytes' 0:
line-of-body <02><00><00><00>"<ff><00><00><00><00> -> 1 'B4 metadata is not JSON' 0:"#;
    play(rt.alloc(), script)
}

/// `line` on a body that it has to print so.
#[derive(Clone, Copy)]
struct Converting<'a> {
    body: &'a [u8],
    want: &'a [u8],
}

impl Call for Converting<'_> {
    fn answers(&self, alloc: Global) -> Result<bool, AllocError> {
        let mut reader = Counted::new(self.body);
        let mut writer = Counted::new(Expecting {
            rest: self.want,
            most: usize::MAX,
            left: u32::MAX,
        });
        let exit = run_line(alloc, &mut reader, &mut writer);
        let rest = writer.inner().rest.len();
        if exit.status == 3 && exit.message == "memory" && rest == self.want.len() {
            return Err(AllocError);
        }
        Ok(exit == Exit::DONE && rest == 0)
    }
}

#[test]
fn each_amount_of_memory(rt: HostRuntime) -> Result<(), Fail> {
    let body = join(rt.alloc(), RENAMED_JSON.as_bytes(), b"abc")?;
    let want = format!(in rt.alloc(); "ac/me/acme-net\n{RENAMED_LINE}\n")?;
    let call = Converting {
        body: &body,
        want: want.as_bytes(),
    };
    try_each(&rt, 64, &call);
    Ok(())
}
