//! A stream with each amount of memory.

use crate::playing::serve;
use crate::script::play;
use crate::stream::Stream;
use reg_http::StreamFault;
use reg_service::Registry;
use sqlite::Alter;
use std::alloc::{AllocError, Global};
use test_support::scarce_memory::Amounts;

/// Memory ran out where the connection goes on.
const WITHIN: &[u8] = b"HTTP/1.1 503 Service Unavailable\r\n\
    content-type: application/json\r\ncontent-length: 46\r\n\r\n\
    {\"errors\":[{\"detail\":\"S1 storage or memory\"}]}";

/// Memory ran out while a request was read, and the connection closes.
const WHILE_READ: &[u8] = b"HTTP/1.1 503 Service Unavailable\r\n\
    content-type: application/json\r\ncontent-length: 46\r\nconnection: close\r\n\r\n\
    {\"errors\":[{\"detail\":\"S1 storage or memory\"}]}";

const INTERIM: &[u8] = b"HTTP/1.1 100 Continue\r\n\r\n";

/// How a stream of one request went.
#[derive(Clone, Copy, PartialEq, Eq)]
enum Went {
    /// Before its first read.
    Before,
    /// While its request was read.
    Read,
    /// While its body was read, behind the interim line.
    ReadBehind,
    /// After that.
    Within,
    /// As with ample memory.
    Well,
    /// As it must not.
    Otherwise,
}

/// How a stream went that asks for the interim line.
fn behind_interim(taken: &[u8]) -> Went {
    match taken.strip_prefix(INTERIM) {
        Some(rest) if rest == WHILE_READ => Went::ReadBehind,
        Some(rest) if rest == WITHIN => Went::Within,
        _ => Went::Otherwise,
    }
}

fn outcome(answer: Result<u64, StreamFault>, taken: &[u8], told: &[u8]) -> Went {
    match answer {
        Err(StreamFault::Memory) if taken.is_empty() => Went::Before,
        Ok(1) if taken == WHILE_READ => Went::Read,
        Ok(1) if taken == told => Went::Well,
        Ok(1) if told.starts_with(INTERIM) => behind_interim(taken),
        Ok(1) if taken == WITHIN => Went::Within,
        _ => Went::Otherwise,
    }
}

/// How often it stopped while its request was read, how often behind the interim line, and how
/// often it went as it must not.
#[derive(Clone, Copy)]
struct Tally {
    read: u32,
    behind: u32,
    otherwise: u32,
}

impl Tally {
    fn count(&mut self, went: Went) {
        match went {
            Went::Read => self.read = self.read.saturating_add(1),
            Went::ReadBehind => self.behind = self.behind.saturating_add(1),
            Went::Otherwise => self.otherwise = self.otherwise.saturating_add(1),
            _ => {}
        }
    }
}

/// How many amounts there are, and by how many bytes they differ.
const AMOUNTS: (u32, u32) = (400, 1_024);

/// How a stream goes with each amount.
fn tally_of<S: Alter>(
    alloc: Global,
    registry: &mut Registry<S>,
    stream: &Stream,
) -> Result<Tally, AllocError> {
    let mut tally = Tally {
        read: 0,
        behind: 0,
        otherwise: 0,
    };
    let mut taken = Vec::with_capacity(alloc, 1_000)?;
    let mut amounts = Amounts::new(alloc, AMOUNTS.0, AMOUNTS.1)?;
    'amounts: for _ in 0..AMOUNTS.0 {
        if !amounts.advance(alloc) {
            return Ok(tally);
        }
        taken.clear();
        let (answer, written) = serve(alloc, registry, &stream.asked, &stream.ends, taken);
        tally.count(outcome(answer, &written, &stream.told));
        taken = written;
    }
    Ok(tally)
}

/// What is wrong with a stream of one request that is given each amount of memory.
pub(crate) fn amounts_fault<S: Alter>(
    alloc: Global,
    registry: &mut Registry<S>,
    stream: &Stream,
) -> Result<Option<String>, AllocError> {
    let Tally {
        read,
        behind,
        otherwise,
    } = tally_of(alloc, registry, stream)?;
    let wants_behind = stream.told.starts_with(INTERIM);
    if otherwise == 0 && read > 0 && (behind > 0) == wants_behind {
        return Ok(None);
    }
    Ok(Some(format!(in alloc; "{read} while read, {behind} behind, {otherwise} otherwise")?))
}

const MEMORY_REFUSED_WHILE_A_REQUEST_IS_READ: &str = r#"given two-accounts
stream
> GET /index/config.json HTTP/1.1
> host: r
> authorization: abc
> content-length: 100000
>
repeat 100000 >: x
< HTTP/1.1 200 OK
< content-type: application/json
< content-length: 95
<
<: {"api":"http://127.0.0.1:8080","auth-required":true,
    "dl":"http://127.0.0.1:8080/api/v1/crates"}
= 1
each amount of memory
= 1"#;

#[test]
fn memory_refused_while_a_request_is_read(rt: HostRuntime) {
    play(&rt, MEMORY_REFUSED_WHILE_A_REQUEST_IS_READ);
}

const MEMORY_REFUSED_BEHIND_AN_INTERIM_LINE: &str = r#"given two-accounts
stream
> GET /index/config.json HTTP/1.1
> host: r
> authorization: abc
> content-length: 100000
> expect: 100-continue
>
repeat 100000 >: x
< HTTP/1.1 100 Continue
<
< HTTP/1.1 200 OK
< content-type: application/json
< content-length: 95
<
<: {"api":"http://127.0.0.1:8080","auth-required":true,
    "dl":"http://127.0.0.1:8080/api/v1/crates"}
= 1
each amount of memory
= 1"#;

#[test]
fn memory_refused_behind_an_interim_line(rt: HostRuntime) {
    play(&rt, MEMORY_REFUSED_BEHIND_AN_INTERIM_LINE);
}
