//! Callers at a door: connections, and messages of the administrator between them.

ghost use Rattle.std.specs.Prelude.{None};

use reg_body::Limits;
use reg_cli_line::Exit;
use reg_cli_run::{Caller, Door, serve_connections};
use reg_http::{Server, Trail};
use reg_service::Registry;
use sqlite::Connection;
use std::alloc::{AllocError, Global};
use std::io::{self, ErrorKind, Write};
use std::test::Fail;

/// Callers and their replies, in which `|` is a line feed, and one space stands for the spaces
/// between columns. `admin` has arguments, `raw` the bytes
/// of a message, in which `|` is a zero byte, `gone` arguments, and takes no byte of its reply;
/// `client` has a path, and of its reply the status is looked at.
const STORY: &str = "\
admin users -> 0|
admin user-add ada --name Ada -> 0|
admin user-add ada -> 1|G2 login taken
admin users -> 0|1 ada enabled Ada|
client /index/config.json -> 403
admin token-add ada --endpoints publish-new --patterns a-* --digest \
ba7816bf8f01cfea414140de5dae2223b00361a396177a9cb410ff61f20015ad -> 0|1|
client /index/config.json -> 200
admin tokens -> 0|1 ada live publish-new a-*|
admin access a-1 -> 0|1 publish-new ada|
admin user-disable ada -> 0|
client /index/config.json -> 403
admin user-enable ada -> 0|
client /index/config.json -> 200
admin token-revoke 2 -> 1|G6 no such token
admin token-revoke 1 -> 0|
client /index/config.json -> 403
admin reserve b-1 -> 0|
admin unreserve b-1 -> 0|
admin owner-add a-1 ada -> 1|G8 no such crate
admin crate-restrict a-1 -> 1|G8 no such crate
admin crate-open a-1 -> 1|G8 no such crate
admin reader-add a-1 ada -> 1|G8 no such crate
admin reader-remove a-1 ada -> 1|G8 no such crate
admin crates -> 0|
gone user-add bob ->
admin users -> 0|1 ada enabled Ada|2 bob enabled -|
admin pause -> 0|paused|
admin pause now -> 2|bad words
admin init --base http://x --db f -> 2|bad words
admin audit -> 2|bad words
admin user-add eve --db f -> 2|bad words
admin user-add eve --name=-x -> 2|bad words
admin token-add ada --endpoints yank -> 2|bad words
admin user-add -> 2|bad words
raw user-add|dan -> 2|bad words
raw user-add|dan|| -> 2|bad words
raw | -> 2|bad words
raw  -> 2|bad words
admin users -> 0|1 ada enabled Ada|2 bob enabled -|
";

/// What the story leaves in the trail.
const TRAIL: &str = "\
- admin user-add ada --name Ada
- admin token-add ada --endpoints publish-new --patterns a-*
- admin user-disable ada
- admin user-enable ada
- admin token-revoke 1
- admin reserve b-1
- admin unreserve b-1
- admin user-add bob
";

/// An end that takes so many bytes, and then fails.
#[derive(Drop)]
struct Taker {
    taken: Vec<u8>,
    takes: usize,
}

impl Write for Taker {
    fn write(&mut self, buf: &[u8]) -> io::Result<usize> {
        let room = self.takes - self.takes.min(self.taken.len());
        let some = &buf[..room.min(buf.len())];
        if some.is_empty() && !buf.is_empty() {
            return Err(ErrorKind::BrokenPipe.into());
        }
        self.taken.extend_from_slice(some)?;
        Ok(some.len())
    }

    fn flush(&mut self) -> io::Result<()> {
        Ok(())
    }
}

/// Somebody who is to come.
#[derive(Drop)]
struct Guest {
    caller: Caller,
    bytes: Vec<u8>,
    takes: usize,
}

/// A door at which the guests come, one after another. Their replies are kept, and how often it was
/// waited for one to go.
#[derive(Drop)]
struct Hall<'a> {
    alloc: Global,
    guests: &'a [Guest],
    accepted: u64,
    replies: Vec<Vec<u8>>,
    holds: u64,
}

impl<'a> Door for Hall<'a> {
    type Reader = &'a [u8];

    type Writer = Taker;

    ghost log = { λ _. None };

    ghost accepted = { λ hall. hall.accepted };

    fn accept(&mut self, _rt: &HostRuntime) -> Result<Option<(Caller, &'a [u8], Taker)>, Exit> {
        let place = self.accepted as usize;
        self.accepted += 1;
        let Some(guest) = self.guests.get(place) else {
            return Ok(None);
        };
        let taker = Taker {
            taken: Vec::new(self.alloc),
            takes: guest.takes,
        };
        Ok(Some((guest.caller, guest.bytes.as_slice(), taker)))
    }

    fn hold(&mut self, _rt: &HostRuntime, _reader: &&'a [u8]) {
        self.holds = self.holds.wrapping_add(1);
    }

    fn leave(&mut self, _reader: &'a [u8], writer: Taker, _failed_reads: u64, _failed_writes: u64) {
        let _ = self.replies.push(writer.taken);
    }
}

/// The bytes of a text in which one byte stands for another.
fn bytes_of(alloc: Global, text: &str, from: u8, to: u8) -> Result<Vec<u8>, AllocError> {
    text.bytes()
        .map(|byte| if byte == from { to } else { byte })
        .collect(alloc)
}

/// A message with these arguments.
fn message(alloc: Global, words: &str) -> Result<Vec<u8>, AllocError> {
    let mut bytes = bytes_of(alloc, words, b' ', 0)?;
    bytes.push(0)?;
    Ok(bytes)
}

/// The one who comes by a line of the story.
fn guest_of(alloc: Global, who: &str, what: &str) -> Result<Guest, AllocError> {
    let bytes = match who {
        "client" => {
            let head = format!(in alloc;
                "GET {what} HTTP/1.1\r\nhost: r\r\nauthorization: abc\r\n\r\n"
            )?;
            head.into_bytes()
        }
        "raw" => bytes_of(alloc, what, b'|', 0)?,
        _ => message(alloc, what)?,
    };
    Ok(Guest {
        caller: if who == "client" {
            Caller::Client
        } else {
            Caller::Admin
        },
        bytes,
        takes: if who == "gone" { 0 } else { usize::MAX },
    })
}

/// What the guests were replied, the trail of it, and how often it was waited for one to go.
#[derive(Drop)]
struct Served {
    replies: Vec<Vec<u8>>,
    trail: Vec<u8>,
    holds: u64,
}

/// Serves the guests from a new registry.
fn serve_all(rt: &HostRuntime, guests: &[Guest]) -> Option<Served> {
    let alloc = rt.alloc();
    let conn = Connection::open_in_memory(alloc).ok()?;
    if !conn.is_autocommit() {
        return None;
    }
    let Ok(mut registry) = Registry::create(conn, "http://127.0.0.1:8080", Limits::STANDARD) else {
        return None;
    };
    let mut server = Server::new(alloc).ok()?;
    let mut trail = Trail::new(Vec::new(alloc), u64::MAX);
    let mut hall = Hall {
        alloc,
        guests,
        accepted: 0,
        replies: Vec::new(alloc),
        holds: 0,
    };
    let mut left = guests.len() as u64;
    let of = &mut registry;
    serve_connections(rt, &mut server, of, &mut trail, &mut hall, &mut left).ok()?;
    Some(Served {
        replies: hall.replies,
        trail: trail.into_inner(),
        holds: hall.holds,
    })
}

/// A text with one space between words, and none before the first of a line.
fn squeezed(alloc: Global, text: &[u8]) -> Result<Vec<u8>, AllocError> {
    let mut squeezed = Vec::new(alloc);
    for byte in text {
        let is_more = match squeezed.last() {
            Some(last) => *last == b' ' || *last == b'\n',
            None => true,
        };
        if *byte != b' ' || !is_more {
            squeezed.push(*byte)?;
        }
    }
    Ok(squeezed)
}

/// Whether a reply is the one that a line of the story says.
fn is_reply(alloc: Global, who: &str, reply: &[u8], told: &str) -> Result<bool, AllocError> {
    if who == "client" {
        return Ok(reply.get(9..12) == Some(told.as_bytes()));
    }
    let told = bytes_of(alloc, told, b'|', b'\n')?;
    Ok(squeezed(alloc, reply)?.as_slice() == told.as_slice())
}

/// Who comes, what it brings, and its reply.
fn parts(line: &str) -> Option<(&str, &str, &str)> {
    let (came, reply) = line.split_once(" ->")?;
    let (who, what) = came.split_once(' ')?;
    Some((who, what, reply.trim_start()))
}

#[test]
fn messages_between_connections(rt: HostRuntime) -> Result<(), Fail> {
    let alloc = rt.alloc();
    let mut guests = Vec::new(alloc);
    for line in STORY.lines() {
        if let Some((who, what, _)) = parts(line) {
            guests.push(guest_of(alloc, who, what)?)?;
        }
    }
    assert_eq!(rt; guests.len(), STORY.lines().count());
    let Some(served) = serve_all(&rt, &guests) else {
        return Err(Fail::new("not served"));
    };
    for (line, reply) in STORY.lines().zip(served.replies.iter()) {
        if let Some((who, _, told)) = parts(line) {
            if !is_reply(alloc, who, reply, told)? {
                let text = std::str::from_utf8(reply).unwrap_or("no text");
                return Err(Fail::new(format!(in alloc; "{line}: {text}")?));
            }
        }
    }
    assert_eq!(rt; served.replies.len(), guests.len());
    assert_eq!(rt;
        std::str::from_utf8(&served.trail).unwrap_or("no text"),
        TRAIL
    );
    assert_eq!(rt; served.holds, 1);
    Ok(())
}

/// A message of a command that has a shorter one in front.
const WHOLE: &str = "user-add bob --name Bob";

/// The bytes of that shorter one.
const SHORTER: usize = 13;

/// The replies to a message of these bytes, and to `users` after it.
fn replies_to(rt: &HostRuntime, bytes: Vec<u8>) -> Result<Vec<Vec<u8>>, Fail> {
    let mut guests = Vec::new(rt.alloc());
    guests.push(Guest {
        caller: Caller::Admin,
        bytes,
        takes: usize::MAX,
    })?;
    guests.push(guest_of(rt.alloc(), "admin", "users")?)?;
    match serve_all(rt, &guests) {
        Some(served) => Ok(served.replies),
        None => Err(Fail::new("not served")),
    }
}

/// Whether the first reply is this one, and the command was done or not.
fn was_replied(replies: &[Vec<u8>], reply: &[u8], done: bool) -> bool {
    match replies {
        [first, users] => first.as_slice() == reply
            && (users.as_slice() != b"0\n".as_slice()) == done,
        _ => false,
    }
}

#[test]
fn a_message_that_is_cut_is_another_or_none(rt: HostRuntime) -> Result<(), Fail> {
    let whole = message(rt.alloc(), WHOLE)?;
    for (len, _) in whole.iter().enumerate() {
        let mut cut = Vec::new(rt.alloc());
        cut.extend_from_slice(&whole[..len])?;
        let replies = replies_to(&rt, cut)?;
        let done = len == SHORTER;
        let reply: &[u8] = if done { b"0\n" } else { b"2\nbad words" };
        if !was_replied(&replies, reply, done) {
            return Err(Fail::new(format!(in rt.alloc(); "cut at {len}")?));
        }
    }
    let replies = replies_to(&rt, whole)?;
    assert!(rt; was_replied(&replies, b"0\n", true));
    Ok(())
}

/// A login that fills a message to so many bytes.
fn filled(alloc: Global, len: usize) -> Result<Vec<u8>, AllocError> {
    let mut bytes = Vec::new(alloc);
    bytes.extend_from_slice(b"user-add\0")?;
    for _byte in bytes.len() + 1..len {
        bytes.push(b'a')?;
    }
    bytes.push(0)?;
    Ok(bytes)
}

#[test]
fn the_longest_message(rt: HostRuntime) -> Result<(), Fail> {
    let longest = replies_to(&rt, filled(rt.alloc(), 65_536)?)?;
    assert!(rt; was_replied(&longest, b"1\nG1 bad login or name", false));
    let longer = replies_to(&rt, filled(rt.alloc(), 65_537)?)?;
    assert!(rt; was_replied(&longer, b"2\nbad words", false));
    Ok(())
}
