//! A socket file beside a port: whoever is ready first is accepted.

ghost use Rattle.std.specs.Prelude.{codes, IfErr};
ghost use Rattle.reg_cli_run.specs.Exits.{EndsWith};

use crate::door::Caller;
use crate::stream::{Hurried, NO_LISTENING, Stream};
use mio::unix::SourceFd;
use mio::{Events, Interest, Poll, Token};
use reg_cli_line::Exit;
use std::alloc::Global;
use std::fs::{self, Permissions};
use std::io::{self, ErrorKind};
use std::net::TcpListener;
use std::os::fd::{AsRawFd, RawFd};
use std::os::unix::fs::PermissionsExt;
use std::os::unix::net::{UnixListener, UnixStream};
use std::thread;
use std::time::{Duration, Instant};

/// How often an accept that failed is tried again, and how many milliseconds after: too many files
/// may be open for a moment.
pub(crate) const MORE_TRIES: u32 = 10;

pub(crate) const PAUSE: u64 = 100;

/// How often it is waited for a caller, or for one to go, before the wait is given up. A wait may
/// end although nobody is there.
const WAITS: u32 = 1000;

/// How many seconds a server pauses at most.
const LONGEST_PAUSE: u64 = 600;

/// A socket file, and the watch over it and a port.
#[derive(Drop)]
pub(crate) struct Socket {
    listener: UnixListener,
    poll: Poll,
    events: Events<Global>,
    first: Caller,
}

/// What one accept, which does not wait, came to.
#[derive(Drop)]
enum Tried<T> {
    Came(T),
    Nobody,
    /// The caller hung up before, or a signal came.
    Missed,
    Failed,
}

fn one_accept<T: Drop, A: Drop>(accepted: io::Result<(T, A)>) -> Tried<T> {
    match accepted {
        Ok((stream, _)) => Tried::Came(stream),
        Err(error) => match error.kind() {
            ErrorKind::WouldBlock => Tried::Nobody,
            ErrorKind::ConnectionAborted | ErrorKind::Interrupted => Tried::Missed,
            _ => Tried::Failed,
        },
    }
}

/// Whether a file of this name may be replaced: there is none, or it is the socket of a server that
/// has ended.
fn may_be_made(rt: &HostRuntime, path: &str) -> bool {
    if let Ok(it) = fs::symlink_metadata(rt, path) {
        if it.is_file() || it.is_dir() || it.is_symlink() {
            return false;
        }
    }
    UnixStream::connect(rt, path).is_err()
}

/// Makes the socket file: nobody but its owner may connect, from the moment that it has its name.
fn make_file(rt: &HostRuntime, path: &str) -> io::Result<UnixListener> {
    let made = format!(in rt.alloc(); "{path}.new")?;
    let _ = fs::remove_file(rt, &made);
    let listener = UnixListener::bind(rt, &made)?;
    fs::set_permissions(rt, &made, Permissions::from_mode(0o600))?;
    fs::rename(rt, &made, path)?;
    Ok(listener)
}

/// Watches whether a listener has a caller.
fn watch(poll: &Poll, fd: RawFd, interest: Interest) -> io::Result<()> {
    poll.registry()
        .register(&mut SourceFd(&fd), Token(0), interest)
}

/// Makes the socket file, and watches both.
fn beside(rt: &HostRuntime, path: &str, port: &TcpListener) -> io::Result<Socket> {
    let listener = make_file(rt, path)?;
    let poll = Poll::new(rt)?;
    let events = Events::with_capacity(rt.alloc(), 4)?;
    port.set_nonblocking(true)?;
    listener.set_nonblocking(true)?;
    watch(&poll, port.as_raw_fd(), Interest::READABLE)?;
    watch(&poll, listener.as_raw_fd(), Interest::READABLE)?;
    Ok(Socket {
        listener,
        poll,
        events,
        first: Caller::Client,
    })
}

/// Accepts at the port, without waiting.
fn accept_client<'a>(port: &TcpListener) -> Tried<Stream<'a>> {
    match one_accept(port.accept()) {
        Tried::Came(stream) => Tried::Came(Stream::Port(stream)),
        Tried::Nobody => Tried::Nobody,
        Tried::Missed => Tried::Missed,
        Tried::Failed => Tried::Failed,
    }
}

/// Accepts at the socket file, without waiting.
fn accept_admin<'a>(rt: &'a HostRuntime, listener: &UnixListener) -> Tried<Stream<'a>> {
    match one_accept(listener.accept()) {
        Tried::Came(stream) => Tried::Came(Stream::Socket(Hurried::new(rt, stream))),
        Tried::Nobody => Tried::Nobody,
        Tried::Missed => Tried::Missed,
        Tried::Failed => Tried::Failed,
    }
}

impl Socket {
    /// The socket file at this path, beside a port. An old one of a server that was killed is
    /// replaced; one that a living server listens on is left, as is any other file.
    pub(crate) fn beside(rt: &HostRuntime, path: &str, port: &TcpListener) -> Result<Socket, Exit> {
        if !may_be_made(rt, path) {
            return Err(NO_LISTENING);
        }
        match beside(rt, path, port) {
            Ok(socket) => Ok(socket),
            Err(_) => Err(NO_LISTENING),
        }
    }

    fn accept_from<'a>(
        &self,
        rt: &'a HostRuntime,
        port: &TcpListener,
        caller: Caller,
    ) -> Tried<Stream<'a>> {
        match caller {
            Caller::Client => accept_client(port),
            Caller::Admin => accept_admin(rt, &self.listener),
        }
    }

    /// Accepts where one is there, without waiting. If both are, they take turns.
    fn accept_now<'a>(
        &mut self,
        rt: &'a HostRuntime,
        port: &TcpListener,
    ) -> (Caller, Tried<Stream<'a>>) {
        let first = self.first;
        let second = match first {
            Caller::Client => Caller::Admin,
            Caller::Admin => Caller::Client,
        };
        match self.accept_from(rt, port, first) {
            Tried::Nobody => (second, self.accept_from(rt, port, second)),
            it => {
                self.first = second;
                (first, it)
            }
        }
    }

    /// Waits for a caller at the port or at the socket file: none if it hung up before it was
    /// accepted, or a signal came.
    pub(crate) fn accept<'a>(
        &mut self,
        rt: &'a HostRuntime,
        port: &TcpListener,
    ) -> Result<Option<(Caller, Stream<'a>)>, Exit>
        ensures { IfErr result (EndsWith 3 (codes "listen fault")) }
    {
        let mut failed: u32 = 0;
        for _wait in 0..WAITS {
            match self.accept_now(rt, port) {
                (caller, Tried::Came(stream)) => return Ok(Some((caller, stream))),
                (_, Tried::Missed) => return Ok(None),
                (_, Tried::Nobody) => {
                    let _ = self.poll.poll(&mut self.events, None);
                }
                (_, Tried::Failed) if failed == MORE_TRIES => return Err(NO_LISTENING),
                (_, Tried::Failed) => {
                    failed = failed.saturating_add(1);
                    thread::sleep(rt, Duration::from_millis(PAUSE));
                }
            }
        }
        Ok(None)
    }
}

/// Whether the other side has gone, by this time at the latest.
fn has_gone(
    rt: &HostRuntime,
    poll: &mut Poll,
    events: &mut Events<Global>,
    until: Instant,
) -> io::Result<bool> {
    let left = until.duration_since(Instant::now(rt)?);
    if left.is_zero() {
        return Ok(true);
    }
    poll.poll(events, Some(left))?;
    Ok(events.iter().any(|event| event.is_write_closed()))
}

/// Waits until the other side of a stream goes, for ten minutes at most.
pub(crate) fn wait_for_end(rt: &HostRuntime, stream: &UnixStream) -> io::Result<()> {
    let mut poll = Poll::new(rt)?;
    let mut events = Events::with_capacity(rt.alloc(), 1)?;
    watch(&poll, stream.as_raw_fd(), Interest::WRITABLE)?;
    let now = Instant::now(rt)?;
    let Some(until) = now.checked_add(Duration::from_secs(LONGEST_PAUSE)) else {
        return Ok(());
    };
    for _wait in 0..WAITS {
        if has_gone(rt, &mut poll, &mut events, until)? {
            return Ok(());
        }
    }
    Ok(())
}
