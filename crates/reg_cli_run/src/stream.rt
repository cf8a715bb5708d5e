//! The ends of what a listener accepts.

ghost use Rattle.std.specs.Prelude.{None};

use reg_cli_line::Exit;
use std::io::{self, ErrorKind, Read, Write};
use std::net::TcpStream;
use std::os::unix::net::UnixStream;
use std::time::{Duration, Instant};

/// How many seconds the sender of a message may take to send it, and again to take the reply.
const PATIENCE: u64 = 5;

/// The port cannot be listened on, or a connection cannot be accepted.
pub(crate) const NO_LISTENING: Exit = Exit {
    status: 3,
    message: "listen fault",
};

/// An end at the socket file, with a time by which all its calls are done, from the first on.
#[derive(Drop)]
pub struct Hurried<'a> {
    rt: &'a HostRuntime,
    pub(crate) stream: UnixStream,
    until: Option<Instant>,
}

/// One end of a connection.
#[derive(Drop)]
pub enum Stream<'a> {
    Port(TcpStream),
    Socket(Hurried<'a>),
}

impl<'a> Hurried<'a> {
    pub(crate) fn new(rt: &'a HostRuntime, stream: UnixStream) -> Hurried<'a> {
        Hurried {
            rt,
            stream,
            until: None,
        }
    }

    /// The time by which all calls are done.
    fn end(&mut self, now: Instant) -> io::Result<Instant> {
        if let Some(until) = self.until {
            return Ok(until);
        }
        let Some(until) = now.checked_add(Duration::from_secs(PATIENCE)) else {
            return Err(ErrorKind::TimedOut.into());
        };
        self.until = Some(until);
        Ok(until)
    }

    /// How long the next call may wait.
    fn left(&mut self) -> io::Result<Duration> {
        let now = Instant::now(self.rt)?;
        let left = self.end(now)?.duration_since(now);
        if left.is_zero() {
            return Err(ErrorKind::TimedOut.into());
        }
        Ok(left)
    }
}

impl Read for Hurried<'_> {
    fn read(&mut self, buf: &mut [u8]) -> io::Result<usize> {
        let left = self.left()?;
        self.stream.set_read_timeout(Some(left))?;
        self.stream.read(buf)
    }
}

impl Write for Hurried<'_> {
    fn write(&mut self, buf: &[u8]) -> io::Result<usize> {
        let left = self.left()?;
        self.stream.set_write_timeout(Some(left))?;
        self.stream.write(buf)
    }

    fn flush(&mut self) -> io::Result<()> {
        self.stream.flush()
    }
}

impl<'a> Stream<'a> {
    /// Another end of the same connection; none if the system has no room for it.
    pub(crate) fn other_end(&self) -> Option<Stream<'a>> {
        match self {
            Stream::Port(stream) => Some(Stream::Port(stream.try_clone().ok()?)),
            Stream::Socket(end) => {
                let stream = end.stream.try_clone().ok()?;
                Some(Stream::Socket(Hurried::new(end.rt, stream)))
            }
        }
    }
}

impl Read for Stream<'_> {
    fn read(&mut self, buf: &mut [u8]) -> io::Result<usize> {
        match self {
            Stream::Port(stream) => stream.read(buf),
            Stream::Socket(end) => end.read(buf),
        }
    }
}

impl Write for Stream<'_> {
    fn write(&mut self, buf: &[u8]) -> io::Result<usize> {
        match self {
            Stream::Port(stream) => stream.write(buf),
            Stream::Socket(end) => end.write(buf),
        }
    }

    fn flush(&mut self) -> io::Result<()> {
        match self {
            Stream::Port(stream) => stream.flush(),
            Stream::Socket(end) => end.flush(),
        }
    }
}
