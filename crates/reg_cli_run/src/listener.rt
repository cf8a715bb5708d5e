//! Callers at a port, and at a socket file beside it.

ghost use Rattle.std.specs.Prelude.{◌≡◌, codes, IfErr, None};
ghost use Rattle.reg_cli_run.specs.Exits.{EndsWith};

use crate::door::{Caller, Door};
use crate::printing::print;
use crate::socket::{MORE_TRIES, PAUSE, Socket, wait_for_end};
use crate::stream::{NO_LISTENING, Stream};
use reg_cli_line::Exit;
use std::io::ErrorKind;
use std::net::{TcpListener, TcpStream};
use std::time::Duration;
use std::{fs, thread};

/// A port of the loopback address, and a socket file if one is asked for; listened on once it is
/// open. It counts the accepted callers.
#[derive(Drop)]
pub struct Listener<'a> {
    rt: &'a HostRuntime,
    port: u16,
    admin: Option<&'a str>,
    listener: Option<TcpListener>,
    socket: Option<Socket>,
    pub accepted: u64,
}

/// Says that the port is listened on.
fn tell_listening(rt: &HostRuntime, port: u16) -> Result<(), Exit> {
    let Ok(line) = format!(in rt.alloc(); "listening 127.0.0.1:{port}\n") else {
        return Err(Exit::MEMORY);
    };
    let exit = print(rt, &line);
    if exit == Exit::DONE {
        Ok(())
    } else {
        Err(exit)
    }
}

/// Waits for a connection: none if its client hung up before it was accepted, or a signal came.
fn accept_from(rt: &HostRuntime, listener: &TcpListener) -> Result<Option<TcpStream>, Exit>
    ensures { IfErr result (EndsWith 3 (codes "listen fault")) }
{
    for _try in 0..MORE_TRIES {
        match listener.accept() {
            Ok((stream, _)) => return Ok(Some(stream)),
            Err(error) => match error.kind() {
                ErrorKind::ConnectionAborted | ErrorKind::Interrupted => return Ok(None),
                _ => thread::sleep(rt, Duration::from_millis(PAUSE)),
            },
        }
    }
    match listener.accept() {
        Ok((stream, _)) => Ok(Some(stream)),
        Err(_) => Err(NO_LISTENING),
    }
}

impl<'a> Listener<'a> {
    pub fn at(rt: &'a HostRuntime, port: u16, admin: Option<&'a str>) -> Listener<'a>
        ensures { result.accepted ≡ 0 }
    {
        Listener {
            rt,
            port,
            admin,
            listener: None,
            socket: None,
            accepted: 0,
        }
    }

    /// Listens, unless it does already, and says so.
    pub fn open(&mut self) -> Result<(), Exit>
        ensures { self.new.accepted ≡ self.old.accepted }
    {
        if self.listener.is_some() {
            return Ok(());
        }
        let Ok(listener) = TcpListener::bind(self.rt, ("127.0.0.1", self.port)) else {
            return Err(NO_LISTENING);
        };
        if let Some(path) = self.admin {
            self.socket = Some(Socket::beside(self.rt, path, &listener)?);
        }
        tell_listening(self.rt, self.port)?;
        self.listener = Some(listener);
        Ok(())
    }

    /// Removes the socket file that it made.
    pub fn close(self) {
        if let (Some(path), Some(_)) = (self.admin, &self.socket) {
            let _ = fs::remove_file(self.rt, path);
        }
    }
}

/// Accepts at the port, or at whichever of both somebody is first.
fn accept_any<'a>(
    rt: &'a HostRuntime,
    listener: &TcpListener,
    socket: &mut Option<Socket>,
) -> Result<Option<(Caller, Stream<'a>)>, Exit>
    ensures { IfErr result (EndsWith 3 (codes "listen fault")) }
{
    if let Some(socket) = socket {
        return socket.accept(rt, listener);
    }
    match accept_from(rt, listener)? {
        Some(stream) => Ok(Some((Caller::Client, Stream::Port(stream)))),
        None => Ok(None),
    }
}

/// Both ends of a connection; none if the system has no room for the second. What is written to a
/// client leaves at once, without waiting for earlier data to be acknowledged.
fn ends_of<'a>((caller, stream): (Caller, Stream<'a>)) -> Option<(Caller, Stream<'a>, Stream<'a>)> {
    if let Stream::Port(stream) = &stream {
        let _ = stream.set_nodelay(true);
    }
    let writer = stream.other_end()?;
    Some((caller, stream, writer))
}

impl<'a> Door for Listener<'a> {
    type Reader = Stream<'a>;

    type Writer = Stream<'a>;

    ghost log = { λ _. None };

    ghost accepted = { λ l. l.accepted };

    /// Waits for a caller, and counts it: also one that is none, since it hung up before.
    fn accept(
        &mut self,
        _rt: &HostRuntime,
    ) -> Result<Option<(Caller, Stream<'a>, Stream<'a>)>, Exit> {
        let Some(listener) = &self.listener else {
            return Err(NO_LISTENING);
        };
        let came = accept_any(self.rt, listener, &mut self.socket)?;
        self.accepted += 1;
        Ok(came.and_then(ends_of))
    }

    fn hold(&mut self, rt: &HostRuntime, reader: &Stream<'a>) {
        if let Stream::Socket(end) = reader {
            let _ = wait_for_end(rt, &end.stream);
        }
    }

    fn leave(
        &mut self,
        _reader: Stream<'a>,
        _writer: Stream<'a>,
        _failed_reads: u64,
        _failed_writes: u64,
    ) {}
}
