//! A counted end makes one call of its own for each of its calls, and passes on what that answers.

ghost use Rattle.std.specs.Prelude.{◌≤◌, IfOk};

use reg_body::Counted;
use std::io;
use std::io::{ErrorKind, Read, Write};

/// An end that counts its calls, fails the first with `Interrupted`, and then has one byte a call.
#[derive(Drop)]
struct Interrupted {
    calls: u32,
}

impl Interrupted {
    fn one_of(&mut self, len: usize) -> io::Result<usize>
        ensures { IfOk result (λ count. count ≤ len) }
    {
        self.calls = self.calls.saturating_add(1);
        if self.calls == 1 {
            return Err(ErrorKind::Interrupted.into());
        }
        Ok(len.min(1))
    }
}

impl Read for Interrupted {
    fn read(&mut self, buf: &mut [u8]) -> io::Result<usize> {
        let count = self.one_of(buf.len())?;
        buf[..count].fill(b'x');
        Ok(count)
    }
}

impl Write for Interrupted {
    fn write(&mut self, buf: &[u8]) -> io::Result<usize> {
        self.one_of(buf.len())
    }

    fn flush(&mut self) -> io::Result<()> {
        Ok(())
    }
}

/// Whether the end was called so often, and so by its counters, and failed so often.
fn is_counted(end: &Counted<Interrupted>, calls: u32, failures: u64) -> bool {
    end.inner().calls == calls && end.calls() == u64::from(calls) && end.failures() == failures
}

fn is_interrupted(answer: io::Result<usize>) -> bool {
    match answer {
        Err(error) => error.kind() == ErrorKind::Interrupted,
        Ok(_) => false,
    }
}

fn is_done(answer: io::Result<usize>, len: usize) -> bool {
    match answer {
        Err(_) => false,
        Ok(count) => count == len,
    }
}

#[test]
fn counted_reads(rt: HostRuntime) {
    let mut reader = Counted::new(Interrupted { calls: 0 });
    let mut buf = [0u8; 4];
    assert!(rt; is_interrupted(reader.read(&mut buf)));
    assert!(rt; is_counted(&reader, 1, 1));
    assert!(rt; is_done(reader.read(&mut buf), 1));
    assert!(rt; buf.as_slice() == b"x\0\0\0".as_slice());
    assert!(rt; is_counted(&reader, 2, 1));
}

#[test]
fn counted_writes(rt: HostRuntime) {
    let mut writer = Counted::new(Interrupted { calls: 0 });
    assert!(rt; is_interrupted(writer.write(b"ab")));
    assert!(rt; is_counted(&writer, 1, 1));
    assert!(rt; is_done(writer.write(b"ab"), 1));
    assert!(rt; is_counted(&writer, 2, 1));
    // An empty write reaches the end as well.
    assert!(rt; is_done(writer.write(b""), 0));
    assert!(rt; is_counted(&writer, 3, 1));
}
