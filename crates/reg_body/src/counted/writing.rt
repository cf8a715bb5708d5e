//! Writes that are counted.

ghost use Rattle.std.specs.Prelude.{◌≡◌, ◌+◌, ◌-◌, ◌^◌, ◌<◌, length, IfOk};
ghost use Rattle.std.specs.Io.{WritesAtMost};
ghost use Rattle.std.specs.Io.KnownBytes.{WriteAppends};
ghost use Rattle.reg_body.specs.Counting.{CountsFailure};

use crate::counted::Counted;
use std::io::{self, ErrorKind, Write};

impl<W: Write> Counted<W> {
    /// Writes once to the end. A write that takes none of some bytes gives `WriteZero`.
    pub fn write(&mut self, buf: &[u8]) -> io::Result<usize>
        requires { self.old.calls < 2 ^ 64 - 1 }
        ensures bound { WritesAtMost result buf.now }
        ensures some { IfOk result (λ n. 0 < length buf.now → 0 < n) }
        ensures bytes { WriteAppends (W.contents self.old.inner) (W.contents self.new.inner)
            result buf.now }
        ensures calls { self.new.calls ≡ self.old.calls + 1 }
        ensures failures { CountsFailure result self.old.failures self.new.failures }
    {
        self.calls += 1;
        match self.inner.write(buf) {
            Ok(0) if !buf.is_empty() => {
                self.failures += 1;
                Err(ErrorKind::WriteZero.into())
            }
            Ok(n) => Ok(n),
            Err(error) => {
                self.failures += 1;
                Err(error)
            }
        }
    }
}
