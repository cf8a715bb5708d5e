//! Reads that are counted.

ghost use Rattle.std.specs.Prelude.{◌≡◌, ◌+◌, ◌-◌, ◌^◌, ◌<◌};
ghost use Rattle.std.specs.Io.{ReadsAtMost};
ghost use Rattle.std.specs.Io.KnownBytes.{ReadConsumes};
ghost use Rattle.reg_body.specs.Counting.{CountsFailure};

use crate::counted::Counted;
use std::io::{self, Read};

impl<R: Read> Counted<R> {
    /// Reads once from the end. Its answer is passed on, so an interrupted read is a failure too.
    pub fn read(&mut self, buf: &mut [u8]) -> io::Result<usize>
        requires { self.old.calls < 2 ^ 64 - 1 }
        ensures bound { ReadsAtMost result buf.new }
        ensures bytes { ReadConsumes (R.remaining self.old.inner) (R.remaining self.new.inner)
            result buf.new }
        ensures calls { self.new.calls ≡ self.old.calls + 1 }
        ensures failures { CountsFailure result self.old.failures self.new.failures }
    {
        self.calls += 1;
        let result = self.inner.read(buf);
        if result.is_err() {
            self.failures += 1;
        }
        result
    }
}
