//! Writing all of some bytes in a bounded number of calls.

ghost use Rattle.std.specs.Prelude.{◌+◌, ◌^◌, ◌<◌};
ghost use Rattle.reg_body.specs.Sent.{Sends, sink};

use crate::counted::Counted;
use std::io::Write;

/// Why not everything was sent. A prefix of it was.
#[derive(Clone, Copy, Debug, PartialEq, Eq)]
pub enum SendFault {
    /// The writer failed.
    Write,
    /// The calls were used up.
    Spent,
}

/// Writes the bytes in at most `writes` calls, and returns how many it made.
pub fn write_bytes<W: Write>(
    w: &mut Counted<W>,
    bytes: &[u8],
    writes: u64,
) -> Result<u64, SendFault>
    requires { w.old.calls + writes < 2 ^ 64 }
    ensures { Sends result bytes.now writes (sink (W.contents w.old.inner) w.old)
        (sink (W.contents w.new.inner) w.new) }
{
    let mut rest = bytes;
    let mut used = 0;
    'rest: while !rest.is_empty() {
        if used == writes {
            return Err(SendFault::Spent);
        }
        match w.write(rest) {
            Ok(n) => (_, rest) = rest.split_at(n),
            Err(_) => return Err(SendFault::Write),
        }
        used += 1;
    }
    Ok(used)
}
