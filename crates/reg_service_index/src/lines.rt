//! The lines of index files.

ghost use Rattle.std.specs.Prelude.{◌+◌, ◌^◌, ◌<◌};
ghost use Rattle.reg_line.specs.File.{line_of};
ghost use Rattle.reg_api_replies.specs.Piled.{Puts};
ghost use Rattle.reg_body.specs.Sent.{sink};

use reg_api_replies::{SendFault, WriteBuffer};
use reg_body::Counted;
use reg_line::line_end;
use std::io::Write;

/// Puts a line after what waits.
pub(crate) fn put_line<W: Write>(
    pile: &mut WriteBuffer,
    w: &mut Counted<W>,
    stem: &[u8],
    yanked: bool,
    writes: u64,
) -> Result<u64, SendFault>
    requires { w.old.calls + writes < 2 ^ 64 }
    ensures { Puts result pile.old (line_of (stem.now, yanked)) pile.new writes
        (sink (W.contents w.old.inner) w.old) (sink (W.contents w.new.inner) w.new) }
{
    let used = pile.put(w, stem, writes)?;
    let more = pile.put(w, line_end(yanked), writes - used)?;
    Ok(used + more)
}
