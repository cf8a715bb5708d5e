//! Small texts that wait until they leave in one write.

ghost use Rattle.std.specs.Prelude.{◌≡◌, ◌+◌, ◌^◌, ◌<◌, [], OnOk};
ghost use Rattle.reg_api_replies.specs.Piled.{Puts};
ghost use Rattle.reg_body.specs.Sent.{Sends, sink};

use arrayvec::ArrayVec;
use reg_body::{Counted, SendFault, write_bytes};
use std::io::Write;
use std::marker::Model;

/// How many bytes wait at most: an index file of 700 kB leaves in some 20 writes. Making a pile of
/// this size takes a quarter of a microsecond if made in place, and ten times that if passed on by
/// value.
const ROOM: usize = 32_768;

/// Texts that wait to be sent, one after another. They take no memory.
#[derive(Drop)]
pub struct WriteBuffer {
    bytes: ArrayVec<u8, ROOM>,
}

impl Model for WriteBuffer {
    ghost use Rattle.std.specs.Prelude.{List, ℕ};

    ghost Value = { List ℕ };

    ghost view = { λ p. p.bytes.items };
}

impl WriteBuffer {
    /// Makes an empty pile.
    pub fn new() -> WriteBuffer
        ensures { result ≡ [] }
    {
        WriteBuffer {
            bytes: ArrayVec::new(),
        }
    }

    /// Puts a text after what waits. If there is no room for both, what waits is sent first, and
    /// then what the text has beyond the room. Behind what was sent something waits, so that a
    /// reply that breaks off is never a whole one.
    pub fn put<W: Write>(
        &mut self,
        w: &mut Counted<W>,
        text: &[u8],
        writes: u64,
    ) -> Result<u64, SendFault>
        requires { w.old.calls + writes < 2 ^ 64 }
        ensures { Puts result self.old text.now self.new writes
            (sink (W.contents w.old.inner) w.old) (sink (W.contents w.new.inner) w.new) }
    {
        if text.len() <= self.bytes.remaining_capacity() {
            let _fits = self.bytes.try_extend_from_slice(text);
            return Ok(0);
        }
        let used = self.send(w, writes)?;
        let (front, rest) = text.split_at(text.len().saturating_sub(ROOM));
        let more = write_bytes(w, front, writes - used)?;
        let _fits = self.bytes.try_extend_from_slice(rest);
        Ok(used + more)
    }

    /// Sends what waits.
    pub fn send<W: Write>(&mut self, w: &mut Counted<W>, writes: u64) -> Result<u64, SendFault>
        requires { w.old.calls + writes < 2 ^ 64 }
        ensures sends { Sends result self.old writes
            (sink (W.contents w.old.inner) w.old) (sink (W.contents w.new.inner) w.new) }
        ensures none { OnOk result (self.new ≡ []) }
    {
        let used = write_bytes(w, self.bytes.as_slice(), writes)?;
        self.bytes.clear();
        Ok(used)
    }
}
