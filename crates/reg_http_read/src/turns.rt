//! Writing within the turns that are left.

ghost use Rattle.std.specs.Prelude.{◌+◌, ◌^◌, ◌<◌, OnOk, length};
ghost use Rattle.reg_api_replies.specs.Texts.{reply_text};
ghost use Rattle.reg_http_read.specs.Turns.{Sends, SpendsTurns, writes_of};

use crate::fault::StreamFault;
use reg_api_replies::{Reply, write_reply};
use reg_body::{Counted, SendFault, write_bytes};
use std::io::Write;

/// Writes the bytes.
pub fn send<W: Write>(w: &mut Counted<W>, bytes: &[u8], left: &mut u64) -> Result<(), StreamFault>
    requires { w.old.calls + left.old < 2 ^ 64 }
    ensures sends { Sends bytes.now (W.contents w.old.inner) (W.contents w.new.inner) result }
    ensures spends { SpendsTurns left.old left.new (writes_of w.old) (writes_of w.new) result }
    ensures some { OnOk result (0 < length bytes.now → left.new < left.old) }
{
    match write_bytes(w, bytes, *left) {
        Ok(used) => {
            *left -= used;
            Ok(())
        }
        Err(SendFault::Write) => Err(StreamFault::WriteFault),
        Err(SendFault::Spent) => Err(StreamFault::TooManyTurns),
    }
}

/// Writes a reply, or its head alone.
pub fn send_reply<W: Write>(
    w: &mut Counted<W>,
    reply: &Reply,
    close: bool,
    head_only: bool,
    left: &mut u64,
) -> Result<(), StreamFault>
    requires { w.old.calls + left.old < 2 ^ 64 }
    ensures sends { Sends (reply_text reply.now close head_only) (W.contents w.old.inner)
        (W.contents w.new.inner) result }
    ensures spends { SpendsTurns left.old left.new (writes_of w.old) (writes_of w.new) result }
    ensures some { OnOk result (left.new < left.old) }
{
    match write_reply(w, reply, close, head_only, *left) {
        Ok(used) => {
            *left -= used;
            Ok(())
        }
        Err(SendFault::Write) => Err(StreamFault::WriteFault),
        Err(SendFault::Spent) => Err(StreamFault::TooManyTurns),
    }
}
