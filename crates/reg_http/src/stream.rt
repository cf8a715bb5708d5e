//! Taking and answering the requests of a stream.

ghost use Rattle.std.specs.Prelude.{◌≡◌, ◌+◌, ◌<◌, ◌≤◌, ◌||◌, ◌==◌, drop, length, take};
ghost use Rattle.reg_http_read.specs.Owned.{facts_owned};
ghost use Rattle.reg_http_read.specs.Reads.{facts_of};
ghost use Rattle.reg_http.specs.Serving.{MayServe, ServesStreamTraced, SpendsLent};

use crate::answering::{Message, answer_message, deny};
use crate::trail::Trail;
use reg_body::{Counted, Limits};
use reg_http_read::laws::{append_law, bounds_law};
use reg_http_read::{OwnedHead, StreamFault, Taken, drop_front, take_request};
use reg_http_routes::Routes;
use reg_model::laws::telling_law;
use reg_service::Registry;
use reg_service::laws::history_law;
use sqlite::Alter;
use std::alloc::Global;
use std::io::{Read, Write};

/// Whether the connection closes after the reply that follows `replies` others.
fn closes(limits: &Limits, close: bool, replies: u64) -> bool
    ensures { result ≡ (close || replies + 1 == limits.now.replies) }
{
    close || replies as u128 + 1 == limits.replies as u128
}

/// The request at the front of `pending`.
fn message_of<'h, 'b>(head: &'h OwnedHead, pending: &'b [u8], close: bool) -> Message<'h, 'b>
    requires { head.now.len + head.now.body_len ≤ length pending.now }
    ensures head { facts_of result.head ≡ facts_owned head.now }
    ensures body { result.body.now
        ≡ drop head.now.len (take (head.now.len + head.now.body_len) pending.now) }
    ensures close { result.close ≡ close }
{
    let (whole, _) = pending.split_at(head.len + head.body_len as usize);
    let (_, body) = whole.split_at(head.len);
    Message {
        head: head.as_head(),
        body,
        close,
    }
}

/// Answers the requests of a stream, one after another. What each changes is told before its reply.
pub(crate) fn serve_requests<R: Read, W: Write, T: Write, S: Alter>(
    alloc: Global,
    registry: &mut Registry<S>,
    trail: &mut Trail<T>,
    routes: &Routes,
    r: &mut Counted<R>,
    w: &mut Counted<W>,
    chunk: &mut [u8],
) -> Result<u64, StreamFault>
    requires may { MayServe registry.old r.old w.old }
    requires some { 0 < length chunk.old }
    ensures served { ServesStreamTraced S.Store SpendsLent R.remaining W.contents registry.old
        registry.new r.old r.new w.old w.new T.contents trail.old trail.new result }
    ensures chunk { length chunk.new ≡ length chunk.old }
{
    append_law();
    bounds_law();
    history_law::<S>();
    telling_law();
    let limits = *registry.limits();
    let mut left = limits.turns;
    let mut pending = Vec::new(alloc);
    let mut replies = 0;
    'requests: loop {
        let head = match take_request(alloc, r, w, chunk, &mut pending, &limits, &mut left)? {
            Taken::End => return Ok(replies),
            Taken::Refused(rule, head_only) => {
                deny(w, rule, true, head_only, &mut left)?;
                return Ok(replies + 1);
            }
            Taken::Whole(head) => head,
        };
        let close = closes(&limits, head.close, replies);
        let total = head.len + head.body_len as usize;
        let message = message_of(&head, &pending, close);
        answer_message(alloc, registry, trail, routes, w, &message, &mut left)?;
        replies += 1;
        if close {
            return Ok(replies);
        }
        drop_front(&mut pending, total);
        drop(head);
    }
}
