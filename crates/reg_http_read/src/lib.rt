//! Requests, with their heads, taken one after another from a stream within a number of read and
//! write calls. Nothing is decided here: what a request asks for is not looked at.
//!
//! `read_head` finds where a head ends and what it says, at the front of the bytes so far; or more
//! bytes are needed, or a rule is broken. `take_request` reads until a request is there whole, and
//! writes the interim line that it awaits.
//!
//! ```
//! let bytes = b"GET /index/1/a HTTP/1.1\r\nhost: r\r\nauthorization: abc\r\n\r\n";
//! let HeadRead::Head(head) = read_head(alloc, bytes, &Limits::STANDARD)? else { .. };
//! // head.target is "/index/1/a", head.token is Some(b"abc"), head.len is 56
//! match take_request(alloc, &mut r, &mut w, &mut chunk, &mut pending, &limits, &mut left)? {
//!     Taken::Whole(head) => ..                    // it is at the front of `pending`
//!     Taken::Refused(rule, head_only) => ..       // `send_reply` sends it, and it is the last
//!     Taken::End => ..
//! }
//! ```
#![tactic(auto)]

mod asked;
mod fault;
mod fields;
mod front;
mod head;
pub mod laws;
mod method;
mod numbers;
mod owned;
mod reading;
mod taking;
mod turns;
mod words;

pub use fault::StreamFault;
pub use head::{Head, HeadRead, read_head};
pub use owned::OwnedHead;
pub use reading::drop_front;
pub use taking::{Taken, take_request};
pub use turns::{send, send_reply};
