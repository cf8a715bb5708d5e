//! Replies: their bodies, their heads, and sending them in a bounded number of write calls.
//!
//! A head and its body leave in one write if they fit a pile of 32 KiB, and sending takes no
//! memory.
//!
//! ```
//! error_body(Rule::A1).as_bytes()                 // {"errors":[{"detail":"A1 no token"}]}
//! let mut w = Counted::new(stdout);
//! write_reply(&mut w, &Reply::Denied(Rule::A1), false, false, 100)?   // the write calls it took
//! let mut pile = WriteBuffer::new();
//! pile.put(&mut w, b"one row", 100)?;             // 0: it waits
//! pile.send(&mut w, 100)?                         // what waits is written
//! ```
#![tactic(auto)]

mod fixed_text;
mod found;
mod granted;
mod head;
pub mod laws;
mod owners;
mod pile;
mod refused;
mod reply;
mod sending;

pub use fixed_text::FixedText;
pub use found::FoundBody;
pub use granted::{ok_body, owners_added_body, owners_removed_body, publish_body};
pub use head::{Kind, Methods, reply_head};
pub use owners::OwnersBody;
pub use pile::WriteBuffer;
pub use refused::error_body;
pub use reg_body::SendFault;
pub use reply::Reply;
pub use sending::write_reply;
