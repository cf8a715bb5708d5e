//! What a request does within a transaction: it is denied, served, or done; and the line that a
//! change leaves in a trail.
//!
//! ```
//! let told = serve_told(alloc, &mut work, &limits, Some(&digest), &asked, true)?;
//! match told.served {
//!     Served::Told(reply) => reply,        // nothing is to be kept
//!     Served::Done(reply) => ..            // committed first, with_line(reply, told.line)
//!     Served::Seeks(account) => ..         // it may search
//!     Served::Sends(file) => ..            // it may read this index file
//! }
//! ```
#![tactic(auto)]

mod bodies;
mod marking;
mod owning;
mod publishing;
mod reading;
mod served;
mod serving;
mod telling;
mod told;

pub use served::Served;
pub use serving::serve_told;
pub use told::{TracedReply, TracedServed, with_line};
