//! The publish body's frame, the limits of a registry, readers and writers that count their calls,
//! and writing bytes in a bounded number of calls.
//!
//! ```
//! let body = join(alloc, b"{}", b"abc")?;         // 2, the JSON, 3, the archive
//! let (json, archive) = split(&body, &Limits::STANDARD)?;
//! let mut reader = Counted::new(stdin);           // reader.calls() is 0
//! let mut writer = Counted::new(stdout);
//! write_bytes(&mut writer, b"abc", 100)?          // the write calls it took
//! ```
#![tactic(auto)]

mod bytes;
mod counted;
mod frame;
pub mod laws;
mod limits;

pub use bytes::{SendFault, write_bytes};
pub use counted::Counted;
pub use frame::{BodyFault, JoinFault, join, split};
pub use limits::Limits;
