//! Turns a publish body into an index path and an index line, from a reader to a writer.
//!
//! ```
//! let exit = run_line(alloc, &mut reader, &mut writer);
//! // exit.status is 0 if both were written
//! ```
#![tactic(auto)]

mod ends;
mod exit;
mod fault;
mod line;

pub use exit::Exit;
pub use line::{run_line, run_line_within};
