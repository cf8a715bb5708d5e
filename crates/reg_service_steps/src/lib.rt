//! What requests and commands do alike within a transaction: the crate that a text names, the
//! index file of versions, and the line that a change leaves in a trail.
//!
//! ```
//! find_named(&mut work, "Cargo-Tools")?           // the crate cargo_tools, if it is there
//! tell_words(alloc, &mut work, true, &["-", "admin", "user-add", "ada"])?
//!                                                 // the line `- admin user-add ada`
//! ```
#![tactic(auto)]

mod base;
mod files;
mod lines;
mod naming;
mod telling;

pub use base::find_base;
pub use files::index_file;
pub use lines::{line_of, with_commas};
pub use naming::find_named;
pub use telling::{differs, has_login, have_login, is_told, tell_words, told_line};
