//! Index lines, index files and the config: their bytes, and the check that stored bytes are a
//! line's stem.
//!
//! A stem is a line without its yanked mark, so a yank changes no stored bytes.
//!
//! ```
//! let digest = digest_of(archive);
//! line(alloc, &manifest, &digest, false)?         // the line, with its line feed
//! let stem = stem(alloc, &manifest, &digest)?;    // the same up to "yanked":
//! file(alloc, &[Entry { stem, yanked: true }])?   // the index file of one yanked version
//! ```
#![tactic(auto)]

mod base;
mod config_file;
mod digests;
mod features;
mod index_file;
pub mod laws;
mod line_read;
mod lines;
mod stem_check;
pub mod values;

pub use base::is_base;
pub use config_file::config;
pub use digests::{Digest, digest_of};
pub use index_file::{Entry, file, lacks_room, line_end, line_len};
pub use lines::{line, stem};
pub use stem_check::check_stem;
