//! The metadata of a publish request, read into a manifest or refused for its first fault.
//!
//! ```
//! let manifest = read_manifest(alloc, b"{\"name\":\"a\",\"vers\":\"0.1.0\"}")?;
//! manifest.vers.as_str()                          // 0.1.0
//! read_manifest(alloc, b"[]")                     // Err(ManifestFault::Field)
//! ```
//!
//! `fields` reads the fields of any JSON object of this registry, index lines included.
#![tactic(auto)]

mod fault;
pub mod fields;
mod manifest;
mod metadata;
mod rules;

pub use fault::ManifestFault;
pub use manifest::{Dep, Manifest};
pub use metadata::read_manifest;
pub use rules::are_deps;
