//! Which requests the tables allow, and who may act on a crate or read it.
//!
//! Everything is asked of the rows within a transaction. A name is compared with the ranges of a
//! token's scopes; no pattern is read.
//!
//! ```
//! let mut work = tables.work()?;
//! authorize(&mut work, &digest, &Action::Yank("a", "0.1.0"))?   // Decision::Denied(Rule::A9)
//! admit(&mut work, &digest, &Action::Index("1/a"))?       // the decision, and what was found
//! let name = parse_name("a")?;
//! who_may(alloc, &mut work, &name)?               // a `Grant` for each token and endpoint
//! who_reads(alloc, &mut work, &name)?             // its readers, if it is restricted
//! ```
#![tactic(auto)]

mod access;
mod admission;
mod facts;
mod finding;
mod found;
mod granting;
mod grants;
pub mod laws;
mod reading;
mod texts;

pub use access::{admit, authorize};
pub use admission::{Admission, FoundCrate, Principal};
pub use granting::who_may;
pub use grants::Grant;
pub use reading::who_reads;
