//! Search over the tables (the Cargo Book, "Registry Web API", "Search"): one walk over the
//! canonical texts, then the rows of the crates that are shown.
//!
//! ```text
//! let found = search(alloc, &mut tables, ada, "serde", 10)?;
//! ```
#![tactic(auto)]

mod hidden;
mod hit;
mod needle;
mod numbered;
mod page;
mod records;
mod searching;

pub use hit::{Found, Hit};
pub use searching::search;
