//! The tables of a registry: their texts, and the terms and laws by which each statement on them is
//! understood.
//!
//! ```
//! let mut conn = Connection::open_in_memory(alloc)?;
//! make_tables(&mut conn, "http://127.0.0.1:8080")?;   // all of them in one commit, or nothing
//! edition_of(alloc, conn.schema())?                   // Some(Edition::Second)
//! begin(&mut conn)?;                                  // statements follow
//! finish(&mut conn)?;                                 // they are kept; `undo` keeps nothing
//! ```
#![tactic(auto)]

mod edition;
pub mod laws;
mod make;
mod ours;
mod same;
mod terms;
mod texts;
mod transaction;

pub use edition::SchemaVersion;
pub use make::{MakeFault, add_tables, create_tables, make_tables};
pub use ours::edition_of;
pub use transaction::{ROLLBACK, begin, finish, undo};
