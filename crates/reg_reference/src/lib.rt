//! A plain registry that follows the rules over vectors.
//!
//! It searches all that it has for each answer: it is meant to be read, and to compare with.
//!
//! ```
//! let mut registry = PlainRegistry::new(alloc, Limits::STANDARD);
//! let add = Event::Order(AdminCommand::UserAdd("ada", None));
//! registry.step(&add)                             // Answer::Replied(AdminReply::Done)
//! registry.step(&Event::Ask(None, Asked::Index("1/a")))   // Answer::Denied(Rule::A1)
//! registry.search(None, "a", 10)?.total           // 0
//! ```
#![tactic(auto)]

mod asking;
mod commands;
mod crate_commands;
mod plain;
mod reports;
mod rows;
mod search;

pub use plain::PlainRegistry;
pub use search::{Found, Hit};
