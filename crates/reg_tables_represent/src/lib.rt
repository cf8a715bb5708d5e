//! What the tables' rows stand for: each change to the rows is a change to the registry, and each
//! selection a part of it.
//!
//! `Stands` in `specs/` says which registry the rows are. A function here is one or more statements
//! in a transaction, with what it means on that registry. `walks` and `entries` read outside one,
//! and `upgrade` knows schema 1.
//!
//! `accounts::add(&mut conn, "ada", Some("Ada"))?` is the id of the new account: one more than
//! there were.
#![tactic(auto)]

pub mod accounts;
pub mod archives;
pub mod crates;
pub mod entries;
pub mod laws;
pub mod pairs;
pub mod reserved;
pub mod restricted;
pub mod summaries;
pub mod tokens;
pub mod upgrade;
pub mod walks;
