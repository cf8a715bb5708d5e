//! The statements on the tables of a registry: one SQL text per function, on a connection in a
//! transaction.
//!
//! Each function says what its text returns or changes, in the terms of its table in `specs/`; what
//! else a statement leaves is one word, `Reads` or `Writes`. No function here begins or ends a
//! transaction.
//!
//! `accounts::by_login(&mut conn, "ada")?` is the account with this login, if there is one.
#![tactic(auto)]

pub mod about;
pub mod accounts;
pub mod archives;
pub mod crates;
mod marks;
pub mod pairs;
pub mod records;
pub mod reserved;
pub mod restricted;
mod rows;
pub mod scopes;
pub mod statements;
pub mod summaries;
pub mod tokens;
pub mod versions;
