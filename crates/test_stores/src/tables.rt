//! Tests of the tables over a store in memory, each a script and what its lines are answered.
//!
//! ```text
//! add-account ada -> 1
//! add-account ada -> fault
//! commit -> fault
//! ```

mod calls;
mod commands;
mod crates;
mod making;
mod memory;
mod old_schema;
mod opening;
mod owners;
mod reading;
mod scripts;
mod searching;
mod tokens;
mod whole_rows;
