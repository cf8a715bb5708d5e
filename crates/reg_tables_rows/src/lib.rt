//! What is read of many rows: the crates and their versions, how many there are, whether the tables
//! state their schema, all entries of one crate, and all rows, as the opening checks want them.
//!
//! `all_rows::read(alloc, &mut conn)?` holds the rows of each table in the order of its key, except
//! archives. For crates, versions, owners, readers and reserved names, two rows sharing a rowid are
//! a fault.
#![tactic(auto)]

pub mod all_rows;
mod apart;
pub mod counts;
pub mod crate_lists;
pub mod editions;
pub mod entries;
