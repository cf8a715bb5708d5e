//! Index files, sent or read one row at a time. A request finds a file, within a transaction; after
//! the transaction its rows are read.
//!
//! ```
//! let file = FoundFile { crate_id: 1, length: 300 };
//! send_file(&mut tables, &file, close, &mut w, writes)?   // the write calls it took
//! read_file(alloc, &mut tables, &file)?                   // the same without its head, in memory
//! ```
#![tactic(auto)]

mod fault;
mod files;
mod found;
pub mod laws;
mod lines;
mod sending;

pub use fault::IndexFault;
pub use found::FoundFile;
pub use sending::{read_file, send_file};
