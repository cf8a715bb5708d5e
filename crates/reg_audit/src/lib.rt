//! The checks of a registry's rows when its store is opened: C1 to C8, in this order.
//!
//! They read in one transaction, of which nothing is kept. One archive is held at a time.
//!
//! ```
//! let mut tables = Tables::adopt(alloc, conn)?;
//! audit(alloc, &mut tables)?                      // None if all checks pass, otherwise the
//!                                                 // first that fails, as Some(Check::C4)
//! ```
#![tactic(auto)]

mod accounts;
mod archives;
mod check;
mod crates;
mod opening;
mod readers;
mod reserved;
mod summaries;
mod texts;
mod tokens;
mod versions;

pub use check::Check;
pub use opening::audit;
