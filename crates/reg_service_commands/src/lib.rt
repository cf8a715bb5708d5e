//! The administrator's commands, each within a transaction that the caller begins and commits, the
//! line that a change leaves in a trail, and the index as files.
//!
//! ```
//! let add = AdminCommand::UserAdd("ada", None);
//! let told = order_told(alloc, &mut work, &limits, &add, true)?;
//! told.answer                                 // Ok(AdminReply::Done)
//! told.line                                   // - admin user-add ada
//! ```
#![tactic(auto)]

mod accounts;
mod crates;
mod exporting;
mod finding;
mod lines;
mod names;
mod orders;
mod reports;
mod tokens;
mod told;

pub use exporting::export_all;
pub use orders::order_told;
pub use told::{Answer, TracedOrder, refused};
