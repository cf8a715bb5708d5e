//! What the tests of a registry and of its streams share: words of scripts that are calls, what
//! calls are told as texts, and the registries of the worked examples as the lines that make them.
//!
//! A line is a command or a request, `export`, `audit`, or `stream` before a request for an index
//! file, an arrow, and its whole answer.
//! Who asks is ada, bob, no-token, or the text of a token, and `|` is between words where one has
//! a space:
//!
//! ```text
//! reserve acme -> done
//! user-add|carol|Carol C. -> done
//! bob yank a 0.1.0 -> A9
//! ```
#![tactic(auto)]

mod calls;
mod fault;
mod limits;
mod playing;
mod replies;
mod requests;
mod sequences;
mod setups;
mod tasks;

pub use calls::{Parts, answer};
pub use fault::Fault;
pub use limits::limits_of;
pub use playing::{Played, play};
pub use replies::{body_text, order_text, reply_text, told_text};
pub use sequences::told_otherwise;
pub use setups::{BASE, TWO_ACCOUNTS_AND_A, setup_of};
pub use tasks::send_answer;
