//! The program except its `main`: what each subcommand does with files, standard streams and
//! sockets.
//!
//! ```
//! let exit = run_words(&rt, &words);   // registry_cli user-add ada --db registry.db
//! // exit.status is 0 if it was done
//! ```
#![tactic(auto)]

mod administering;
mod explaining;
mod exporting;
mod files;
pub mod laws;
mod meanings;
mod sending;
mod serving;
mod store;
mod using;
mod words;

pub use reg_cli_line::{Exit, run_line};
pub use reg_cli_run::{pipe_traced, run_pipe};
pub use words::{run_from, run_words};
