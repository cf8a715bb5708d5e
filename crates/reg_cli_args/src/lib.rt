//! The arguments of the program and of the administrator's commands, as the command line, the
//! lines of a setup file and the messages to a server have them.
//!
//! ```
//! let matches = read_words(alloc, &words)?;   // registry_cli user-add ada --db registry.db
//! matches.subcommand_name()                   // Some("user-add")
//!
//! let line = read_line(alloc, &words)?;       // owner-add a bob
//! let (name, inner) = line.subcommand()?;
//! read_order(alloc, name, inner)?             // AdminCommand::OwnerAdd("a", "bob")
//! ```
//!
//! `clap` judges how many arguments there are and which options; what they mean is read here.
#![tactic(auto)]

mod dashes;
mod numbers;
mod orders;
mod parameters;
mod reports;
mod subcommands;
mod usage;
mod version;

pub use dashes::is_dashed;
pub use numbers::{decimal, port};
pub use orders::{GivenCommand, NewToken, OrderRead, TokenSource, read_order};
pub use reports::read_report;
pub use usage::{read_line, read_message, read_words};
