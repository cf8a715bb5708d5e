//! What the program does with an open registry, whatever its store: `pipe`, a setup of commands and
//! then one stream; connections and messages one after another; commands whose replies are printed,
//! new tokens among them; and files that are written into a folder.
//!
//! ```
//! let exit = run_pipe(alloc, &mut registry, "user-add ada\n", &mut reader, &mut writer);
//! // exit.status is 0 if the stream ended well
//! ```
//!
//! `pipe_traced` does the same, and writes a line for each change to a trail.
#![tactic(auto)]

mod connections;
mod door;
mod exit;
mod folder;
mod listener;
mod message;
mod obeying;
mod ordering;
mod pipe;
mod printing;
mod service;
mod setup;
mod socket;
mod stream;
mod tokens;

pub use connections::{mark_opening, serve_connections};
pub use door::{Caller, Door};
pub use exit::exit_of_refusal;
pub use folder::{Folder, export_into, join_path, write_files};
pub use listener::Listener;
pub use obeying::{add_token, obey};
pub use ordering::OrderFault;
pub use pipe::{pipe_traced, run_pipe};
pub use printing::{CALLS, NO_WRITING, print, print_to};
pub use service::{Service, read_service};
pub use setup::setup_traced;
pub use tokens::{TokenMade, TokenText, make_token};
