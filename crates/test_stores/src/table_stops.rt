//! Every call of the tables over files that stop at some call, and with scarce memory.
//!
//! A line of [`calls`] is a task and its answer. Whatever stops it, the rows are those before or
//! those after, and those after once the commit was acknowledged:
//!
//! ```text
//! yank 1 0.1.0 -> done
//! ```

mod calls;
mod commits;
mod fault;
mod files;
mod lines;
mod migration;
mod playing;
mod refused;
mod selecting;
mod stops;
mod tasks;
mod trials;
