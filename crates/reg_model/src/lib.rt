//! The abstract registry: its states, its rules, its steps, and the laws of its runs.
//!
//! All of it is definitions; the types here are shared by definitions and programs.
//! `Rule::from(BodyFault::Short)` is `Rule::B1`.
#![tactic(auto)]

pub mod laws;
mod rule;

pub use reg_names::{Endpoint, Endpoints};
pub use rule::{AdminRefusal, Rule};
