//! The public surface: each type and each call of the houses, by its path and in its form.
//!
//! A free function is the value of a constant of its type. A method is called behind a `return`:
//! its types are checked, and nothing is run. A call whose condition the specification names is
//! called by a function that asks for this condition.
//! Where a type or a call is missing or has another form, this does not compile.
#![tactic(auto)]

mod access;
mod audit;
mod body;
mod cli;
mod line;
mod manifest;
mod names;
mod policy;
mod search;
mod service;
mod tables;
mod versions;
mod wire;
