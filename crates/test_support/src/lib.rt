//! What the tests share: the worked examples' texts, words of scripts that are commands, parts of
//! scripts that stand for many, and running a call with each amount of memory.
#![tactic(auto)]

pub mod examples;
pub mod orders;
pub mod scarce_memory;
pub mod spreading;
