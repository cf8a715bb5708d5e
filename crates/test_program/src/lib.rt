//! Tests of the program: its words over a file, with ample and with scarce memory.
//!
//! A line of a script is the words of a run, an arrow, and how it ends: `users --db FILE -> 0`.
#![tactic(auto)]

#[cfg(test)]
mod runs;
#[cfg(test)]
mod words;
#[cfg(test)]
mod words_memory;
