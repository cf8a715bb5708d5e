//! Tests of a setup file with a stream after it, and of the trail that both leave.
#![tactic(auto)]

#[cfg(test)]
mod callers;
#[cfg(test)]
mod piping;
#[cfg(test)]
mod piping_memory;
#[cfg(test)]
mod traced;
