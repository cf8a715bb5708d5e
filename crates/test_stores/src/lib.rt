//! Tests of the tables and of the joins over them, as scripts: over memory, over files, and over
//! files that stop at some call; with ample memory and with scarce memory.
#![tactic(auto)]

#[cfg(test)]
mod access;
#[cfg(test)]
mod table_stops;
#[cfg(test)]
mod tables;
