//! Tests of streams over a store in memory, by scripts of bytes that come in and go out: those that
//! the program cannot be given, since an end fails or gives one byte at a time, memory is scarce,
//! limits are others, or commands come in between; and those of many megabytes.
//!
//! All other streams are files in `tests/streams`, which `scripts/streams-day` plays.
#![tactic(auto)]

#[cfg(test)]
mod denied;
#[cfg(test)]
mod ends;
#[cfg(test)]
mod failing;
#[cfg(test)]
mod hostile;
#[cfg(test)]
mod limits;
#[cfg(test)]
mod memory;
#[cfg(test)]
mod playing;
#[cfg(test)]
mod restricted;
#[cfg(test)]
mod script;
#[cfg(test)]
mod sizes;
#[cfg(test)]
mod stream;
#[cfg(test)]
mod trials;
#[cfg(test)]
mod trickling;
