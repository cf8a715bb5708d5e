//! What refusals mean, each as its entry in docs/REFUSALS.md.

mod requests;
mod runs;

pub(crate) use requests::{ACCESS, CONTENTS, HEADS, OTHERS};
pub(crate) use runs::{COMMANDS, DAMAGES, WORDS};
