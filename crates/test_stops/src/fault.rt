//! Why a test failed.

use std::alloc::AllocError;
use std::io;

/// A line that was answered otherwise or whose trial ended otherwise, or why none could be tried.
#[derive(Debug, Drop)]
pub(crate) enum Fault {
    Line(String),
    Words,
    NotOpened,
    NotClosed,
    Memory,
}

impl From<AllocError> for Fault {
    fn from(_error: AllocError) -> Fault {
        Fault::Memory
    }
}

/// A file in memory fails for want of memory alone.
impl From<io::Error> for Fault {
    fn from(_error: io::Error) -> Fault {
        Fault::Memory
    }
}
