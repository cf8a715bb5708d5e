//! Why a test failed.

use std::alloc::AllocError;
use std::io;

/// A line that was answered otherwise or whose trial ended otherwise, or why none could be tried.
#[derive(Debug, Drop)]
pub(crate) enum Fault {
    Line(String),
    OtherRows,
    Words,
    NotOpened,
    NotMade,
    NotAdopted,
    NotClosed,
    Script(test_tables::Fault),
    Memory,
}

impl From<AllocError> for Fault {
    fn from(_error: AllocError) -> Fault {
        Fault::Memory
    }
}

/// A file in memory fails for want of memory alone.
impl From<io::Error> for Fault {
    fn from(_error: io::Error) -> Fault {
        Fault::Memory
    }
}

impl From<test_tables::Fault> for Fault {
    fn from(fault: test_tables::Fault) -> Fault {
        Fault::Script(fault)
    }
}
