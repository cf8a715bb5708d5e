//! Why a script could not be played.

use sqlite::Error;
use std::alloc::AllocError;

/// Why a script could not be played.
#[derive(Debug, Drop)]
pub enum Fault {
    Memory,
    Store,
    /// No registry was made.
    NotMade,
}

impl From<AllocError> for Fault {
    fn from(_error: AllocError) -> Fault {
        Fault::Memory
    }
}

impl From<Error> for Fault {
    fn from(_error: Error) -> Fault {
        Fault::Store
    }
}
