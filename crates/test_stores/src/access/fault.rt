//! Why a script could not be played to its end.

use reg_tables::StoreFault;
use sqlite::Error;
use std::alloc::AllocError;

/// A fault, by its source.
#[derive(Debug, Drop)]
pub(crate) enum Fault {
    NotMade,
    Setup(test_tables::Fault),
    Memory,
    Sql(Error),
    Store,
}

impl From<test_tables::Fault> for Fault {
    fn from(fault: test_tables::Fault) -> Fault {
        Fault::Setup(fault)
    }
}

impl From<AllocError> for Fault {
    fn from(_error: AllocError) -> Fault {
        Fault::Memory
    }
}

impl From<Error> for Fault {
    fn from(error: Error) -> Fault {
        Fault::Sql(error)
    }
}

impl From<StoreFault> for Fault {
    fn from(_fault: StoreFault) -> Fault {
        Fault::Store
    }
}
