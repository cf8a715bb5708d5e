//! Why a script could not be played to its end.

use reg_manifest::ManifestFault;
use reg_tables::StoreFault;
use sqlite::Error;
use std::alloc::AllocError;

/// A fault, by its source.
#[derive(Debug, Drop)]
pub enum Fault {
    NotMade,
    NotAdopted,
    Manifest(ManifestFault),
    Memory,
    Sql(Error),
    Store,
}

impl From<AllocError> for Fault {
    fn from(_error: AllocError) -> Fault {
        Fault::Memory
    }
}

impl From<ManifestFault> for Fault {
    fn from(fault: ManifestFault) -> Fault {
        Fault::Manifest(fault)
    }
}

impl From<Error> for Fault {
    fn from(error: Error) -> Fault {
        Fault::Sql(error)
    }
}

impl From<StoreFault> for Fault {
    fn from(_fault: StoreFault) -> Fault {
        Fault::Store
    }
}
