//! Why a stream ended before its input did.

/// Why a stream ended before its input did.
#[derive(Clone, Copy, Debug, PartialEq, Eq)]
pub enum StreamFault {
    /// The reader failed.
    ReadFault,
    /// The writer failed.
    WriteFault,
    /// The turns were used up.
    TooManyTurns,
    /// The store failed in the middle of an index file.
    StoreFault,
    /// Out of memory before the first read.
    Memory,
}
