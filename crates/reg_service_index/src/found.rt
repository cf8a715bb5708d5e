//! Index files that were found.

/// The index file of a crate: the crate's id, and how long the file is.
#[derive(Clone, Copy, Debug, PartialEq, Eq)]
pub struct FoundFile {
    pub crate_id: u32,
    pub length: u64,
}
