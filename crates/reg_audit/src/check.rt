//! The checks by their codes.

/// A check that a store's rows must pass when it is opened.
#[derive(Clone, Copy, Debug, PartialEq, Eq)]
pub enum Check {
    /// the base and the accounts
    C1,
    /// the tokens and their patterns
    C2,
    /// the crates
    C3,
    /// the archives
    C4,
    /// the versions
    C5,
    /// the reserved names
    C6,
    /// the summaries of the crates
    C7,
    /// the restricted crates and the readers
    C8,
}
