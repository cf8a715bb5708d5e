//! What is scarce while a call is made.

use std::alloc::{AllocError, Global};
use test_support::scarce_memory::Amounts;

/// What runs out.
#[derive(Clone, Copy)]
pub enum Scarce {
    /// The calls of the log.
    Log,
    /// The calls of the database.
    Db,
    /// The memory while the call is made.
    Call,
    /// The memory while it is committed.
    Commit,
}

/// After how many calls each file stops, and how many bytes of memory are left.
#[derive(Clone, Copy)]
pub struct Limits {
    pub log: u64,
    pub db: u64,
    pub call: Option<u32>,
    pub commit: Option<u32>,
}

pub const NO_LIMITS: Limits = Limits {
    log: u64::MAX,
    db: u64::MAX,
    call: None,
    commit: None,
};

impl Scarce {
    /// There is so much of it.
    pub fn with(self, amount: u32) -> Limits {
        let mut limits = NO_LIMITS;
        match self {
            Scarce::Log => limits.log = u64::from(amount),
            Scarce::Db => limits.db = u64::from(amount),
            Scarce::Call => limits.call = Some(amount),
            Scarce::Commit => limits.commit = Some(amount),
        }
        limits
    }
}

/// Leaves no more than this amount of memory, if there is one, until what is answered is dropped.
pub fn leave_only(alloc: Global, amount: Option<u32>) -> Result<Option<Amounts>, AllocError> {
    let Some(amount) = amount else {
        return Ok(None);
    };
    let mut amounts = Amounts::new(alloc, 1, amount)?;
    let is_scarce = amounts.advance(alloc);
    Ok(if is_scarce { Some(amounts) } else { None })
}
