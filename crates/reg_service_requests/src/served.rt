//! The outcome of a request within a transaction.

use reg_api_replies::Reply;
use reg_service_index::FoundFile;

/// The outcome of a request within a transaction.
#[derive(Drop)]
pub enum Served {
    /// It is denied or served, and nothing of the transaction is to be kept.
    ReadOnly(Reply),
    /// It is done, once the transaction is committed.
    Done(Reply),
    /// It may search: the id of its token's account.
    Seeks(u32),
    /// It may read this index file, and nothing of the transaction is to be kept.
    Sends(FoundFile),
}
