//! What answers a request.

use reg_service_index::FoundFile;
use reg_service_requests::TracedReply;

/// What answers a request.
#[derive(Drop)]
pub enum Answered {
    /// A reply, and the line of what was changed.
    Replied(TracedReply),
    /// An index file, which is still to be read. Nothing was changed.
    Found(FoundFile),
}
