//! Whether the plain registry answers alike.

use reg_api_replies::{FoundBody, OwnersBody, Reply};
use reg_model::AdminRefusal;
use reg_policy::{AdminReply, Answer, Asked, Event, OwnerEntry, Reading};
use reg_reference::{Found, PlainRegistry};
use std::alloc::{AllocError, Global};
use test_scripts::order_text;

/// The body of a reply with these owners.
pub(crate) fn owners_body(alloc: Global, owners: &[OwnerEntry]) -> Result<Vec<u8>, AllocError> {
    let mut body = OwnersBody::new(alloc);
    for owner in owners {
        body.push(owner.id, owner.login.as_str(), owner.name.as_deref())?;
    }
    body.finish()
}

fn found_body(alloc: Global, found: &Found) -> Result<Vec<u8>, AllocError> {
    let mut body = FoundBody::new(alloc);
    for hit in &found.crates {
        body.push(&hit.name, &hit.version, hit.description.as_deref())?;
    }
    body.finish(found.total)
}

fn has_body(reply: &Reply, wanted: &[u8]) -> bool {
    match reply {
        Reply::Done(_, body) => body.as_slice() == wanted,
        _ => false,
    }
}

/// Whether a reply tells what the plain registry answers. Of what it does not serve itself it gives
/// the decision alone.
pub(crate) fn replies_alike(
    alloc: Global,
    reply: &Reply,
    answer: &Answer,
) -> Result<bool, AllocError> {
    Ok(match answer {
        Answer::Denied(rule) => match reply {
            Reply::Denied(other) => other == rule,
            _ => false,
        },
        Answer::Granted => matches!(reply, Reply::Done(_, _)),
        Answer::File(bytes) => has_body(reply, bytes),
        Answer::Archive(bytes) => has_body(reply, bytes),
        Answer::Owners(owners) => has_body(reply, &owners_body(alloc, owners)?),
        _ => false,
    })
}

/// Whether what is served of a search is what the plain registry finds for this account.
pub(crate) fn finds_alike(
    alloc: Global,
    plain: &PlainRegistry,
    account: Option<u32>,
    event: &Event,
    reply: &Reply,
) -> Result<bool, AllocError> {
    match (event, reply) {
        (Event::Ask(_, Asked::Read(Reading::Search(query, most))), Reply::Done(_, _)) => {
            let found = plain.search(account, query, *most)?;
            Ok(has_body(reply, &found_body(alloc, &found)?))
        }
        _ => Ok(true),
    }
}

/// Whether a command is answered as the plain registry answers it.
pub(crate) fn obeys_alike(
    alloc: Global,
    told: &Result<AdminReply, AdminRefusal>,
    answer: Answer,
) -> Result<bool, AllocError> {
    let other = match answer {
        Answer::Replied(reply) => Ok(reply),
        Answer::Refused(refusal) => Err(refusal),
        _ => return Ok(false),
    };
    Ok(order_text(alloc, told)? == order_text(alloc, &other)?)
}
