//! A head that owns its parts.

ghost use Rattle.std.specs.Prelude.{◌≡◌, IfOk};
ghost use Rattle.std.specs.Option.{option_map};
ghost use Rattle.reg_http_read.specs.Owned.{facts_owned};
ghost use Rattle.reg_http_read.specs.Reads.{facts_of};

use crate::head::Head;
use std::alloc::{AllocError, Global};

/// A head that owns its parts, kept until its body has arrived.
#[derive(Drop)]
pub struct OwnedHead {
    pub(crate) method: String,
    pub(crate) target: String,
    pub(crate) token: Option<Vec<u8>>,
    pub len: usize,
    pub body_len: u64,
    pub interim: bool,
    pub close: bool,
}

fn owned_token(alloc: Global, token: Option<&[u8]>) -> Result<Option<Vec<u8>>, AllocError>
    ensures { IfOk result (λ o. option_map (λ t. t.items) o ≡ option_map (λ t. t.now) token.entry) }
{
    match token {
        Some(token) => Ok(Some(token.to_vec(alloc)?)),
        None => Ok(None),
    }
}

/// Copies a head.
pub(crate) fn keep(alloc: Global, head: &Head<'_>) -> Result<OwnedHead, AllocError>
    ensures { IfOk result (λ it. facts_owned it ≡ facts_of head.now) }
{
    Ok(OwnedHead {
        method: String::from_str(alloc, head.method)?,
        target: String::from_str(alloc, head.target)?,
        token: owned_token(alloc, head.token)?,
        len: head.len,
        body_len: head.body_len,
        interim: head.interim,
        close: head.close,
    })
}

fn lent_token(token: &Option<Vec<u8>>) -> Option<&[u8]>
    ensures { option_map (λ t. t.now) result ≡ option_map (λ t. t.items) token.now }
{
    match token {
        Some(token) => Some(token.as_slice()),
        None => None,
    }
}

impl OwnedHead {
    /// The head, borrowed.
    pub fn as_head(&self) -> Head<'_>
        ensures { facts_of result ≡ facts_owned self.now }
    {
        Head {
            method: self.method.as_str(),
            target: self.target.as_str(),
            token: lent_token(&self.token),
            len: self.len,
            body_len: self.body_len,
            interim: self.interim,
            close: self.close,
        }
    }
}
