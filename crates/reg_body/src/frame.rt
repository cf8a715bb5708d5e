//! The publish body (the Cargo Book, "Registry Web API", "Publish"): the JSON and the archive, each
//! after its length.

ghost use Rattle.std.specs.Prelude.{◌≡◌, ◌+◌, ◌^◌, ◌<◌, ◌≤◌, ◌↔◌, ◌⊎◌, ◌++◌, List, ℕ, length, IfOk, IsErrOf, IsOkAnd, MatchOption, MatchResult};
ghost use Rattle.reg_body.specs.Words.{words_of};
ghost use Rattle.reg_body.specs.Frames.{Accepts, Frame, IsCut, IsCutPart, IsTooLong, IsTrailed, le4, with_length};

use crate::limits::Limits;
use std::alloc::{AllocError, Global};

/// Why bytes are no publish body, in the order of the checks. Each is a rule of the registry;
/// `words` gives its text.
#[derive(Clone, Copy, Debug, PartialEq, Eq)]
pub enum BodyFault {
    /// Fewer bytes than the two lengths ask for.
    Short,
    /// More bytes than the two lengths ask for.
    Trailing,
    /// The JSON or the archive is longer than its limit.
    TooLong,
}

impl BodyFault {
    /// The rule's code and text, as a refused request gets them.
    pub fn words(self) -> &'static str
        ensures { result.now ≡ words_of self }
    {
        match self {
            BodyFault::Short => "B1 publish body too short",
            BodyFault::Trailing => "B2 publish body has trailing bytes",
            BodyFault::TooLong => "B3 metadata or archive too long",
        }
    }
}

/// Why two parts make no publish body.
#[derive(Clone, Copy, Debug, PartialEq, Eq)]
pub enum JoinFault {
    /// Out of memory.
    Memory,
    /// A part has 2^32 bytes or more.
    TooLong,
}

impl From<AllocError> for JoinFault {
    ghost use Rattle.std.specs.Prelude.{◌≡◌};
    ghost use Rattle.reg_body.specs.declared.frame.JoinFault.TheVariants.{Memory};

    ghost from_gives = { λ _ fault. fault ≡ Memory };

    fn from(_: AllocError) -> JoinFault {
        JoinFault::Memory
    }
}

/// The part that the bytes begin with, and what follows it.
fn take_part(bytes: &[u8]) -> Option<(&[u8], &[u8])>
    ensures { MatchOption result (IsCutPart bytes.now)
        (λ p. (length p.0.now < 2 ^ 32) × (bytes.now ≡ with_length p.0.now ++ p.1.now)) }
{
    let (digits, rest) = bytes.split_first_chunk::<4>()?;
    let len = u32::from_le_bytes(*digits);
    rest.split_at_checked(len as usize)
}

/// Splits bytes into JSON and archive, exactly when they are a publish body within the limits.
pub fn split<'a>(bytes: &'a [u8], limits: &Limits) -> Result<(&'a [u8], &'a [u8]), BodyFault>
    ensures parts { (j a : List ℕ) → IsOkAnd result (λ p. (p.0.now ≡ j) × (p.1.now ≡ a))
        ↔ Accepts limits.now bytes.now j a }
    ensures short { IsErrOf result BodyFault.Short ↔ IsCut bytes.now }
    ensures trailing { IsErrOf result BodyFault.Trailing ↔ IsTrailed bytes.now }
    ensures too_long { IsErrOf result BodyFault.TooLong ↔ IsTooLong limits.now bytes.now }
{
    let Some((json, rest)) = take_part(bytes) else {
        return Err(BodyFault::Short);
    };
    let Some((archive, rest)) = take_part(rest) else {
        return Err(BodyFault::Short);
    };
    let is_trailed = !rest.is_empty();
    if is_trailed {
        return Err(BodyFault::Trailing);
    }
    if json.len() > limits.json as usize || archive.len() > limits.archive as usize {
        return Err(BodyFault::TooLong);
    }
    Ok((json, archive))
}

/// The length of a part, as written before it.
fn length_bytes(part: &[u8]) -> Result<[u8; 4], JoinFault>
    ensures { MatchResult result
        (λ digits. (length part.now < 2 ^ 32) × (digits ≡ le4 (length part.now)))
        (λ fault. (fault ≡ JoinFault.TooLong) × (2 ^ 32 ≤ length part.now)) }
{
    match u32::try_from(part.len()) {
        Ok(len) => Ok(len.to_le_bytes()),
        Err(_) => Err(JoinFault::TooLong),
    }
}

/// Joins a JSON and an archive into a publish body.
pub fn join(alloc: Global, json: &[u8], archive: &[u8]) -> Result<Vec<u8>, JoinFault>
    ensures frame { IfOk result (λ body. Frame body.items json.now archive.now) }
    ensures too_long { IsErrOf result JoinFault.TooLong
        ↔ ((2 ^ 32 ≤ length json.now) ⊎ (2 ^ 32 ≤ length archive.now)) }
{
    let json_len = length_bytes(json)?;
    let archive_len = length_bytes(archive)?;
    let mut body = Vec::with_capacity(alloc, 8 + json.len() + archive.len())?;
    body.extend_from_slice(&json_len)?;
    body.extend_from_slice(json)?;
    body.extend_from_slice(&archive_len)?;
    body.extend_from_slice(archive)?;
    Ok(body)
}
