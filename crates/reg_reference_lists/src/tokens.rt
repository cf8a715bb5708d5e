//! Tokens, whose ids are their places counted from 1.

ghost use Rattle.std.specs.Prelude.{◌≡◌, ◌≤◌, ◌++◌, ◌+◌, [], ◌∷◌, false, is_some, IfOk, OnErr, OnOk, length, map};
ghost use Rattle.std.specs.Option.{option_map};
ghost use Rattle.std.specs.List.{find};
ghost use Rattle.std.specs.Str.{bytes_eq};
ghost use Rattle.reg_model.specs.Registry.{change_at, with_id};
ghost use Rattle.reg_reference_lists.specs.Tokens.{token_of};

use reg_model::Endpoints;
use reg_names::Pattern;
use std::alloc::{AllocError, Global};
use std::marker::Model;

/// A token.
#[derive(Drop)]
pub struct PlainToken {
    pub digest: [u8; 32],
    pub account: u32,
    pub live: bool,
    pub endpoints: Endpoints,
    pub patterns: Vec<Pattern>,
}

/// Tokens, few enough for 32-bit ids.
#[derive(Drop)]
pub struct Tokens {
    list: Vec<PlainToken>,
}

impl Model for Tokens {
    ghost use Rattle.std.specs.Prelude.{List, ◌≤◌, length, map};
    ghost use Rattle.reg_model.specs.Registry as model;

    ghost Value = { List model.Token };

    ghost use Rattle.reg_reference_lists.specs.Tokens.{token_of};

    ghost view = { λ t. map token_of t.list.items };

    ghost invariant = { λ t. length t.list.items ≤ 4294967295 };
}

fn has_digest(token: &PlainToken, digest: &[u8; 32]) -> bool
    ensures { result ≡ bytes_eq token.now.digest digest.now }
{
    token.digest.as_slice() == digest.as_slice()
}

fn find_in<'a>(tokens: &'a [PlainToken], digest: &[u8; 32]) -> Option<&'a PlainToken>
    ensures { option_map (λ t. t.now) result ≡ find (λ t. bytes_eq t.digest digest.now) tokens.now }
{
    tokens.iter().find(|token| has_digest(token, digest))
}

impl Tokens {
    /// No tokens.
    pub fn new(alloc: Global) -> Tokens
        ensures { result ≡ [] }
    {
        Tokens {
            list: Vec::new(alloc),
        }
    }

    /// How many tokens there are.
    pub fn len(&self) -> usize
        ensures { result ≡ length self.now }
    {
        self.list.len()
    }

    /// All tokens, by id.
    pub fn as_slice(&self) -> &[PlainToken]
        ensures tokens { map token_of result.now ≡ self.now }
        ensures fits { length result.now ≤ 4294967295 }
    {
        self.list.as_slice()
    }

    /// The token with this digest.
    pub fn find(&self, digest: &[u8; 32]) -> Option<&PlainToken>
        ensures { option_map (λ t. token_of t.now) result ≡ find
            (λ t. bytes_eq t.digest digest.now) self.now }
    {
        find_in(&self.list, digest)
    }

    /// The token with this id.
    pub fn get(&self, id: u32) -> Option<&PlainToken>
        ensures { option_map (λ t. token_of t.now) result ≡ with_id self.now id }
    {
        if id == 0 {
            return None;
        }
        self.list.get(id as usize - 1)
    }

    /// Whether there is a token with this id.
    pub fn has(&self, id: u32) -> bool
        ensures { result ≡ is_some (with_id self.now id) }
    {
        id != 0 && id as usize <= self.list.len()
    }

    /// Adds a token and returns its id. If 32 bits do not hold it, there is no room.
    pub fn add(&mut self, token: PlainToken) -> Result<u32, AllocError>
        ensures ok { OnOk result (self.new ≡ self.old ++ token_of token ∷ []) }
        ensures id { IfOk result (λ id. id ≡ length self.old + 1) }
        ensures err { OnErr result (self.new ≡ self.old) }
    {
        let before = self.list.len();
        if before >= u32::MAX as usize {
            return Err(AllocError);
        }
        self.list.push(token)?;
        Ok(before as u32 + 1)
    }

    /// Revokes the token with this id.
    pub fn revoke(&mut self, id: u32)
        ensures { self.new ≡ change_at (λ t. record t { live = false }) id self.old }
    {
        if id == 0 {
            return;
        }
        if let Some(token) = self.list.get_mut(id as usize - 1) {
            token.live = false;
        }
    }
}
