//! The check of the tokens and their patterns.

ghost use Rattle.std.specs.Prelude.{◌≡◌, ◌==◌, ◌+◌, ◌&&◌, ◌||◌, IfOk, string_bytes};
ghost use Rattle.std.specs.Str.{bytes_eq};
ghost use Rattle.reg_names.specs.Ranges.{range_view};
ghost use Rattle.std.specs.List.{list_all};
ghost use Rattle.reg_model.specs.Sound.{has_some};
ghost use Rattle.reg_audit.specs.Checks.{are_placed as are_placed_in, follow as follow_in, is_scope as is_scope_row, is_token as is_token_row, tokens_pass as tokens_pass_in};

use crate::texts::{are_counted, same_text};
use reg_model::Endpoints;
use reg_names::{NameRange, Pattern, compile};
use reg_tables::{AllRows, Scope, Token};
use std::alloc::{AllocError, Global};

fn has_endpoint(endpoints: &Endpoints) -> bool
    ensures { result ≡ has_some endpoints.now }
{
    (endpoints.publish_new || endpoints.publish_update)
        || (endpoints.yank || endpoints.change_owners)
}

fn is_token(token: &Token) -> bool
    ensures { result ≡ is_token_row token.now }
{
    token.digest.len() == 32 && has_endpoint(&token.endpoints)
}

fn are_tokens(tokens: &[Token]) -> bool
    ensures { result ≡ list_all is_token_row tokens.now }
{
    tokens.iter().all(|token| is_token(token))
}

fn has_range(scope: &Scope, range: &NameRange) -> bool
    ensures { result ≡ (bytes_eq (string_bytes scope.now.low) (range_view range.now).low && bytes_eq
        (string_bytes scope.now.high) (range_view range.now).high) }
{
    same_text(&scope.low, &range.low) && same_text(&scope.high, &range.high)
}

fn is_scope(alloc: Global, scope: &Scope) -> Result<bool, AllocError>
    ensures { IfOk result (λ b. b ≡ is_scope_row scope.now) }
{
    match Pattern::parse(&scope.pattern) {
        None => Ok(false),
        Some(pattern) => {
            let range = compile(alloc, &pattern)?;
            Ok(has_range(scope, &range))
        }
    }
}

fn are_scopes(alloc: Global, scopes: &[Scope]) -> Result<bool, AllocError>
    ensures { IfOk result (λ b. b ≡ list_all is_scope_row scopes.now) }
{
    for scope in scopes {
        if !is_scope(alloc, scope)? {
            return Ok(false);
        }
    }
    Ok(true)
}

// Whether the scope comes right after this token's scope at this place.
fn is_next(scope: &Scope, token: u32, place: u64) -> bool
    ensures { result ≡ ((scope.now.token == token && scope.now.place == place + 1)
        || (scope.now.token == token + 1 && scope.now.place == 0)) }
{
    (scope.token == token && scope.place.checked_sub(1) == Some(place))
        || (u64::from(scope.token) == u64::from(token) + 1 && scope.place == 0)
}

fn follow(last: usize, first: &Scope, rest: &[Scope]) -> bool
    ensures { result ≡ follow_in last first.now.token first.now.place rest.now }
{
    let (mut token, mut place) = (first.token, first.place);
    for scope in rest {
        if !is_next(scope, token, place) {
            return false;
        }
        token = scope.token;
        place = scope.place;
    }
    token as usize == last
}

fn are_placed(last: usize, scopes: &[Scope]) -> bool
    ensures { result ≡ are_placed_in last scopes.now }
{
    match scopes {
        [] => last == 0,
        [first, rest @ ..] => (first.token == 1 && first.place == 0) && follow(last, first, rest),
    }
}

/// Whether the tokens have ids without gaps, whole digests, endpoints, and patterns at their places
/// with the right ranges.
pub(crate) fn tokens_pass(alloc: Global, rows: &AllRows) -> Result<bool, AllocError>
    ensures { IfOk result (λ b. b ≡ tokens_pass_in rows.now) }
{
    if !are_counted(&rows.tokens) || !are_tokens(&rows.tokens) {
        return Ok(false);
    }
    if !are_placed(rows.tokens.len(), &rows.scopes) {
        return Ok(false);
    }
    are_scopes(alloc, &rows.scopes)
}
