//! Commands on tokens.

ghost use Rattle.std.specs.Prelude.{◌≡◌, ◌∷◌, [], ◌||◌, ◌==◌, IfOk, codes, false, length, map, nat_le, nat_lt, not, string_bytes};
ghost use Rattle.std.specs.Option.{option_map};
ghost use Rattle.std.specs.List.{list_all};
ghost use Rattle.reg_model.specs.Events.Command.{TokenAdd, TokenRevoke};
ghost use Rattle.reg_model.specs.Refusals.{is_endpoint};
ghost use Rattle.reg_model.specs.Reports.{with_commas};
ghost use Rattle.reg_tables_represent.specs.Calls.{Tells};
ghost use Rattle.reg_tables.specs.Works.{IsActive, has_failed};
ghost use Rattle.reg_tables.specs.Calling.{Queries, Updates};
ghost use Rattle.reg_service_commands.specs.Orders.{IsScope, PutsToken, is_full_for, token_refusal};
ghost use Rattle.reg_service_commands.specs.Telling.{ObeysTold, ObeysToldUnder};
ghost use Rattle.reg_service_steps.specs.Telling.{line_if};

use crate::finding::refused_if;
use crate::lines::new_token_line;
use crate::told::{Answer, TracedOrder, done_of, refused};
use itoa::Buffer;
use reg_body::Limits;
use reg_line::Digest;
use reg_model::{AdminRefusal, Endpoints};
use reg_names::Pattern;
use reg_policy::{AdminReply, are_endpoints, endpoints_named, parse_patterns};
use reg_service_steps::{is_told, told_line};
use reg_tables::{Result, Work};
use sqlite::Alter;
use std::alloc::{AllocError, Global};

/// Revokes the token with this id.
pub(crate) fn revoke<S: Alter>(
    alloc: Global,
    work: &mut Work<'_, S>,
    id: u32,
    traced: bool,
) -> Result<TracedOrder>
    requires { IsActive S.Store work.old }
    ensures { ObeysTold traced S.Store (TokenRevoke id) result work.old work.new }
{
    let Some(live) = work.is_live(id)? else {
        return Ok(refused(AdminRefusal::G6));
    };
    work.revoke(id)?;
    let mut digits = Buffer::new();
    let number = digits.format(id);
    done_of(alloc, work, is_told(traced, live), "token-revoke", number)
}

/// Whether there are as many tokens as allowed, or more patterns than a token may have.
fn are_too_many(limits: &Limits, patterns: usize, tokens: u64) -> bool
    ensures { result ≡ (nat_lt limits.now.patterns patterns || nat_le limits.now.tokens tokens) }
{
    (limits.patterns as usize) < patterns || limits.tokens <= tokens
}

fn is_full<S: Alter>(work: &mut Work<'_, S>, limits: &Limits, patterns: &[Pattern]) -> Result<bool>
    requires { IsActive S.Store work.old }
    ensures { Queries S.Store work.old work.new result (λ db full.
        Tells (λ ids s. full ≡ is_full_for limits.now patterns.now s) db) }
{
    let tokens = work.count_tokens()?;
    Ok(are_too_many(limits, patterns.len(), tokens))
}

/// Why a token with this digest and these patterns can't be added, if there is a reason.
fn refuses_token<S: Alter>(
    alloc: Global,
    work: &mut Work<'_, S>,
    limits: &Limits,
    digest: &Digest,
    patterns: &[Pattern],
) -> Result<Option<AdminRefusal>>
    requires { IsActive S.Store work.old }
    ensures { Queries S.Store work.old work.new result (λ db found.
        Tells (λ ids s. token_refusal limits.now digest.now patterns.now s ≡ found) db) }
{
    let full = is_full(work, limits, patterns)?;
    if full {
        return Ok(Some(AdminRefusal::G7));
    }
    let found = work.token_rows(alloc, digest)?;
    Ok(refused_if(AdminRefusal::G5, found.is_some()))
}

/// Adds a token to an existing account.
fn put_token<S: Alter>(
    alloc: Global,
    work: &mut Work<'_, S>,
    limits: &Limits,
    digest: &Digest,
    account: u32,
    endpoints: Endpoints,
    patterns: &[Pattern],
) -> Result<Answer>
    requires { IsActive S.Store work.old }
    ensures { Updates S.Store work.old work.new result
        (PutsToken limits.now digest.now account endpoints patterns.now) }
{
    if let Some(refusal) = refuses_token(alloc, work, limits, digest, patterns)? {
        return Ok(Err(refusal));
    }
    let id = work.add_token(alloc, digest, account, endpoints, patterns)?;
    Ok(Ok(AdminReply::Id(id)))
}

/// Whether the words name one or more endpoints.
fn name_endpoints(words: &[&str]) -> bool
    ensures { not result ≡ (length (map (λ w. w.now) words.now) == 0 || not
        (list_all is_endpoint (map (λ w. w.now) words.now))) }
{
    !words.is_empty() && are_endpoints(words)
}

/// The patterns of a token, unless they or its endpoint words are refused.
fn read_scopes(
    alloc: Global,
    words: &[&str],
    texts: &[&str],
) -> Result<Result<Vec<Pattern>, AdminRefusal>, AllocError>
    ensures { IfOk result (IsScope (map (λ w. w.now) words.now) (map (λ t. t.now) texts.now)) }
{
    if !name_endpoints(words) {
        return Ok(Err(AdminRefusal::G9));
    }
    match parse_patterns(alloc, texts)? {
        Some(patterns) => Ok(Ok(patterns)),
        None => Ok(Err(AdminRefusal::G4)),
    }
}

/// The line of a new token, if it is to be told.
fn tell_token<S: Alter>(
    alloc: Global,
    work: &mut Work<'_, S>,
    told: bool,
    login: &str,
    words: &[&str],
    patterns: &[Pattern],
) -> Result<Option<String>>
    requires at_work { IsActive S.Store work.old }
    requires goes_on { has_failed work.old ≡ false }
    ensures { Queries S.Store work.old work.new result (λ db line. option_map string_bytes line
        ≡ line_if told (codes "-" ∷ codes "admin" ∷ codes "token-add" ∷ login.now
        ∷ codes "--endpoints" ∷ with_commas (map (λ w. w.now) words.now)
        ∷ codes "--patterns" ∷ with_commas patterns.now ∷ [])) }
{
    if !told {
        return Ok(None);
    }
    told_line(work, new_token_line(alloc, login, words, patterns))
}

/// Adds a token, and returns its id.
pub(crate) fn add_token<S: Alter>(
    alloc: Global,
    work: &mut Work<'_, S>,
    limits: &Limits,
    login: &str,
    words: &[&str],
    texts: &[&str],
    digest: &Digest,
    traced: bool,
) -> Result<TracedOrder>
    requires { IsActive S.Store work.old }
    ensures { ObeysToldUnder traced limits.now S.Store (TokenAdd login.now
        (map (λ w. w.now) words.now) (map (λ t. t.now) texts.now) digest.now)
        result work.old work.new }
{
    let Some(account) = work.account_by_login(login)? else {
        return Ok(refused(AdminRefusal::G3));
    };
    let patterns = match read_scopes(alloc, words, texts) {
        Ok(Ok(patterns)) => patterns,
        Ok(Err(refusal)) => return Ok(refused(refusal)),
        Err(_) => return work.fail(),
    };
    let endpoints = endpoints_named(words);
    let answer = put_token(
        alloc, work, limits, digest, account.id, endpoints, &patterns,
    )?;
    let line = tell_token(alloc, work, traced, login, words, &patterns)?;
    Ok(TracedOrder { answer, line })
}
