//! The report on the tokens.

ghost use Rattle.std.specs.Prelude.{◌≡◌, ◌++◌, ◌==◌, List, IfOk, OnOk, map, string_bytes};
ghost use Rattle.std.specs.List.{enumerate_from, flat_map, prefix_len};
ghost use Rattle.reg_model.specs.Registry as model;
ghost use Rattle.reg_model.specs.Reports.{token_line, tokens_text};
ghost use Rattle.reg_tables.specs.Works.{IsActive};
ghost use Rattle.reg_tables.specs.Calling.{Queries};
ghost use Rattle.reg_service_commands.specs.Reports.{Reports};
ghost use Rattle.reg_service_commands.specs.ReportedTokens.{AreTokens, IsNext, line_among, login_among, pattern_of, with_patterns};

use reg_names::Pattern;
use reg_policy::push_token_line;
use reg_tables::{Account, Result, Scope, Token, Work};
use sqlite::{Alter, Error};
use std::alloc::Global;

/// The login of the account with this id, given all accounts by id.
fn login_of(accounts: &[Account], id: u32) -> &str
    ensures { result.now ≡ login_among accounts.now id }
{
    if id == 0 {
        return "";
    }
    match accounts.get(id as usize - 1) {
        Some(account) => account.login.as_str(),
        None => "",
    }
}

/// How many scopes at the front belong to this token.
fn count_of(scopes: &[Scope], token: u32) -> usize
    ensures { result ≡ prefix_len (λ s. s.token == token) scopes.now }
{
    scopes
        .iter()
        .take_while(|scope| scope.token == token)
        .count()
}

fn read(scope: &Scope) -> Result<Pattern, Error>
    ensures { IfOk result (λ pattern. pattern ≡ pattern_of scope.now) }
{
    match Pattern::parse(scope.pattern.as_str()) {
        Some(pattern) => Ok(pattern),
        None => Err(Error::InvalidQuery),
    }
}

fn patterns_of(alloc: Global, scopes: &[Scope]) -> Result<Vec<Pattern>, Error>
    ensures { IfOk result (λ list. list.items ≡ map pattern_of scopes.now) }
{
    let mut list = Vec::new(alloc);
    for scope in scopes {
        list.push(read(scope)?)?;
    }
    Ok(list)
}

fn push_token(
    report: &mut String,
    login: &str,
    token: &Token,
    scopes: &[Scope],
) -> Result<(), Error>
    ensures { OnOk result (string_bytes report.new ≡ string_bytes report.old
        ++ token_line login.now (with_patterns (map pattern_of scopes.now) token.now)) }
{
    let patterns = patterns_of(*report.allocator(), scopes)?;
    push_token_line(
        report,
        token.id,
        login,
        token.live,
        &token.endpoints,
        &patterns,
    )?;
    Ok(())
}

/// Adds the line of a token, whose scopes come first, and returns those after them.
fn push_next<'a>(
    report: &mut String,
    accounts: &[Account],
    token: &Token,
    scopes: &'a [Scope],
) -> Result<&'a [Scope], Error>
    ensures { IfOk result (λ others. IsNext accounts.now token.now scopes.now others.now
        (string_bytes report.old) (string_bytes report.new)) }
{
    let (its, others) = scopes.split_at(count_of(scopes, token.id));
    push_token(report, login_of(accounts, token.account), token, its)?;
    Ok(others)
}

/// A line for each token.
fn lines_of(
    alloc: Global,
    accounts: &[Account],
    tokens: &[Token],
    scopes: &[Scope],
) -> Result<String, Error>
    ensures { IfOk result (λ text. (ts : List model.Token)
        → AreTokens 1 ts tokens.now scopes.now
        → string_bytes text ≡ flat_map (line_among accounts.now) (enumerate_from 1 ts)) }
{
    let mut report = String::new(alloc);
    let mut left = scopes;
    for token in tokens {
        left = push_next(&mut report, accounts, token, left)?;
    }
    Ok(report)
}

/// A line for each token, by id.
pub(crate) fn tokens_report<S: Alter>(alloc: Global, work: &mut Work<'_, S>) -> Result<String>
    requires { IsActive S.Store work.old }
    ensures { Queries S.Store work.old work.new result (Reports tokens_text) }
{
    let accounts = work.all_accounts(alloc)?;
    let both = work.all_tokens(alloc)?;
    match lines_of(alloc, &accounts, &both.tokens, &both.scopes) {
        Ok(text) => Ok(text),
        Err(_) => work.fail(),
    }
}
