//! Tokens and their scopes: changes to the registry that the rows stand for, and what they show of
//! it.

ghost use Rattle.std.specs.Prelude.{◌≡◌, [], IfOk};
ghost use Rattle.std.specs.Option.{option_map};
ghost use Rattle.sqlite.specs.Held.{state};
ghost use Rattle.reg_tables_schema.specs.States.{IsReady};
ghost use Rattle.reg_tables_schema.specs.Statements.{rows_in};
ghost use Rattle.reg_tables_schema.specs.Steps.{Done, KeepsAll, Steps, Told};
ghost use Rattle.reg_tables_represent.specs.Calls.{AddsToken, Ends, FindsToken, FindsTokenRow, ListsScopes, ListsTokens, TellsLive};
ghost use Rattle.reg_tables_schema.specs.Changes.{AddsColumns};
ghost use Rattle.reg_tables_schema.specs.Places.{scopes_tree};
ghost use Rattle.reg_tables_represent.specs.Patterns.{GivesPatterns};
ghost use Rattle.reg_tables_represent.specs.Stands.{scope_of};

use crate::accounts::next_id;
use reg_line::Digest;
use reg_model::Endpoints;
use reg_names::{Pattern, compile};
use reg_tables_sql::scopes::{self, Scope};
use reg_tables_sql::statements::Result;
use reg_tables_sql::tokens::{self, Token, TokenRow};
use sqlite::{Alter, Connection, Error};
use std::alloc::Global;

/// A token found by its digest, with its account, and its scopes by place.
#[derive(Debug, Drop)]
pub struct TokenRows {
    pub token: TokenRow,
    pub scopes: Vec<Scope>,
}

/// All tokens by id, and all scopes by token and place.
#[derive(Debug, Drop)]
pub struct TokenLists {
    pub tokens: Vec<Token>,
    pub scopes: Vec<Scope>,
}

/// Revokes a token.
#[tactic(auto, using(crate::proofs::Withins::refused_fails, crate::proofs::Withins::touch_within))]
pub fn end<S: Alter>(conn: &mut Connection<S>, id: u32) -> Result<()>
    requires { IsReady (state S.Store conn.old) }
    ensures stands { Done S.Store conn.new result
        (Ends id (rows_in S.Store conn.old) (rows_in S.Store conn.new)) }
    ensures leaves { Steps S.Store conn.old conn.new result }
{
    tokens::revoke(conn, id)?;
    Ok(())
}

fn add_row<S: Alter>(
    conn: &mut Connection<S>,
    digest: &Digest,
    account: u32,
    endpoints: &Endpoints,
) -> Result<u32>
    requires { IsReady (state S.Store conn.old) }
    ensures stands { Told S.Store conn.new result
        (AddsToken digest.now account endpoints.now []
        (rows_in S.Store conn.old) (rows_in S.Store conn.new)) }
    ensures leaves { Steps S.Store conn.old conn.new result }
{
    let last = tokens::last_id(conn)?;
    let id = next_id(last)?;
    tokens::insert(conn, id, digest, account, endpoints)?;
    Ok(id)
}

// The place of a pattern; 32 bits hold every possible one.
fn place_of(index: usize) -> Result<u32>
    ensures { IfOk result (λ place. place ≡ index) }
{
    match u32::try_from(index) {
        Ok(place) => Ok(place),
        Err(_) => Err(Error::InvalidQuery),
    }
}

fn add_scope<S: Alter>(
    alloc: Global,
    conn: &mut Connection<S>,
    token: u32,
    place: u32,
    pattern: &Pattern,
) -> Result<()>
    requires { IsReady (state S.Store conn.old) }
    ensures added { Done S.Store conn.new result
        (AddsColumns scopes_tree (scope_of token (place, pattern.now))
        (state S.Store conn.old) (state S.Store conn.new)) }
    ensures leaves { Steps S.Store conn.old conn.new result }
{
    let range = compile(alloc, pattern)?;
    scopes::insert(
        conn,
        token,
        place,
        pattern.as_str(),
        &range.low,
        &range.high,
    )?;
    Ok(())
}

#[tactic(auto, using(crate::proofs::Withins::itself_within))]
fn add_scopes<S: Alter>(
    alloc: Global,
    conn: &mut Connection<S>,
    token: u32,
    patterns: &[Pattern],
) -> Result<()>
    requires { IsReady (state S.Store conn.old) }
    ensures given { Done S.Store conn.new result
        (GivesPatterns token patterns.now (rows_in S.Store conn.old) (rows_in S.Store conn.new)) }
    ensures leaves { Steps S.Store conn.old conn.new result }
{
    for (index, pattern) in patterns.iter().enumerate() {
        let place = place_of(index)?;
        add_scope(alloc, conn, token, place, pattern)?;
    }
    Ok(())
}

/// Adds a live token and returns its id.
pub fn add<S: Alter>(
    alloc: Global,
    conn: &mut Connection<S>,
    digest: &Digest,
    account: u32,
    endpoints: &Endpoints,
    patterns: &[Pattern],
) -> Result<u32>
    requires { IsReady (state S.Store conn.old) }
    ensures stands { Told S.Store conn.new result
        (AddsToken digest.now account endpoints.now patterns.now
        (rows_in S.Store conn.old) (rows_in S.Store conn.new)) }
    ensures leaves { Steps S.Store conn.old conn.new result }
{
    let id = add_row(conn, digest, account, endpoints)?;
    add_scopes(alloc, conn, id, patterns)?;
    Ok(id)
}

fn find_row<S: Alter>(conn: &mut Connection<S>, digest: &Digest) -> Result<Option<TokenRow>>
    requires { IsReady (state S.Store conn.old) }
    ensures found { Told S.Store conn.new result
        (FindsTokenRow digest.now (rows_in S.Store conn.old)) }
    ensures same { KeepsAll S.Store conn.old conn.new result }
{
    tokens::by_digest(conn, digest)
}

/// The token with this digest, with its account and its scopes.
pub fn find<S: Alter>(
    alloc: Global,
    conn: &mut Connection<S>,
    digest: &Digest,
) -> Result<Option<TokenRows>>
    requires { IsReady (state S.Store conn.old) }
    ensures found { Told S.Store conn.new result
        (FindsToken digest.now (rows_in S.Store conn.old)) }
    ensures same { KeepsAll S.Store conn.old conn.new result }
{
    match find_row(conn, digest)? {
        None => Ok(None),
        Some(token) => {
            let scopes = scopes::of_token(alloc, conn, token.id)?;
            Ok(Some(TokenRows { token, scopes }))
        }
    }
}

// Whether the token is live, if there is one.
fn live_of(token: Option<Token>) -> Option<bool>
    ensures { result ≡ option_map (λ t. t.live) token }
{
    match token {
        Some(token) => Some(token.live),
        None => None,
    }
}

/// Whether a token is live, if there is one with this id.
pub fn is_live<S: Alter>(conn: &mut Connection<S>, id: u32) -> Result<Option<bool>>
    requires { IsReady (state S.Store conn.old) }
    ensures told { Told S.Store conn.new result (TellsLive id (rows_in S.Store conn.old)) }
    ensures same { KeepsAll S.Store conn.old conn.new result }
{
    let found = tokens::by_id(conn, id)?;
    Ok(live_of(found))
}

/// All tokens by id, and all scopes by token and place.
pub fn list_both<S: Alter>(alloc: Global, conn: &mut Connection<S>) -> Result<TokenLists>
    requires { IsReady (state S.Store conn.old) }
    ensures tokens { Told S.Store conn.new result
        (λ both. ListsTokens (rows_in S.Store conn.old) both.tokens.items) }
    ensures scopes { Told S.Store conn.new result
        (λ both. ListsScopes (rows_in S.Store conn.old) both.scopes.items) }
    ensures same { KeepsAll S.Store conn.old conn.new result }
{
    let tokens = tokens::all(alloc, conn)?;
    let scopes = scopes::all(alloc, conn)?;
    Ok(TokenLists { tokens, scopes })
}
