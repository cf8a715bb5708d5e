//! The table of tokens, one statement per function.

ghost use Rattle.std.specs.Prelude.{◌≡◌, ◌+◌, ◌<◌, true, IfOk};
ghost use Rattle.sqlite.specs.Held.{state};
ghost use Rattle.sqlite.specs.Order.{column};
ghost use Rattle.reg_tables_schema.specs.Changes.{Adds};
ghost use Rattle.reg_tables_schema.specs.Places.{tokens_tree};
ghost use Rattle.reg_tables_schema.specs.Rows.{sql_bool};
ghost use Rattle.reg_tables_schema.specs.States.{IsReady};
ghost use Rattle.reg_tables_schema.specs.Statements.{Writes};
ghost use Rattle.reg_tables_sql.specs.Answers.{Finds, Lists};
ghost use Rattle.reg_tables_sql.specs.Counts.{IsLastId};
ghost use Rattle.reg_tables_sql.specs.Tokens.{AreTokens, IsTokenOfDigest, IsTokenWithId, Revokes, token_row};

use crate::marks::mark_of;
use crate::statements::{Result, select_list, select_one, write};
use reg_names::Endpoints;
use sqlite::{Alter, Connection, Row, params};
use std::alloc::Global;

/// A token as stored.
#[derive(Debug, Drop)]
pub struct Token {
    pub id: u32,
    pub digest: Vec<u8>,
    pub account: u32,
    pub live: bool,
    pub endpoints: Endpoints,
}

/// A token found by its digest, and what a request needs to know about its account.
#[derive(Debug, Drop)]
pub struct TokenRow {
    pub id: u32,
    pub account: u32,
    pub live: bool,
    pub endpoints: Endpoints,
    pub login: String,
    pub enabled: bool,
}

/// The endpoints: four marks from this place on.
pub(crate) fn endpoints_of(row: &Row, at: usize) -> Result<Endpoints>
    requires { at < 9 }
    ensures publish_new { IfOk result (λ e. column row.now at ≡ sql_bool e.publish_new) }
    ensures publish_update { IfOk result (λ e. column row.now (at + 1)
        ≡ sql_bool e.publish_update) }
    ensures yank { IfOk result (λ e. column row.now (at + 2) ≡ sql_bool e.yank) }
    ensures change_owners { IfOk result (λ e. column row.now (at + 3) ≡ sql_bool e.change_owners) }
{
    Ok(Endpoints {
        publish_new: mark_of(row, at)?,
        publish_update: mark_of(row, at + 1)?,
        yank: mark_of(row, at + 2)?,
        change_owners: mark_of(row, at + 3)?,
    })
}

const INSERT_TEXT: &str =
    "INSERT INTO tokens (id, digest, account, live, publish_new, publish_update, yank, \
    change_owners) VALUES (?1, ?2, ?3, 1, ?4, ?5, ?6, ?7)";

/// Adds a live token.
pub fn insert<S: Alter>(
    conn: &mut Connection<S>,
    id: u32,
    digest: &[u8; 32],
    account: u32,
    endpoints: &Endpoints,
) -> Result<()>
    requires { IsReady (state S.Store conn.old) }
    ensures { Writes S.Store conn.old conn.new result
        (Adds tokens_tree (token_row id digest.now account true endpoints.now)) }
{
    write(
        conn,
        INSERT_TEXT,
        params![
            id,
            digest.as_slice(),
            account,
            endpoints.publish_new,
            endpoints.publish_update,
            endpoints.yank,
            endpoints.change_owners
        ],
    )
}

const REVOKE_TEXT: &str = "UPDATE tokens SET live = 0 WHERE id = ?1";

/// Revokes a token.
pub fn revoke<S: Alter>(conn: &mut Connection<S>, id: u32) -> Result<()>
    requires { IsReady (state S.Store conn.old) }
    ensures { Writes S.Store conn.old conn.new result (Revokes id) }
{
    write(conn, REVOKE_TEXT, params![id])
}

/// A token and its account, by the token's digest; the row is a `TokenRow`.
pub const BY_DIGEST_TEXT: &str = "SELECT t.id, t.account, t.live, t.publish_new, \
    t.publish_update, t.yank, t.change_owners, a.login, a.enabled FROM tokens t JOIN accounts a \
    ON a.id = t.account WHERE t.digest = ?1";

/// The token with this digest, with its account, if there is one.
pub fn by_digest<S: Alter>(conn: &mut Connection<S>, digest: &[u8; 32]) -> Result<Option<TokenRow>>
    requires { IsReady (state S.Store conn.old) }
    ensures { Finds S.Store conn.old conn.new result (IsTokenOfDigest digest.now) }
{
    select_one(conn, BY_DIGEST_TEXT, params![digest.as_slice()])
}

const BY_ID_TEXT: &str =
    "SELECT id, digest, account, live, publish_new, publish_update, yank, change_owners FROM \
    tokens WHERE id = ?1";

/// The token with this id, if there is one.
pub fn by_id<S: Alter>(conn: &mut Connection<S>, id: u32) -> Result<Option<Token>>
    requires { IsReady (state S.Store conn.old) }
    ensures { Finds S.Store conn.old conn.new result (IsTokenWithId id) }
{
    select_one(conn, BY_ID_TEXT, params![id])
}

const ALL_TEXT: &str =
    "SELECT id, digest, account, live, publish_new, publish_update, yank, change_owners FROM \
    tokens ORDER BY id";

/// All tokens, by id.
pub fn all<S: Alter>(alloc: Global, conn: &mut Connection<S>) -> Result<Vec<Token>>
    requires { IsReady (state S.Store conn.old) }
    ensures { Lists S.Store conn.old conn.new result AreTokens }
{
    let text = ALL_TEXT;
    select_list(alloc, conn, text, &[])
}

const LAST_ID_TEXT: &str = "SELECT id FROM tokens ORDER BY id DESC LIMIT 1";

/// The greatest token id, if there is one.
pub fn last_id<S: Alter>(conn: &mut Connection<S>) -> Result<Option<u32>>
    requires { IsReady (state S.Store conn.old) }
    ensures { Finds S.Store conn.old conn.new result (IsLastId tokens_tree) }
{
    select_one(conn, LAST_ID_TEXT, &[])
}
