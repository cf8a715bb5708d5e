//! Calls on tokens.

ghost use Rattle.reg_tables_represent.specs.Calls.{AddsToken, Ends, FindsToken, ListsScopes, ListsTokens, TellsLive};
ghost use Rattle.reg_tables.specs.Calling.{Queries, UpdatesBy, Updates};
ghost use Rattle.reg_tables.specs.Works.{IsActive};

use crate::work::{Result, Work, call};
use reg_line::Digest;
use reg_model::Endpoints;
use reg_names::Pattern;
use reg_tables_represent::tokens::{self, TokenLists, TokenRows};
use sqlite::Alter;
use std::alloc::Global;

impl<S: Alter> Work<'_, S> {
    /// The token with this digest, with its account and its scopes.
    pub fn token_rows(&mut self, alloc: Global, digest: &Digest) -> Result<Option<TokenRows>>
        requires { IsActive S.Store self.old }
        ensures { Queries S.Store self.old self.new result (FindsToken digest.now) }
    {
        call!(self, tokens::find(alloc, &mut self.tables.conn, digest))
    }

    /// All tokens by id, and all scopes by token and place.
    pub fn all_tokens(&mut self, alloc: Global) -> Result<TokenLists>
        requires { IsActive S.Store self.old }
        ensures { Queries S.Store self.old self.new result (λ db both.
            ListsTokens db both.tokens.items × ListsScopes db both.scopes.items) }
    {
        call!(self, tokens::list_both(alloc, &mut self.tables.conn))
    }

    /// Adds a live token and returns its id.
    pub fn add_token(
        &mut self,
        alloc: Global,
        digest: &Digest,
        account: u32,
        endpoints: Endpoints,
        patterns: &[Pattern],
    ) -> Result<u32>
        requires { IsActive S.Store self.old }
        ensures { Updates S.Store self.old self.new result
            (AddsToken digest.now account endpoints patterns.now) }
    {
        call!(
            self,
            tokens::add(
                alloc,
                &mut self.tables.conn,
                digest,
                account,
                &endpoints,
                patterns
            )
        )
    }

    /// Whether a token is live, if there is one with this id.
    pub fn is_live(&mut self, id: u32) -> Result<Option<bool>>
        requires { IsActive S.Store self.old }
        ensures { Queries S.Store self.old self.new result (TellsLive id) }
    {
        call!(self, tokens::is_live(&mut self.tables.conn, id))
    }

    /// Revokes the token with this id. If there is none, nothing changes.
    pub fn revoke(&mut self, id: u32) -> Result<()>
        requires { IsActive S.Store self.old }
        ensures { UpdatesBy S.Store self.old self.new result (Ends id) }
    {
        call!(self, tokens::end(&mut self.tables.conn, id))
    }
}
