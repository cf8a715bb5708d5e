//! The rows of the registry over vectors, about one caller and one crate.

ghost use Rattle.std.specs.Prelude.{◌≡◌, IfOk, map};
ghost use Rattle.std.specs.Option.{option_map};
ghost use Rattle.reg_model.specs.Facts.{lists, spelling};
ghost use Rattle.reg_model.specs.Refusals.{judged};
ghost use Rattle.reg_model.specs.Crates.{is_reserved as is_reserved_in, is_restricted as is_restricted_in, versions as versions_in};
ghost use Rattle.reg_model.specs.Registry.{holds, is_enabled as is_enabled_in};
ghost use Rattle.reg_policy.specs.Rows.{id_and_login, row_view};
ghost use Rattle.reg_reference.specs.Plain.{owners_at, readers_at, registry_of};
ghost use Rattle.reg_policy.specs.Rows.{patterns_held, row_of};
ghost use Rattle.reg_reference_lists.specs.Tokens.{token_of};
ghost use Rattle.reg_policy.specs.Views.{action_of, decision_of};

use crate::plain::PlainRegistry;
use reg_names::{CrateName, Pattern, canon};
use reg_policy::{Action, Decision, OwnerRow, Rows, TokenFacts, crate_of, decide, logins_of};
use reg_reference_lists::PlainToken;
use std::alloc::AllocError;

/// What the rows show of a token.
fn token_facts(token: Option<&PlainToken>) -> Option<TokenFacts>
    ensures { result ≡ option_map row_of (option_map (λ t. token_of t.now) token.entry) }
{
    match token {
        Some(token) => Some(TokenFacts {
            account: token.account,
            live: token.live,
            endpoints: token.endpoints,
        }),
        None => None,
    }
}

/// The patterns of a token; none if it is unknown.
fn patterns_of<'a>(token: Option<&'a PlainToken>) -> &'a [Pattern]
    ensures { result.now ≡ patterns_held (option_map (λ t. token_of t.now) token.entry) }
{
    match token {
        Some(token) => token.patterns.as_slice(),
        None => &[],
    }
}

impl PlainRegistry {
    fn is_caller_enabled(&self, token: Option<&PlainToken>) -> bool
        ensures { result ≡ holds (λ t. is_enabled_in (registry_of self.now) t.account)
            (option_map (λ t. token_of t.now) token.entry) }
    {
        match token {
            Some(token) => self.accounts.is_enabled(token.account),
            None => false,
        }
    }

    fn first_of(&self, name: &Option<CrateName>) -> Option<&CrateName>
        ensures { option_map (λ n. n.now) result ≡ spelling (registry_of self.now) name.now }
    {
        match name {
            Some(name) => self.publications.first(name),
            None => None,
        }
    }

    fn owner_rows_of(&self, name: &Option<CrateName>) -> Result<Vec<OwnerRow>, AllocError>
        ensures { IfOk result (λ v. map row_view v.items ≡ map id_and_login
            (owners_at self.now name.now)) }
    {
        match name {
            Some(name) => self
                .accounts
                .owner_rows(self.alloc, &self.owners, &canon(name)),
            None => Ok(Vec::new(self.alloc)),
        }
    }

    fn versions_of(&self, name: &Option<CrateName>) -> Result<Vec<&str>, AllocError>
        ensures { IfOk result (λ v. map (λ t. t.now) v.items ≡ map (λ p. p.version)
            (lists (versions_in (registry_of self.now)) name.now)) }
    {
        match name {
            Some(name) => self.publications.versions(self.alloc, name),
            None => Ok(Vec::new(self.alloc)),
        }
    }

    fn is_crate_reserved(&self, name: &Option<CrateName>) -> bool
        ensures { result ≡ holds (is_reserved_in (registry_of self.now)) name.now }
    {
        match name {
            Some(name) => self.is_reserved(name),
            None => false,
        }
    }

    fn is_crate_restricted(&self, name: &Option<CrateName>) -> bool
        ensures { result ≡ holds (is_restricted_in (registry_of self.now)) name.now }
    {
        match name {
            Some(name) => self.restricted.contains(&canon(name)),
            None => false,
        }
    }

    fn reader_ids_of(&self, name: &Option<CrateName>) -> Result<Vec<u32>, AllocError>
        ensures { IfOk result (λ v. v.items ≡ map (λ o. o.0) (readers_at self.now name.now)) }
    {
        match name {
            Some(name) => self
                .accounts
                .reader_ids(self.alloc, &self.readers, &canon(name)),
            None => Ok(Vec::new(self.alloc)),
        }
    }

    /// The first rule on the state that the action of this token breaks.
    pub(crate) fn decision(
        &self,
        digest: &[u8; 32],
        action: &Action,
    ) -> Result<Decision, AllocError>
        ensures { IfOk result (λ d. d ≡ decision_of
            (judged self.now.limits (registry_of self.now) digest.now (action_of action.now))) }
    {
        let token = self.tokens.find(digest);
        let name = crate_of(action);
        let owners = self.owner_rows_of(&name)?;
        let versions = self.versions_of(&name)?;
        let readers = self.reader_ids_of(&name)?;
        let known = self.accounts.known(self.alloc, logins_of(action))?;
        let rows = Rows {
            token: token_facts(token),
            enabled: self.is_caller_enabled(token),
            patterns: patterns_of(token),
            first: self.first_of(&name),
            owners: owners.as_slice(),
            versions: versions.as_slice(),
            reserved: self.is_crate_reserved(&name),
            restricted: self.is_crate_restricted(&name),
            readers: readers.as_slice(),
            crates: self.publications.crates(),
            known: known.as_slice(),
            limits: &self.limits,
        };
        Ok(decide(&rows, action))
    }
}
