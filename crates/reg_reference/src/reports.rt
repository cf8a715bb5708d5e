//! The administrator's reports on the registry over vectors.

ghost use Rattle.std.specs.Prelude.{◌≡◌, ◌≤◌, ◌+◌, if◌then◌else◌, [], IfOk, length, map, string_bytes, unwrap_or};
ghost use Rattle.std.specs.Option.{option_map};
ghost use Rattle.std.specs.List.{enumerate_from, filter, flat_map};
ghost use Rattle.std.specs.FinSet as set;
ghost use Rattle.reg_model.specs.Events.Command.{Access as to_access, Users as to_users, Tokens as to_tokens, Crates as to_crates};
ghost use Rattle.reg_model.specs.Grants.{has_right as has_right_in, is_granted as is_granted_in, who_reads};
ghost use Rattle.reg_model.specs.Reports.{access_text, crates_text, grant_line, login_of, login_of_token, reader_line, token_line, tokens_text, user_line, users_text};
ghost use Rattle.reg_policy.specs.declared.event.AdminReply.TheVariants.{Text};
ghost use Rattle.reg_reference_lists.specs.Accounts.{account_of};
ghost use Rattle.reg_reference.specs.Plain.{Adds, Obeys, grant_lines, line_at, registry_of, told_of};
ghost use Rattle.reg_reference_lists.specs.Tokens.{token_of};

use crate::plain::{CommandReply, PlainRegistry};
use reg_model::{AdminRefusal, Endpoint};
use reg_names::{CanonText, CrateName, canon, parse_name};
use reg_policy::{
    AdminReply, ENDPOINTS, has_endpoint, is_covered, push_crate_line, push_grant_line,
    push_reader_line, push_token_line, push_user_line,
};
use reg_reference_lists::{Owners, PlainAccount, PlainToken, Publication};
use std::alloc::AllocError;

fn reply_with(report: Result<String, AllocError>) -> CommandReply
    ensures { result ≡ told_of Text report }
{
    match report {
        Ok(text) => Ok(AdminReply::Text(text)),
        Err(_) => Err(AdminRefusal::G10),
    }
}

fn push_user(report: &mut String, id: u32, account: &PlainAccount) -> Result<(), AllocError>
    ensures { Adds (user_line (id, account_of account.now)) report.old report.new result }
{
    let name = match &account.name {
        Some(name) => Some(name.as_str()),
        None => None,
    };
    push_user_line(report, id, account.login.as_str(), name, account.enabled)
}

/// A line for each account, after so many others.
fn push_users(report: &mut String, before: u32, accounts: &[PlainAccount]) -> Result<(), AllocError>
    requires { before + length accounts.now ≤ 4294967295 }
    ensures { Adds (flat_map user_line (enumerate_from (before + 1) (map account_of accounts.now)))
        report.old report.new result }
{
    match accounts {
        [] => Ok(()),
        [account, more @ ..] => {
            push_user(report, before + 1, account)?;
            push_users(report, before + 1, more)
        }
    }
}

/// A line for the account, if it reads the crate.
fn push_if_reader(
    report: &mut String,
    id: u32,
    account: &PlainAccount,
    readers: &Owners,
    crate_text: &CanonText,
) -> Result<(), AllocError>
    ensures { Adds (if set.contains readers.now (crate_text.now, id)
        then reader_line account.now.login else []) report.old report.new result }
{
    if readers.contains(crate_text, id) {
        push_reader_line(report, account.login.as_str())
    } else {
        Ok(())
    }
}

/// A line for each account that reads the crate, after so many others.
fn push_readers(
    report: &mut String,
    before: u32,
    accounts: &[PlainAccount],
    readers: &Owners,
    crate_text: &CanonText,
) -> Result<(), AllocError>
    requires { before + length accounts.now ≤ 4294967295 }
    ensures { Adds (flat_map (λ r. reader_line r.1.login)
        (filter (λ o. set.contains readers.now (crate_text.now, o.0))
        (enumerate_from (before + 1) (map account_of accounts.now))))
        report.old report.new result }
{
    match accounts.split_first() {
        None => Ok(()),
        Some((account, more)) => {
            push_if_reader(report, before + 1, account, readers, crate_text)?;
            push_readers(report, before + 1, more, readers, crate_text)
        }
    }
}

/// The name, or an empty text.
pub(crate) fn spelling_of(first: Option<&CrateName>) -> &str
    ensures { result.now ≡ unwrap_or (option_map (λ n. n.now) first.entry) [] }
{
    match first {
        Some(name) => name.as_str(),
        None => "",
    }
}

/// The version of a publication, or an empty text.
pub(crate) fn version_of(top: Option<&Publication>) -> &str
    ensures { result.now ≡ unwrap_or (option_map (λ p. string_bytes p.now.version) top.entry) [] }
{
    match top {
        Some(publication) => publication.version.as_str(),
        None => "",
    }
}

impl PlainRegistry {
    /// Whether an account has the right that an endpoint is for.
    fn has_right(&self, name: &CrateName, account: u32, endpoint: Endpoint) -> bool
        ensures { result ≡ has_right_in (registry_of self.now) name.now account endpoint }
    {
        match endpoint {
            Endpoint::PublishNew => !self.publications.exists(name) && !self.is_reserved(name),
            Endpoint::PublishUpdate => self.is_owner(name, account),
            Endpoint::Yank => self.is_owner(name, account),
            Endpoint::ChangeOwners => self.is_owner(name, account),
        }
    }

    /// Whether a token may use an endpoint on a crate.
    fn is_granted(&self, name: &CrateName, token: &PlainToken, endpoint: Endpoint) -> bool
        ensures { result ≡ is_granted_in (registry_of self.now) name.now (token_of token.now)
            endpoint }
    {
        token.live
            && self.accounts.is_enabled(token.account)
            && has_endpoint(&token.endpoints, endpoint)
            && is_covered(token.patterns.as_slice(), name)
            && self.has_right(name, token.account, endpoint)
    }

    /// The login of a token's account.
    fn login_of_token(&self, id: u32) -> &str
        ensures { result.now ≡ login_of_token (registry_of self.now) id }
    {
        match self.tokens.get(id) {
            Some(token) => self.accounts.login(token.account),
            None => "",
        }
    }

    /// A line for each token, after so many others.
    fn push_tokens(
        &self,
        report: &mut String,
        before: u32,
        tokens: &[PlainToken],
    ) -> Result<(), AllocError>
        requires { before + length tokens.now ≤ 4294967295 }
        ensures { Adds (flat_map (λ t. token_line (login_of (registry_of self.now) t.1.account) t)
            (enumerate_from (before + 1) (map token_of tokens.now))) report.old report.new result }
    {
        match tokens {
            [] => Ok(()),
            [token, more @ ..] => {
                let login = self.accounts.login(token.account);
                let patterns = token.patterns.as_slice();
                push_token_line(
                    report,
                    before + 1,
                    login,
                    token.live,
                    &token.endpoints,
                    patterns,
                )?;
                self.push_tokens(report, before + 1, more)
            }
        }
    }

    /// A line for each of the endpoints that the token may use on the crate.
    fn push_granted(
        &self,
        report: &mut String,
        id: u32,
        token: &PlainToken,
        name: &CrateName,
        endpoints: &[Endpoint],
    ) -> Result<(), AllocError>
        ensures { Adds (flat_map
            (λ e. grant_line (id, e) (login_of_token (registry_of self.now) id))
            (filter (is_granted_in (registry_of self.now) name.now (token_of token.now))
            endpoints.now)) report.old report.new result }
    {
        match endpoints {
            [] => Ok(()),
            [endpoint, more @ ..] => {
                if self.is_granted(name, token, *endpoint) {
                    push_grant_line(report, id, *endpoint, self.login_of_token(id))?;
                }
                self.push_granted(report, id, token, name, more)
            }
        }
    }

    /// The lines of each token, after so many others.
    fn push_grants(
        &self,
        report: &mut String,
        before: u32,
        tokens: &[PlainToken],
        name: &CrateName,
    ) -> Result<(), AllocError>
        requires { before + length tokens.now ≤ 4294967295 }
        ensures { Adds (flat_map (grant_lines (registry_of self.now) name.now)
            (enumerate_from (before + 1) (map token_of tokens.now))) report.old report.new result }
    {
        match tokens.split_first() {
            None => Ok(()),
            Some((token, more)) => {
                self.push_granted(report, before + 1, token, name, &ENDPOINTS)?;
                self.push_grants(report, before + 1, more, name)
            }
        }
    }

    /// A line for each reader of the crate, if it is restricted.
    fn push_who_reads(&self, report: &mut String, name: &CrateName) -> Result<(), AllocError>
        ensures { Adds (flat_map (λ r. reader_line r.1.login)
            (who_reads (registry_of self.now) name.now)) report.old report.new result }
    {
        let crate_text = canon(name);
        if self.restricted.contains(&crate_text) {
            push_readers(
                report,
                0,
                self.accounts.as_slice(),
                &self.readers,
                &crate_text,
            )
        } else {
            Ok(())
        }
    }

    fn push_crate(&self, report: &mut String, name: &CrateName) -> Result<(), AllocError>
        ensures { Adds (line_at (registry_of self.now) name.now) report.old report.new result }
    {
        let versions = self.publications.versions(self.alloc, name)?;
        let top = self.publications.top(self.alloc, name, &self.yanked)?;
        let spelling = spelling_of(self.publications.first(name));
        push_crate_line(report, spelling, versions.len(), version_of(top))
    }

    fn push_crates(&self, report: &mut String, names: &[&CrateName]) -> Result<(), AllocError>
        ensures { Adds (flat_map (λ n. line_at (registry_of self.now) n.now) names.now)
            report.old report.new result }
    {
        match names {
            [] => Ok(()),
            [name, more @ ..] => {
                self.push_crate(report, name)?;
                self.push_crates(report, more)
            }
        }
    }

    fn users_report(&self) -> Result<String, AllocError>
        ensures { IfOk result (λ t. string_bytes t ≡ users_text (registry_of self.now)) }
    {
        let mut report = String::new(self.alloc);
        push_users(&mut report, 0, self.accounts.as_slice())?;
        Ok(report)
    }

    fn tokens_report(&self) -> Result<String, AllocError>
        ensures { IfOk result (λ t. string_bytes t ≡ tokens_text (registry_of self.now)) }
    {
        let mut report = String::new(self.alloc);
        self.push_tokens(&mut report, 0, self.tokens.as_slice())?;
        Ok(report)
    }

    fn crates_report(&self) -> Result<String, AllocError>
        ensures { IfOk result (λ t. string_bytes t ≡ crates_text (registry_of self.now)) }
    {
        let names = self.publications.names(self.alloc)?;
        let mut report = String::new(self.alloc);
        self.push_crates(&mut report, names.as_slice())?;
        Ok(report)
    }

    fn access_report(&self, name: &CrateName) -> Result<String, AllocError>
        ensures { IfOk result (λ t. string_bytes t ≡ access_text (registry_of self.now) name.now) }
    {
        let mut report = String::new(self.alloc);
        self.push_grants(&mut report, 0, self.tokens.as_slice(), name)?;
        self.push_who_reads(&mut report, name)?;
        Ok(report)
    }

    /// Who may act on a crate, and who reads it.
    pub(crate) fn access(&self, name: &str) -> CommandReply
        ensures { Obeys self.now self.now (to_access name.now) result }
    {
        match parse_name(name) {
            Some(name) => reply_with(self.access_report(&name)),
            None => Err(AdminRefusal::G4),
        }
    }

    /// All accounts.
    pub(crate) fn users(&self) -> CommandReply
        ensures { Obeys self.now self.now to_users result }
    {
        reply_with(self.users_report())
    }

    /// All tokens.
    pub(crate) fn tokens(&self) -> CommandReply
        ensures { Obeys self.now self.now to_tokens result }
    {
        reply_with(self.tokens_report())
    }

    /// All crates.
    pub(crate) fn crates(&self) -> CommandReply
        ensures { Obeys self.now self.now to_crates result }
    {
        reply_with(self.crates_report())
    }
}
