//! The administrator's commands on the registry over vectors.

ghost use Rattle.std.specs.Prelude.{◌≡◌, ◌==◌, ◌||◌, length, map, nat_le, nat_lt, not};
ghost use Rattle.std.specs.Option.{option_map};
ghost use Rattle.std.specs.List.{list_all};
ghost use Rattle.reg_model.specs.Events.Command.{UserAdd as to_user_add, UserDisable as to_disable, UserEnable as to_enable, TokenAdd as to_token_add, TokenRevoke as to_revoke};
ghost use Rattle.reg_model.specs.Events.Event.{Order as to_order};
ghost use Rattle.reg_model.specs.Refusals.{is_endpoint};
ghost use Rattle.reg_policy.specs.Events.{answer_of, command_of};
ghost use Rattle.reg_reference.specs.Plain.{Obeys, PlainStep, limits_of, login_found, registry_of};

use crate::plain::{CommandReply, PlainRegistry};
use crate::search::text_of;
use reg_model::AdminRefusal;
use reg_names::parse_login;
use reg_policy::{
    AdminCommand, AdminReply, Answer, are_endpoints, endpoints_named, may_name, parse_patterns,
};
use reg_reference_lists::{PlainAccount, PlainToken};

/// Whether the words name endpoints, one or more.
fn name_endpoints(words: &[&str]) -> bool
    ensures { not result ≡ (length (map (λ w. w.now) words.now) == 0 || not
        (list_all is_endpoint (map (λ w. w.now) words.now))) }
{
    !words.is_empty() && are_endpoints(words)
}

impl PlainRegistry {
    /// Does what the administrator orders, unless it is refused.
    pub(crate) fn order(&mut self, command: &AdminCommand) -> Answer
        ensures step { PlainStep (limits_of self.old) (registry_of self.old)
            (to_order (command_of command.now)) (answer_of result) (registry_of self.new) }
        ensures limits { limits_of self.new ≡ limits_of self.old }
    {
        match self.command(command) {
            Ok(reply) => Answer::Replied(reply),
            Err(refusal) => Answer::Refused(refusal),
        }
    }

    fn command(&mut self, command: &AdminCommand) -> CommandReply
        ensures { Obeys self.old self.new (command_of command.now) result }
    {
        match command {
            AdminCommand::UserAdd(login, name) => self.user_add(login, *name),
            AdminCommand::UserDisable(login) => self.user_disable(login),
            AdminCommand::UserEnable(login) => self.user_enable(login),
            AdminCommand::TokenAdd(login, words, patterns, digest) => {
                self.token_add(login, words, patterns, digest)
            }
            AdminCommand::TokenRevoke(id) => self.token_revoke(*id),
            AdminCommand::Reserve(name) => self.reserve(name),
            AdminCommand::Unreserve(name) => self.unreserve(name),
            AdminCommand::OwnerAdd(name, login) => self.owner_add(name, login),
            AdminCommand::Access(name) => self.access(name),
            AdminCommand::Users => self.users(),
            AdminCommand::Tokens => self.tokens(),
            AdminCommand::Crates => self.crates(),
            AdminCommand::CrateRestrict(name) => self.crate_restrict(name),
            AdminCommand::CrateOpen(name) => self.crate_open(name),
            AdminCommand::ReaderAdd(name, login) => self.reader_add(name, login),
            AdminCommand::ReaderRemove(name, login) => self.reader_remove(name, login),
        }
    }

    /// The id of the account with this login, or a refusal.
    pub(crate) fn known_login(&self, login: &str) -> Result<u32, AdminRefusal>
        ensures { result ≡ login_found (registry_of self.now) login.now }
    {
        match self.accounts.id_of(login) {
            Some(id) => Ok(id),
            None => Err(AdminRefusal::G3),
        }
    }

    fn user_add(&mut self, login: &str, name: Option<&str>) -> CommandReply
        ensures { Obeys self.old self.new
            (to_user_add login.now (option_map (λ n. n.now) name.entry)) result }
    {
        let Some(login) = parse_login(login) else {
            return Err(AdminRefusal::G1);
        };
        if !may_name(name) {
            return Err(AdminRefusal::G1);
        }
        if self.accounts.id_of(login.as_str()).is_some() {
            return Err(AdminRefusal::G2);
        }
        if self.limits.accounts <= self.accounts.len() as u64 {
            return Err(AdminRefusal::G7);
        }
        let Ok(name) = text_of(self.alloc, name) else {
            return Err(AdminRefusal::G10);
        };
        let account = PlainAccount {
            login,
            name,
            enabled: true,
        };
        match self.accounts.add(account) {
            Ok(()) => Ok(AdminReply::Done),
            Err(_) => Err(AdminRefusal::G10),
        }
    }

    fn user_disable(&mut self, login: &str) -> CommandReply
        ensures { Obeys self.old self.new (to_disable login.now) result }
    {
        let id = self.known_login(login)?;
        self.accounts.enable(id, false);
        Ok(AdminReply::Done)
    }

    fn user_enable(&mut self, login: &str) -> CommandReply
        ensures { Obeys self.old self.new (to_enable login.now) result }
    {
        let id = self.known_login(login)?;
        self.accounts.enable(id, true);
        Ok(AdminReply::Done)
    }

    /// Whether a token with so many patterns exceeds the limit of tokens or of patterns.
    fn is_full_for(&self, patterns: usize) -> bool
        ensures { result ≡ (nat_lt (limits_of self.now).patterns patterns || nat_le
            (limits_of self.now).tokens (length (registry_of self.now).tokens)) }
    {
        (self.limits.patterns as usize) < patterns || self.limits.tokens <= self.tokens.len() as u64
    }

    fn token_add(
        &mut self,
        login: &str,
        words: &[&str],
        patterns: &[&str],
        digest: &[u8; 32],
    ) -> CommandReply
        ensures { Obeys self.old self.new (to_token_add login.now (map (λ w. w.now) words.now)
            (map (λ p. p.now) patterns.now) digest.now) result }
    {
        let account = self.known_login(login)?;
        if !name_endpoints(words) {
            return Err(AdminRefusal::G9);
        }
        let Ok(patterns) = parse_patterns(self.alloc, patterns) else {
            return Err(AdminRefusal::G10);
        };
        let Some(patterns) = patterns else {
            return Err(AdminRefusal::G4);
        };
        if self.is_full_for(patterns.len()) {
            return Err(AdminRefusal::G7);
        }
        if self.tokens.find(digest).is_some() {
            return Err(AdminRefusal::G5);
        }
        let token = PlainToken {
            digest: *digest,
            account,
            live: true,
            endpoints: endpoints_named(words),
            patterns,
        };
        match self.tokens.add(token) {
            Ok(id) => Ok(AdminReply::Id(id)),
            Err(_) => Err(AdminRefusal::G10),
        }
    }

    fn token_revoke(&mut self, id: u32) -> CommandReply
        ensures { Obeys self.old self.new (to_revoke id) result }
    {
        if !self.tokens.has(id) {
            return Err(AdminRefusal::G6);
        }
        self.tokens.revoke(id);
        Ok(AdminReply::Done)
    }
}
