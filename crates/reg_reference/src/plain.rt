//! A registry over vectors.

ghost use Rattle.std.specs.Prelude.{◌≡◌, codes};
ghost use Rattle.reg_model.specs.Registry.{empty_at};
ghost use Rattle.reg_model.specs.Crates.{is_among, is_reserved as is_reserved_in, owners as owners_in};
ghost use Rattle.reg_model.specs.Effects.{account_of};
ghost use Rattle.reg_policy.specs.Events.{answer_of, event_of};
ghost use Rattle.reg_reference.specs.Plain.{PlainStep, limits_of, registry_of};

use reg_body::Limits;
use reg_model::AdminRefusal;
use reg_names::{CrateName, canon};
use reg_policy::{AdminReply, Answer, Event, is_reserved_always};
use reg_reference_lists::{Accounts, CrateTexts, Marks, Owners, Publications, Tokens};
use std::alloc::Global;

/// What a command is answered, or why it is refused.
pub(crate) type CommandReply = std::result::Result<AdminReply, AdminRefusal>;

/// A registry over vectors, whose base is `http://127.0.0.1:8080`. It searches all that it has for
/// each answer.
#[derive(Drop)]
pub struct PlainRegistry {
    pub(crate) alloc: Global,
    pub(crate) limits: Limits,
    pub(crate) accounts: Accounts,
    pub(crate) tokens: Tokens,
    pub(crate) publications: Publications,
    pub(crate) owners: Owners,
    pub(crate) yanked: Marks,
    pub(crate) reserved: CrateTexts,
    pub(crate) restricted: CrateTexts,
    pub(crate) readers: Owners,
}

impl PlainRegistry {
    /// A registry with nothing in it.
    pub fn new(alloc: Global, limits: Limits) -> PlainRegistry
        ensures empty { registry_of result ≡ empty_at (codes "http://127.0.0.1:8080") }
        ensures limits { limits_of result ≡ limits }
    {
        PlainRegistry {
            alloc,
            limits,
            accounts: Accounts::new(alloc),
            tokens: Tokens::new(alloc),
            publications: Publications::new(alloc),
            owners: Owners::new(alloc),
            yanked: Marks::new(alloc),
            reserved: CrateTexts::new(alloc),
            restricted: CrateTexts::new(alloc),
            readers: Owners::new(alloc),
        }
    }

    /// Whether the name is reserved: always, or by the administrator.
    pub(crate) fn is_reserved(&self, name: &CrateName) -> bool
        ensures { result ≡ is_reserved_in (registry_of self.now) name.now }
    {
        let crate_text = canon(name);
        is_reserved_always(&crate_text) || self.reserved.contains(&crate_text)
    }

    /// Whether the account exists and owns the crate.
    pub(crate) fn is_owner(&self, name: &CrateName, account: u32) -> bool
        ensures { result ≡ is_among (owners_in (registry_of self.now) name.now) account }
    {
        self.accounts.is_among(&self.owners, &canon(name), account)
    }

    /// The id of the token's account; 0 if the token is unknown.
    pub(crate) fn account_of(&self, digest: &[u8; 32]) -> u32
        ensures { result ≡ account_of (registry_of self.now) digest.now }
    {
        match self.tokens.find(digest) {
            Some(token) => token.account,
            None => 0,
        }
    }

    /// Answers a request or a command, and does what it asks for unless it is refused. A request
    /// for the config or a search gets only its decision.
    pub fn step(&mut self, event: &Event) -> Answer
        ensures step { PlainStep (limits_of self.old) (registry_of self.old) (event_of event.now)
            (answer_of result) (registry_of self.new) }
        ensures limits { limits_of self.new ≡ limits_of self.old }
    {
        match event {
            Event::Ask(digest, asked) => self.ask(*digest, asked),
            Event::Order(command) => self.order(command),
        }
    }
}
