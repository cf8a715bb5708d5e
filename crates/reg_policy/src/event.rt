//! What is asked of a registry, and what it answers.

ghost use Rattle.std.specs.Prelude.{◌≡◌};
ghost use Rattle.reg_model.specs.Events.{action_of as action_asked};
ghost use Rattle.reg_policy.specs.Events.{asked_of};
ghost use Rattle.reg_policy.specs.Views.{action_of as view_of};

use crate::action::Action;
use reg_model::{AdminRefusal, Rule};
use reg_names::{CrateName, Login};

/// What a request reads besides index files, archives and owners.
#[derive(Drop)]
pub enum Reading<'a> {
    /// The config of the registry.
    Config,
    /// The crates whose names contain a text, at most so many.
    Search(&'a str, u32),
}

/// A version that is published: its digest is the SHA-256 of the archive, its stem the index line
/// up to the yanked mark. The archive stays a part of the body.
#[derive(Drop)]
pub struct NewPublication<'a> {
    pub name: CrateName,
    pub version: String,
    pub description: Option<String>,
    pub stem: Vec<u8>,
    pub digest: [u8; 32],
    pub archive: &'a [u8],
}

/// What a request asks for, with what was decoded of its body. Crates and versions are as written
/// in a path.
#[derive(Drop)]
pub enum Asked<'a> {
    /// The body or the query breaks this rule, and none before it.
    Malformed(Rule),
    Read(Reading<'a>),
    Index(&'a str),
    Download(&'a str, &'a str),
    ListOwners(&'a str),
    Publish(NewPublication<'a>),
    Yank(&'a str, &'a str),
    Unyank(&'a str, &'a str),
    AddOwners(&'a str, Vec<String>),
    RemoveOwners(&'a str, Vec<String>),
}

/// A command of the administrator.
#[derive(Drop)]
pub enum AdminCommand<'a> {
    /// A login, and a name if there is one.
    UserAdd(&'a str, Option<&'a str>),
    UserDisable(&'a str),
    UserEnable(&'a str),
    /// A login, words for endpoints, patterns, and the digest of the token's text.
    TokenAdd(&'a str, &'a [&'a str], &'a [&'a str], &'a [u8; 32]),
    TokenRevoke(u32),
    Reserve(&'a str),
    Unreserve(&'a str),
    /// A crate and a login.
    OwnerAdd(&'a str, &'a str),
    /// Reports who may act on a crate, and who reads it.
    Access(&'a str),
    /// Reports all accounts.
    Users,
    /// Reports all tokens.
    Tokens,
    /// Reports all crates.
    Crates,
    /// Lets only the owners and readers see a crate.
    CrateRestrict(&'a str),
    /// Lets everyone see it.
    CrateOpen(&'a str),
    /// A crate and a login.
    ReaderAdd(&'a str, &'a str),
    ReaderRemove(&'a str, &'a str),
}

/// A request or a command.
#[derive(Drop)]
pub enum Event<'a> {
    /// The digest of the token, if exactly one was shown, and what is asked for.
    Ask(Option<&'a [u8; 32]>, Asked<'a>),
    Order(AdminCommand<'a>),
}

/// An owner, as owner lists show it.
#[derive(Drop)]
pub struct OwnerEntry {
    pub id: u32,
    pub login: Login,
    pub name: Option<String>,
}

/// The reply to a command that was done.
#[derive(Drop)]
pub enum AdminReply {
    Done,
    /// The id of what was added.
    Id(u32),
    /// A report.
    Text(String),
}

/// The answer to an event.
#[derive(Drop)]
pub enum Answer {
    Denied(Rule),
    /// The request is granted, and nothing is served.
    Granted,
    /// An index file.
    File(Vec<u8>),
    Archive(Vec<u8>),
    /// A crate's owners, by id.
    Owners(Vec<OwnerEntry>),
    Refused(AdminRefusal),
    Replied(AdminReply),
}

/// The action that is asked for: all that the rules on the state look at.
pub fn action_of<'a>(asked: &'a Asked<'_>) -> Action<'a>
    ensures { view_of result ≡ action_asked (asked_of asked.now) }
{
    match asked {
        Asked::Malformed(_) => Action::Read,
        Asked::Read(_) => Action::Read,
        Asked::Index(path) => Action::Index(path),
        Asked::Download(name, version) => Action::Download(name, version),
        Asked::ListOwners(name) => Action::ListOwners(name),
        Asked::Publish(new) => Action::Publish(&new.name, new.version.as_str()),
        Asked::Yank(name, version) => Action::Yank(name, version),
        Asked::Unyank(name, version) => Action::Unyank(name, version),
        Asked::AddOwners(name, logins) => Action::AddOwners(name, logins.as_slice()),
        Asked::RemoveOwners(name, logins) => Action::RemoveOwners(name, logins.as_slice()),
    }
}
