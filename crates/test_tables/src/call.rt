//! The calls of a transaction.

use reg_line::Digest;
use reg_model::Endpoints;
use reg_names::{CanonText, CrateName, Pattern};
use reg_tables::NewVersion;

/// A call on accounts, or on how much there is.
#[derive(Clone, Copy)]
pub enum AccountCall<'a> {
    Add(&'a str, Option<&'a str>),
    Enable(u32, bool),
    ByLogin(&'a str),
    All,
    Counts,
    ReachesCrates(u64),
}

/// A token that is added.
#[derive(Drop)]
pub struct NewToken {
    pub digest: Digest,
    pub account: u32,
    pub endpoints: Endpoints,
    pub patterns: Vec<Pattern>,
}

/// A call on tokens.
#[derive(Drop)]
pub enum TokenCall {
    Add(NewToken),
    Revoke(u32),
    Find(Digest),
    All,
}

/// A version that is added.
#[derive(Drop)]
pub struct Release<'a> {
    pub text: &'a str,
    pub description: Option<&'a str>,
    pub stem: Vec<u8>,
    pub digest: Digest,
    pub archive: &'a [u8],
}

impl Release<'_> {
    /// As the tables take it.
    pub fn new_version(&self) -> NewVersion<'_> {
        NewVersion {
            text: self.text,
            description: self.description,
            stem: self.stem.as_slice(),
            digest: &self.digest,
            archive: self.archive,
        }
    }
}

/// A call on crates and their versions.
#[derive(Drop)]
pub enum CrateCall<'a> {
    Add(CrateName, u32, Release<'a>),
    AddVersion(u32, Release<'a>),
    Yank(u32, &'a str, bool),
    All,
    Versions(u32),
    Summary(u32),
    Archive(u32, &'a str),
    ArchiveWithId(u64),
}

/// A call on who reads a crate, and on whether it is restricted.
#[derive(Clone, Copy)]
pub enum ReaderCall {
    Restrict(u32, bool),
    IsRestricted(u32),
    Add(u32, u32),
    Remove(u32, u32),
    All(u32),
}

/// A call on names and on owners.
#[derive(Drop)]
pub enum NameCall {
    Crate(CanonText),
    Reserve(CanonText),
    Unreserve(CanonText),
    IsReserved(CanonText),
    AddOwner(u32, u32),
    RemoveOwner(u32, u32),
    Owners(u32),
}

/// A call that reads by a text, or all rows.
#[derive(Clone, Copy)]
pub enum TextCall<'a> {
    AllRows,
    Logins,
    IdOf(&'a str),
}

/// A call of a transaction.
#[derive(Drop)]
pub enum Call<'a> {
    Account(AccountCall<'a>),
    Token(TokenCall),
    Crate(CrateCall<'a>),
    Name(NameCall),
    Reader(ReaderCall),
    Text(TextCall<'a>),
}
