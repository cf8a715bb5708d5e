//! What a call is answered.

use crate::records::{Shown, bytes_text, list, one};
use reg_tables::{
    Account, AllRows, Archive, Counts, Crate, Summary, TokenLists, TokenRows, Version,
};
use sqlite::Row;
use std::alloc::{AllocError, Global};

/// The answer of a call.
#[derive(Drop)]
pub enum Answer {
    Done,
    Id(u32),
    Is(bool),
    Account(Option<Account>),
    Accounts(Vec<Account>),
    Counts(Counts),
    Token(Option<TokenRows>),
    Tokens(TokenLists),
    Crate(Option<Crate>),
    Crates(Vec<Crate>),
    Versions(Vec<Version>),
    Summary(Option<Summary>),
    Archive(Option<Vec<u8>>),
    ArchiveWithId(Option<Archive>),
    Owners(Vec<Account>),
    All(AllRows),
    Selected(Vec<Row>),
}

fn short(alloc: Global, answer: &Answer) -> Result<String, AllocError> {
    match answer {
        Answer::Id(id) => format!(in alloc; "{id}"),
        Answer::Is(is) => String::from_str(alloc, if *is { "yes" } else { "no" }),
        Answer::Counts(n) => format!(in alloc;
            "{}:{}:{}:{};",
            n.accounts, n.tokens, n.crates, n.publications
        ),
        Answer::Summary(Some(it)) => it.show(alloc),
        Answer::Archive(Some(bytes)) => bytes_text(alloc, bytes),
        Answer::Archive(None) | Answer::Summary(None) => String::from_str(alloc, "none"),
        _ => String::from_str(alloc, "done"),
    }
}

impl Answer {
    /// As a text, with each field.
    pub fn text(&self, alloc: Global) -> Result<String, AllocError> {
        match self {
            Answer::Account(found) => one(alloc, found.as_ref()),
            Answer::Accounts(found) => list(alloc, found),
            Answer::Token(found) => one(alloc, found.as_ref()),
            Answer::Tokens(found) => found.show(alloc),
            Answer::Crate(found) => one(alloc, found.as_ref()),
            Answer::Crates(found) => list(alloc, found),
            Answer::Versions(found) => list(alloc, found),
            Answer::ArchiveWithId(found) => one(alloc, found.as_ref()),
            Answer::Owners(found) => list(alloc, found),
            Answer::All(found) => found.show(alloc),
            Answer::Selected(found) => list(alloc, found),
            _ => short(alloc, self),
        }
    }
}
