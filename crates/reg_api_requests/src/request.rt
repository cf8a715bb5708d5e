//! A request as its route gives it.

use std::borrow::{CowSlice, CowStr};

/// What a request calls for. Paths, crates and versions are decoded bytes, possibly not UTF-8;
/// bodies are as they were sent.
#[derive(Drop)]
pub enum ApiCall<'a> {
    Config,
    /// An index path.
    Index(CowSlice<'a, u8>),
    /// A crate and a version.
    Download(CowSlice<'a, u8>, CowSlice<'a, u8>),
    Yank(CowSlice<'a, u8>, CowSlice<'a, u8>),
    Unyank(CowSlice<'a, u8>, CowSlice<'a, u8>),
    ListOwners(CowSlice<'a, u8>),
    /// A publish body.
    Publish(&'a [u8]),
    /// A crate and a body that names logins.
    AddOwners(CowSlice<'a, u8>, &'a [u8]),
    RemoveOwners(CowSlice<'a, u8>, &'a [u8]),
    /// The first `q` and the first `per_page` of a query, decoded.
    Search {
        q: Option<CowStr<'a>>,
        per_page: Option<CowStr<'a>>,
    },
}

/// A request: its token, if exactly one was shown, and what it calls for.
#[derive(Drop)]
pub struct ApiRequest<'a> {
    pub token: Option<&'a [u8]>,
    pub call: ApiCall<'a>,
}
