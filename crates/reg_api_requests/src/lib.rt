//! What a request asks for, from the request alone: no table and no state is looked at.
//!
//! A router hands over an `ApiRequest`: the token, and what is called for. `read_call` returns what
//! the call asks for, which owns what had to be decoded. A bad body or query is no error: what is
//! asked for is then the rule that it breaks.
//!
//! ```
//! let call = ApiCall::Search { q: Some(CowStr::Borrowed("serde")), per_page: None };
//! let request = ApiRequest { token: Some(b"abc"), call };
//! read_call(alloc, &request.call, &Limits::STANDARD)?
//!                                     // Asked::Read(Reading::Search("serde", 10))
//! digest_shown(&request)              // the SHA-256 of "abc"
//! ```
#![tactic(auto)]

mod fault;
pub mod laws;
mod owners;
mod publish;
mod reading;
mod request;
mod search;

pub use reading::{digest_shown, read_call};
pub use request::{ApiCall, ApiRequest};
