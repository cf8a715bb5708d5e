//! The answer to a request.

use crate::head::{Kind, Methods};
use reg_policy::Rule;

/// The answer to a request.
#[derive(Drop)]
pub enum Reply {
    /// It is served or done: the body's kind, and the body.
    Done(Kind, Vec<u8>),
    /// It breaks this rule.
    Denied(Rule),
    /// Its route lacks this method, but has these.
    Method(Methods),
}
