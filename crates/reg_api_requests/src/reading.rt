//! Reading a request.

ghost use Rattle.std.specs.Prelude.{◌≡◌, IfOk};
ghost use Rattle.std.specs.Option.{option_map};
ghost use Rattle.std.specs.Cow.{cow_slice_items, cow_str_bytes};
ghost use Rattle.sha2.specs.Sha256.{sha256};
ghost use Rattle.reg_model.specs.declared.rule.Rule.TheVariants as rule;
ghost use Rattle.reg_policy.specs.Events.{asked_of};
ghost use Rattle.reg_api_requests.specs.Publish.{publish_of};
ghost use Rattle.reg_api_requests.specs.Requests.{asked_by, published, searched, text_in};
ghost use Rattle.reg_api_requests.specs.Views.{IsFitAsked};

use crate::fault::RequestFault;
use crate::owners::read_logins;
use crate::publish::read_publish;
use crate::request::{ApiCall, ApiRequest};
use crate::search::{or_empty, page_of};
use reg_body::Limits;
use reg_line::{Digest, digest_of};
use reg_model::Rule;
use reg_policy::{Asked, Reading};
use std::alloc::{AllocError, Global};
use std::borrow::{CowSlice, CowStr};

/// The text of a path part, empty if it is not UTF-8.
fn text<'a>(part: &'a CowSlice<'a, u8>) -> &'a str
    ensures { result.now ≡ text_in (cow_slice_items part.now) }
{
    match std::str::from_utf8(part.as_slice()) {
        Ok(text) => text,
        Err(_) => "",
    }
}

fn publish<'a>(alloc: Global, limits: &Limits, body: &'a [u8]) -> Result<Asked<'a>, AllocError>
    ensures asked { IfOk result (λ a. asked_of a ≡ published (publish_of limits.now body.now)) }
    ensures fit { IfOk result (λ a. IsFitAsked (asked_of a)) }
{
    match read_publish(alloc, limits, body) {
        Ok(release) => Ok(Asked::Publish(release)),
        Err(RequestFault::Broken(rule)) => Ok(Asked::Malformed(rule)),
        Err(RequestFault::Memory) => Err(AllocError),
    }
}

fn search<'a>(q: &'a Option<CowStr<'a>>, per_page: &Option<CowStr<'_>>) -> Asked<'a>
    ensures asked { asked_of result
        ≡ searched (option_map cow_str_bytes q.now) (option_map cow_str_bytes per_page.now) }
    ensures fit { IsFitAsked (asked_of result) }
{
    match page_of(per_page) {
        Some(most) => Asked::Read(Reading::Search(or_empty(q), most)),
        None => Asked::Malformed(Rule::Q1),
    }
}

/// What a call asks for, from the call alone. A body or a query that breaks a rule is no error
/// here: such a call asks for what that rule then answers.
pub fn read_call<'a>(
    alloc: Global,
    call: &'a ApiCall<'a>,
    limits: &Limits,
) -> Result<Asked<'a>, AllocError>
    ensures asked { IfOk result (λ a. asked_of a ≡ asked_by limits.now call.now) }
    ensures fit { IfOk result (λ a. IsFitAsked (asked_of a)) }
{
    match call {
        ApiCall::Config => Ok(Asked::Read(Reading::Config)),
        ApiCall::Index(path) => Ok(Asked::Index(text(path))),
        ApiCall::Download(name, version) => Ok(Asked::Download(text(name), text(version))),
        ApiCall::ListOwners(name) => Ok(Asked::ListOwners(text(name))),
        ApiCall::Publish(body) => publish(alloc, limits, body),
        ApiCall::Yank(name, version) => Ok(Asked::Yank(text(name), text(version))),
        ApiCall::Unyank(name, version) => Ok(Asked::Unyank(text(name), text(version))),
        ApiCall::AddOwners(name, body) => match read_logins(alloc, limits, body)? {
            Some(logins) => Ok(Asked::AddOwners(text(name), logins)),
            None => Ok(Asked::Malformed(Rule::O1)),
        },
        ApiCall::RemoveOwners(name, body) => match read_logins(alloc, limits, body)? {
            Some(logins) => Ok(Asked::RemoveOwners(text(name), logins)),
            None => Ok(Asked::Malformed(Rule::O1)),
        },
        ApiCall::Search { q, per_page } => Ok(search(q, per_page)),
    }
}

/// The digest of the token, if exactly one was shown.
pub fn digest_shown(request: &ApiRequest<'_>) -> Option<Digest>
    ensures { result ≡ option_map sha256 (option_map (λ t. t.now) request.now.token) }
{
    match request.token {
        Some(token) => Some(digest_of(token)),
        None => None,
    }
}
