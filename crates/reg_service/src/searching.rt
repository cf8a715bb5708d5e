//! Searches: the tables are read after the request is decided.

ghost use Rattle.std.specs.Prelude.{◌≡◌, ◌++◌, ◌∷◌, [], IfOk, OnOk};
ghost use Rattle.reg_policy.specs.Events.{asked_of};
ghost use Rattle.reg_api_replies.specs.Bodies.{found_body as found_text};
ghost use Rattle.reg_search.specs.Rows.{found_of, hit_of};
ghost use Rattle.reg_tables.specs.Works.{IsLeft, shown};
ghost use Rattle.sqlite.specs.State.{HasCleanDisk};
ghost use Rattle.reg_service.specs.Answered.{AreUpToDate, StandsIn};
ghost use Rattle.reg_service.specs.Handled.{ListsFound, Sought};

use reg_api_replies::{FoundBody, Kind, Reply};
use reg_policy::{Asked, Reading, Rule};
use reg_search::{Found, Hit, search};
use reg_tables::Tables;
use sqlite::Alter;
use std::alloc::{AllocError, Global};

fn push_hit(body: &mut FoundBody, hit: &Hit) -> Result<(), AllocError>
    ensures { OnOk result (body.new ≡ body.old ++ hit_of hit.now ∷ []) }
{
    let description = match &hit.description {
        Some(text) => Some(text.as_str()),
        None => None,
    };
    body.push(hit.name.as_str(), hit.max_version.as_str(), description)
}

/// What is found, as the body of a reply.
fn found_body(alloc: Global, found: &Found) -> Result<Vec<u8>, AllocError>
    ensures { IfOk result (λ v. v.items ≡ found_text (found_of found.now)) }
{
    let mut body = FoundBody::new(alloc);
    for hit in &found.crates {
        push_hit(&mut body, hit)?;
    }
    body.finish(found.total)
}

fn found_reply(alloc: Global, found: &Found) -> Reply
    ensures { ListsFound (found_of found.now) result }
{
    match found_body(alloc, found) {
        Ok(body) => Reply::Done(Kind::Json, body),
        Err(_) => Reply::Denied(Rule::S1),
    }
}

/// The crates that an account finds.
pub(crate) fn search_reply<S: Alter>(
    alloc: Global,
    tables: &mut Tables<S>,
    account: u32,
    asked: &Asked<'_>,
) -> Reply
    requires { AreUpToDate S.Store tables.old }
    ensures sought { HasCleanDisk (shown S.Store tables.new) → (s : _)
        → StandsIn s (shown S.Store tables.old) → Sought account (asked_of asked.now) s result }
    ensures left { IsLeft S.Store tables.old tables.new }
{
    let Asked::Read(Reading::Search(q, most)) = asked else {
        return Reply::Denied(Rule::S1);
    };
    match search(alloc, tables, account, q, *most) {
        Ok(found) => found_reply(alloc, &found),
        Err(_) => Reply::Denied(Rule::S1),
    }
}
