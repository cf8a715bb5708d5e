//! Publishing versions.

ghost use Rattle.std.specs.Prelude.{◌≡◌};
ghost use Rattle.reg_model.specs.Events.Asked.{Publish};
ghost use Rattle.reg_policy.specs.Events.{publication_of};
ghost use Rattle.reg_tables_represent.specs.Calls.{published};
ghost use Rattle.reg_tables.specs.Works.{IsActive};
ghost use Rattle.reg_tables.specs.Calling.{Queries, Updates};
ghost use Rattle.reg_service_requests.specs.Granted.{GrantsTo};
ghost use Rattle.reg_service_requests.specs.Telling.{GrantsTold};
ghost use Rattle.reg_service_requests.specs.Publications.{MakesCrate, PublishesFirst, PublishesNext, TellsFull, TellsFullOf};

use crate::served::Served;
use crate::telling::tell_change;
use crate::told::TracedServed;
use reg_access::{FoundCrate, Principal};
use reg_api_replies::{Kind, Reply, publish_body};
use reg_body::Limits;
use reg_policy::{NewPublication, Rule};
use reg_tables::{NewVersion, Result, Work};
use sqlite::Alter;
use std::alloc::Global;

/// The version to give the tables.
fn version_of<'a>(new: &'a NewPublication<'_>) -> NewVersion<'a>
    ensures { published new.now.name result ≡ publication_of new.now }
{
    NewVersion {
        text: &new.version,
        description: new.description.as_deref(),
        stem: &new.stem,
        digest: &new.digest,
        archive: new.archive,
    }
}

/// Whether there are as many crates as allowed.
fn is_full<S: Alter>(work: &mut Work<'_, S>, limits: &Limits) -> Result<bool>
    requires { IsActive S.Store work.old }
    ensures { Queries S.Store work.old work.new result (TellsFull limits.now) }
{
    work.reaches_crates(limits.crates)
}

/// Whether a crate has as many versions as allowed.
fn is_full_of<S: Alter>(work: &mut Work<'_, S>, limits: &Limits, found: &FoundCrate) -> Result<bool>
    requires { IsActive S.Store work.old }
    ensures { Queries S.Store work.old work.new result (TellsFullOf limits.now found.now) }
{
    work.reaches_versions(found.id, &found.name, limits.versions)
}

/// Creates a crate with its first version and its owner.
fn make_crate<S: Alter>(
    alloc: Global,
    work: &mut Work<'_, S>,
    owner: u32,
    new: &NewPublication<'_>,
) -> Result<Served>
    requires { IsActive S.Store work.old }
    ensures { Updates S.Store work.old work.new result
        (MakesCrate owner (publication_of new.now)) }
{
    let Ok(body) = publish_body().to_vec(alloc) else {
        return work.fail();
    };
    let version = version_of(new);
    work.add_crate(&new.name, owner, &version)?;
    Ok(Served::Done(Reply::Done(Kind::Json, body)))
}

/// Publishes the first version of a crate.
fn publish_first<S: Alter>(
    alloc: Global,
    work: &mut Work<'_, S>,
    limits: &Limits,
    owner: u32,
    new: &NewPublication<'_>,
) -> Result<Served>
    requires { IsActive S.Store work.old }
    ensures { Updates S.Store work.old work.new result
        (PublishesFirst limits.now owner (publication_of new.now)) }
{
    let full = is_full(work, limits)?;
    if full {
        return Ok(Served::ReadOnly(Reply::Denied(Rule::L2)));
    }
    make_crate(alloc, work, owner, new)
}

/// Publishes a further version of this crate.
fn publish_next<S: Alter>(
    alloc: Global,
    work: &mut Work<'_, S>,
    limits: &Limits,
    found: &FoundCrate,
    new: &NewPublication<'_>,
) -> Result<Served>
    requires { IsActive S.Store work.old }
    ensures { Updates S.Store work.old work.new result
        (PublishesNext limits.now found.now (publication_of new.now)) }
{
    let full = is_full_of(work, limits, found)?;
    if full {
        return Ok(Served::ReadOnly(Reply::Denied(Rule::L1)));
    }
    let Ok(body) = publish_body().to_vec(alloc) else {
        return work.fail();
    };
    let version = version_of(new);
    work.add_version(found.id, &version)?;
    Ok(Served::Done(Reply::Done(Kind::Json, body)))
}

/// Publishes a version: of a new crate, whose owner the caller becomes, or of the one found.
fn publish_version<S: Alter>(
    alloc: Global,
    work: &mut Work<'_, S>,
    limits: &Limits,
    principal: &Principal,
    new: &NewPublication<'_>,
) -> Result<Served>
    requires { IsActive S.Store work.old }
    ensures { GrantsTo limits.now principal.now S.Store (Publish (publication_of new.now))
        result work.old work.new }
{
    match &principal.found {
        Some(found) => publish_next(alloc, work, limits, found, new),
        None => publish_first(alloc, work, limits, principal.account, new),
    }
}

/// Publishes a version, and tells it.
pub(crate) fn publish<S: Alter>(
    alloc: Global,
    work: &mut Work<'_, S>,
    limits: &Limits,
    principal: &Principal,
    new: &NewPublication<'_>,
    traced: bool,
) -> Result<TracedServed>
    requires { IsActive S.Store work.old }
    ensures { GrantsTold traced limits.now principal.now S.Store (Publish (publication_of new.now))
        result work.old work.new }
{
    let served = publish_version(alloc, work, limits, principal, new)?;
    let name = new.name.as_str();
    let line = tell_change(
        alloc,
        work,
        principal,
        traced,
        "publish",
        name,
        &new.version,
    )?;
    Ok(TracedServed { served, line })
}
