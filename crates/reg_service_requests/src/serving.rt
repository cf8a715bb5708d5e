//! Deciding a request, and serving or doing what is allowed, with the line of what it changes.

ghost use Rattle.std.specs.Prelude.{◌≡◌, IsSome, false, true};
ghost use Rattle.std.specs.Option.{option_map};
ghost use Rattle.reg_access.specs.Admitted.{needs_crate};
ghost use Rattle.reg_access.specs.JoinRows.{names_version};
ghost use Rattle.reg_model.specs.Events.{action_of as action_asked};
ghost use Rattle.reg_policy.specs.Events.{asked_of};
ghost use Rattle.reg_tables.specs.Works.{IsActive, has_failed};
ghost use Rattle.reg_tables.specs.Calling.{Updates};
ghost use Rattle.reg_service_requests.specs.Telling.{GrantsTold, ServesTold};

use crate::marking::set_yanked;
use crate::owning::own;
use crate::publishing::publish;
use crate::reading::{find_file, list_owners, read_archive, read_config};
use crate::served::Served;
use crate::told::{TracedServed, denied, untold};
use reg_access::{Admission, Principal, admit};
use reg_body::Limits;
use reg_line::Digest;
use reg_model::laws::access_law;
use reg_policy::{Asked, Reading, Rule, action_of};
use reg_tables::{Result, Work};
use sqlite::Alter;
use std::alloc::Global;

/// Serves or does what the access rules allow, and tells what it changes if that is wanted.
fn grant<S: Alter>(
    alloc: Global,
    work: &mut Work<'_, S>,
    limits: &Limits,
    principal: &Principal,
    asked: &Asked<'_>,
    traced: bool,
) -> Result<TracedServed>
    requires at_work { IsActive S.Store work.old }
    requires goes_on { has_failed work.old ≡ false }
    requires there { needs_crate (action_asked (asked_of asked.now)) ≡ true
        → IsSome principal.now.found }
    requires named { names_version (action_asked (asked_of asked.now)) ≡ true
        → IsSome principal.now.version }
    ensures { GrantsTold traced limits.now principal.now S.Store (asked_of asked.now)
        result work.old work.new }
{
    match asked {
        Asked::Malformed(rule) => Ok(denied(*rule)),
        Asked::Read(Reading::Config) => untold(read_config(alloc, work)),
        Asked::Read(Reading::Search(_, _)) => untold(Ok(Served::Seeks(principal.account))),
        Asked::Index(_) => untold(find_file(work, principal.found_crate())),
        Asked::Download(_, _) => untold(read_archive(work, principal.found_version())),
        Asked::ListOwners(_) => untold(list_owners(alloc, work, principal.found_crate())),
        Asked::Publish(new) => publish(alloc, work, limits, principal, new, traced),
        Asked::Yank(_, version) => set_yanked(alloc, work, principal, version, true, traced),
        Asked::Unyank(_, version) => set_yanked(alloc, work, principal, version, false, traced),
        Asked::AddOwners(_, logins) => own(alloc, work, principal, logins, true, traced),
        Asked::RemoveOwners(_, logins) => own(alloc, work, principal, logins, false, traced),
    }
}

/// The outcome of a request, with the digest of its token if exactly one was shown; and its line if
/// one is wanted.
pub fn serve_told<S: Alter>(
    alloc: Global,
    work: &mut Work<'_, S>,
    limits: &Limits,
    digest: Option<&Digest>,
    asked: &Asked<'_>,
    traced: bool,
) -> Result<TracedServed>
    requires at_work { IsActive S.Store work.old }
    requires goes_on { has_failed work.old ≡ false }
    ensures { Updates S.Store work.old work.new result (ServesTold traced limits.now
        (option_map (λ d. d.now) digest.entry) (asked_of asked.now)) }
{
    access_law();
    let Some(digest) = digest else {
        return Ok(denied(Rule::A1));
    };
    match admit(work, digest, &action_of(asked))? {
        Admission::Denied(rule) => Ok(denied(rule)),
        Admission::Allowed(principal) => grant(alloc, work, limits, &principal, asked, traced),
    }
}
