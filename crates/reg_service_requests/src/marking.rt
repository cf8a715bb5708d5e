//! Yanking and unyanking versions.

ghost use Rattle.std.specs.Prelude.{◌≡◌, IsSome};
ghost use Rattle.reg_tables.specs.Works.{IsActive};
ghost use Rattle.reg_service_requests.specs.Granted.{marking};
ghost use Rattle.reg_service_requests.specs.Telling.{GrantsTold, mark_word};

use crate::served::Served;
use crate::telling::tell_change;
use crate::told::TracedServed;
use reg_access::Principal;
use reg_api_replies::{Kind, Reply, ok_body};
use reg_service_steps::is_told;
use reg_tables::{Result, Work};
use sqlite::Alter;
use std::alloc::Global;

fn mark_verb(yanked: bool) -> &'static str
    ensures { result.now ≡ mark_word yanked }
{
    if yanked { "yank" } else { "unyank" }
}

/// Yanks or unyanks a version of the crate that was found, and tells it if it had the other mark.
pub(crate) fn set_yanked<S: Alter>(
    alloc: Global,
    work: &mut Work<'_, S>,
    principal: &Principal,
    version: &str,
    yanked: bool,
    traced: bool,
) -> Result<TracedServed>
    requires at_work { IsActive S.Store work.old }
    requires there { IsSome principal.now.found }
    ensures { (limits : _) (name : _) → GrantsTold traced limits principal.now S.Store
        (marking yanked name version.now) result work.old work.new }
{
    let Ok(body) = ok_body().to_vec(alloc) else {
        return work.fail();
    };
    let found = principal.found_crate();
    let changed = work.set_yanked(found.id, version, yanked)?;
    let told = is_told(traced, changed);
    let verb = mark_verb(yanked);
    let name = found.name.as_str();
    let line = tell_change(alloc, work, principal, told, verb, name, version)?;
    Ok(TracedServed {
        served: Served::Done(Reply::Done(Kind::Json, body)),
        line,
    })
}
