//! The line of what a request changed, and of what its words are.

ghost use Rattle.std.specs.Prelude.{◌≡◌, ◌∷◌, [], IfOk, false, map, string_bytes};
ghost use Rattle.std.specs.Fmt.{decimal};
ghost use Rattle.std.specs.Option.{option_map};
ghost use Rattle.reg_model.specs.Reports.{with_commas};
ghost use Rattle.reg_model.specs.Trail.{line_of};
ghost use Rattle.reg_tables.specs.Works.{IsActive, has_failed};
ghost use Rattle.reg_tables.specs.Calling.{Queries};
ghost use Rattle.reg_service_steps.specs.Telling.{line_if};
ghost use Rattle.reg_service_requests.specs.Telling.{owners_word};

use itoa::Buffer;
use reg_access::Principal;
use reg_service_steps::{line_of, told_line, with_commas};
use reg_tables::{Result, Work};
use sqlite::Alter;
use std::alloc::{AllocError, Global};

// An array has one lifetime for all its texts, and only parameters can be given one.
fn line_by(
    alloc: Global,
    token: &str,
    login: &str,
    verb: &str,
    name: &str,
    more: &str,
) -> Result<String, AllocError>
    ensures { IfOk result (λ line. string_bytes line
        ≡ line_of (token.now ∷ login.now ∷ verb.now ∷ name.now ∷ more.now ∷ [])) }
{
    line_of(alloc, &[token, login, verb, name, more])
}

/// The line of a change of a crate by who asked, if it is to be told: the id of the token, its
/// account's login, and what was done.
pub(crate) fn tell_change<S: Alter>(
    alloc: Global,
    work: &mut Work<'_, S>,
    principal: &Principal,
    told: bool,
    verb: &str,
    name: &str,
    more: &str,
) -> Result<Option<String>>
    requires at_work { IsActive S.Store work.old }
    requires goes_on { has_failed work.old ≡ false }
    ensures { Queries S.Store work.old work.new result (λ db found. option_map string_bytes found
        ≡ line_if told (decimal principal.now.token ∷ string_bytes principal.now.login
        ∷ verb.now ∷ name.now ∷ more.now ∷ [])) }
{
    if !told {
        return Ok(None);
    }
    let mut digits = Buffer::new();
    let token = digits.format(principal.token);
    told_line(
        work,
        line_by(alloc, token, &principal.login, verb, name, more),
    )
}

fn owners_verb(are_owners: bool) -> &'static str
    ensures { result.now ≡ owners_word are_owners }
{
    if are_owners {
        "add-owners"
    } else {
        "remove-owners"
    }
}

/// The line of owners who were added to a crate or removed from it, if it is to be told.
pub(crate) fn tell_owners<S: Alter>(
    alloc: Global,
    work: &mut Work<'_, S>,
    principal: &Principal,
    told: bool,
    name: &str,
    logins: &[String],
    are_owners: bool,
) -> Result<Option<String>>
    requires at_work { IsActive S.Store work.old }
    requires goes_on { has_failed work.old ≡ false }
    ensures { Queries S.Store work.old work.new result (λ db found. option_map string_bytes found
        ≡ line_if told (decimal principal.now.token ∷ string_bytes principal.now.login
        ∷ owners_word are_owners ∷ name.now ∷ with_commas (map string_bytes logins.now) ∷ [])) }
{
    if !told {
        return Ok(None);
    }
    let Ok(listed) = with_commas(alloc, logins) else {
        return work.fail();
    };
    tell_change(
        alloc,
        work,
        principal,
        told,
        owners_verb(are_owners),
        name,
        &listed,
    )
}
