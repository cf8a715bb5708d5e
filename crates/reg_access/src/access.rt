//! Whether a request may pass, decided from the rows of the access queries.

ghost use Rattle.std.specs.Prelude.{◌≡◌, IfOk, true};
ghost use Rattle.reg_policy.specs.Views.{action_of};
ghost use Rattle.reg_tables.specs.Works.{OnAnswer, IsActive, KeepsFrame, Unmoved, rows_seen};
ghost use Rattle.reg_access.specs.Admitted.{HasItsCrate, HasItsVersion, IsAdmission, TellsPrincipal, decision_in};
ghost use Rattle.reg_tables.specs.Calling.{Queries};
ghost use Rattle.reg_access.specs.Verdict.{IsPolicy, IsVerdict, is_fit};

use crate::admission::{Admission, admission_of};
use crate::finding::find_all;
use crate::texts::find_token;
use reg_line::Digest;
use reg_model::Rule;
use reg_policy::{Action, Decision};
use reg_tables::{Result, Work};
use sqlite::Alter;

fn judge<S: Alter>(work: &mut Work<'_, S>, digest: &Digest, action: &Action) -> Result<Admission>
    requires { IsActive S.Store work.old }
    ensures asks { Queries S.Store work.old work.new result
        (IsAdmission digest.now (action_of action.now)) }
    ensures there { IfOk result (HasItsCrate (action_of action.now)) }
    ensures named { IfOk result (HasItsVersion (action_of action.now)) }
{
    let Some(token) = find_token(work, digest)? else {
        return Ok(Admission::Denied(Rule::A2));
    };
    let found = find_all(work, &token, action)?;
    Ok(admission_of(token, found, action))
}

/// What is published has a name: the body is there for the prover, which knows a name's form once
/// its text is read.
fn fits(action: &Action)
    ensures { is_fit (action_of action.now) ≡ true }
{
    if let Action::Publish(name, _) = action {
        let _ = name.as_str();
    }
}

/// Whether the tables allow an action of the token with this digest: the first access rule that it
/// breaks, or who is allowed and what was found. The decision holds for any rows; if they
/// stand for a registry, it is the written policy's.
pub fn admit<S: Alter>(
    work: &mut Work<'_, S>,
    digest: &Digest,
    action: &Action,
) -> Result<Admission>
    requires { IsActive S.Store work.old }
    ensures decided { OnAnswer S.Store work.new result (λ it. IsVerdict digest.now
        (action_of action.now) (rows_seen S.Store work.old) (decision_in it)) }
    ensures policy { OnAnswer S.Store work.new result (λ it. IsPolicy digest.now
        (action_of action.now) (rows_seen S.Store work.old) (decision_in it)) }
    ensures found { OnAnswer S.Store work.new result
        (TellsPrincipal digest.now (action_of action.now) (rows_seen S.Store work.old)) }
    ensures there { IfOk result (HasItsCrate (action_of action.now)) }
    ensures named { IfOk result (HasItsVersion (action_of action.now)) }
    ensures same { Unmoved S.Store result work.old work.new }
    ensures leaves { KeepsFrame S.Store result work.old work.new }
{
    fits(action);
    judge(work, digest, action)
}

/// Only what `admit` decides.
pub fn authorize<S: Alter>(
    work: &mut Work<'_, S>,
    digest: &Digest,
    action: &Action,
) -> Result<Decision>
    requires { IsActive S.Store work.old }
    ensures decided { OnAnswer S.Store work.new result
        (IsVerdict digest.now (action_of action.now) (rows_seen S.Store work.old)) }
    ensures policy { OnAnswer S.Store work.new result
        (IsPolicy digest.now (action_of action.now) (rows_seen S.Store work.old)) }
    ensures same { Unmoved S.Store result work.old work.new }
    ensures leaves { KeepsFrame S.Store result work.old work.new }
{
    let admission = admit(work, digest, action)?;
    Ok(admission.decision())
}
