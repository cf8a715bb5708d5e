//! What a command within a transaction comes to, with its line.

ghost use Rattle.std.specs.Prelude.{◌≡◌, ◌∷◌, [], Err, None, Ok, codes, false, map};
ghost use Rattle.reg_policy.specs.declared.event.AdminReply.TheVariants.{Done};
ghost use Rattle.reg_tables.specs.Works.{IsActive, has_failed};
ghost use Rattle.reg_tables.specs.Calling.{Queries};
ghost use Rattle.reg_service_commands.specs.Telling.{IsDoneTold, IsUntold};

use reg_model::AdminRefusal;
use reg_policy::AdminReply;
use reg_service_steps::tell_words;
use reg_tables::{Result, Work};
use sqlite::Alter;
use std::alloc::Global;

/// What a command is answered.
pub type Answer = std::result::Result<AdminReply, AdminRefusal>;

/// What a command is answered, and the line of what it changes.
#[derive(Drop)]
pub struct TracedOrder {
    pub answer: Answer,
    pub line: Option<String>,
}

/// A refusal, which has no line.
pub fn refused(refusal: AdminRefusal) -> TracedOrder
    ensures answer { result.answer ≡ Err refusal }
    ensures line { result.line ≡ None }
{
    TracedOrder {
        answer: Err(refusal),
        line: None,
    }
}

/// The answer of a command that had nothing to change.
pub(crate) fn unchanged() -> TracedOrder
    ensures answer { result.answer ≡ Ok Done }
    ensures line { result.line ≡ None }
{
    TracedOrder {
        answer: Ok(AdminReply::Done),
        line: None,
    }
}

/// An answer that changes nothing, and so has no line.
pub(crate) fn untold(answer: Result<Answer>) -> Result<TracedOrder>
    ensures { IsUntold answer result }
{
    match answer {
        Ok(answer) => Ok(TracedOrder { answer, line: None }),
        Err(fault) => Err(fault),
    }
}

/// The answer of a command that was done, with the line of these words if it is to be told.
fn done<S: Alter>(
    alloc: Global,
    work: &mut Work<'_, S>,
    told: bool,
    words: &[&str],
) -> Result<TracedOrder>
    requires at_work { IsActive S.Store work.old }
    requires goes_on { has_failed work.old ≡ false }
    ensures { Queries S.Store work.old work.new result
        (λ db it. IsDoneTold told (map (λ w. w.now) words.now) it) }
{
    let line = tell_words(alloc, work, told, words)?;
    Ok(TracedOrder {
        answer: Ok(AdminReply::Done),
        line,
    })
}

/// The same of a change of one thing.
pub(crate) fn done_of<S: Alter>(
    alloc: Global,
    work: &mut Work<'_, S>,
    told: bool,
    verb: &str,
    of: &str,
) -> Result<TracedOrder>
    requires at_work { IsActive S.Store work.old }
    requires goes_on { has_failed work.old ≡ false }
    ensures { Queries S.Store work.old work.new result (λ db it. IsDoneTold told
        (codes "-" ∷ codes "admin" ∷ verb.now ∷ of.now ∷ []) it) }
{
    done(alloc, work, told, &["-", "admin", verb, of])
}

/// The same of a change of an account and a crate.
pub(crate) fn done_of_pair<S: Alter>(
    alloc: Global,
    work: &mut Work<'_, S>,
    told: bool,
    verb: &str,
    name: &str,
    login: &str,
) -> Result<TracedOrder>
    requires at_work { IsActive S.Store work.old }
    requires goes_on { has_failed work.old ≡ false }
    ensures { Queries S.Store work.old work.new result (λ db it. IsDoneTold told
        (codes "-" ∷ codes "admin" ∷ verb.now ∷ name.now ∷ login.now ∷ []) it) }
{
    done(alloc, work, told, &["-", "admin", verb, name, login])
}
