//! Requests and commands, one after another.

ghost use Rattle.std.specs.Prelude.{◌≡◌, ◌⊎◌, IfOk, take};
ghost use Rattle.std.specs.List.{AllByRecursion};
ghost use Rattle.sqlite.specs.State.{HasCleanDisk};
ghost use Rattle.reg_model.specs.Steps.{IsFit};
ghost use Rattle.reg_tables.specs.Works.{shown};
ghost use Rattle.reg_service.specs.Answered.{StandsIn};
ghost use Rattle.reg_service.specs.Registries.{limits_of, tables_of};
ghost use Rattle.reg_service.specs.Sequences.{HasAnswered, HasBegun, IsFitCall, IsTold, IsUnread, event_at};

use crate::registry::Registry;
use reg_api_replies::Reply;
use reg_api_requests::ApiRequest;
use reg_model::AdminRefusal;
use reg_model::laws::{growth_law, run_law};
use reg_policy::{AdminCommand, AdminReply};
use sqlite::Alter;
use std::alloc::{AllocError, Global};

/// A call to a registry.
#[derive(Drop)]
pub enum Call<'a> {
    Request(ApiRequest<'a>),
    Command(AdminCommand<'a>),
}

/// The answer to a call.
#[derive(Drop)]
pub enum Response {
    Reply(Reply),
    Command(Result<AdminReply, AdminRefusal>),
}

/// Answers one call.
fn answer<S: Alter>(alloc: Global, registry: &mut Registry<S>, call: &Call<'_>) -> Response
    requires fit { IsFitCall call.now }
    ensures read { IsFit (event_at (limits_of registry.old) call.now)
        ⊎ (IsUnread call.now result × (tables_of registry.new ≡ tables_of registry.old)) }
    ensures told { IsTold S.Store (limits_of registry.old) call.now result
        (tables_of registry.old) (tables_of registry.new) }
    ensures clean { HasCleanDisk (shown S.Store (tables_of registry.new)) → HasCleanDisk
        (shown S.Store (tables_of registry.old)) }
    ensures limits { limits_of registry.new ≡ limits_of registry.old }
{
    match call {
        Call::Request(request) => Response::Reply(registry.handle(alloc, request)),
        Call::Command(command) => Response::Command(registry.command(alloc, command)),
    }
}

/// Answers one call after another. If there is no memory for the list of the answers, it stops
/// after a call, and what was done before stands.
pub fn answer_all<S: Alter>(
    alloc: Global,
    registry: &mut Registry<S>,
    calls: &[Call<'_>],
) -> Result<Vec<Response>, AllocError>
    requires fit { AllByRecursion IsFitCall calls.now }
    ensures answered { HasCleanDisk (shown S.Store (tables_of registry.new)) → (s : _)
        → StandsIn s (shown S.Store (tables_of registry.old))
        → IfOk result (λ told. HasAnswered S.Store (limits_of registry.old) s
        (tables_of registry.old) calls.now told.items (tables_of registry.new)) }
    ensures begun { HasCleanDisk (shown S.Store (tables_of registry.new)) → (s : _)
        → StandsIn s (shown S.Store (tables_of registry.old))
        → HasBegun S.Store (limits_of registry.old) s (tables_of registry.old) calls.now
        (tables_of registry.new) }
    ensures limits { limits_of registry.new ≡ limits_of registry.old }
{
    run_law();
    growth_law();
    let mut told = Vec::new(alloc);
    for call in calls {
        told.push(answer(alloc, registry, call))?;
    }
    Ok(told)
}
