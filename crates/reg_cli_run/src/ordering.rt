//! Orders in words: parsed, done by a registry, and their lines told to a trail.

ghost use Rattle.std.specs.Prelude.{◌≡◌, Some};
ghost use Rattle.reg_model.specs.Events.Event.{Order as ToOrder};
ghost use Rattle.reg_model.specs.Steps.{IsFit};
ghost use Rattle.reg_policy.specs.Events.{command_of};
ghost use Rattle.reg_cli_run.specs.LineOrders.{order_in};
ghost use Rattle.reg_cli_run.specs.Setups.{MakesOf, ObeysOrder};

use clap::error::ErrorKind;
use clap::{ArgMatches, Error};
use reg_cli_args::{GivenCommand, TokenSource, read_order};
use reg_http::Trail;
use reg_model::AdminRefusal;
use reg_policy::{AdminCommand, AdminReply};
use reg_service::{Registry, TracedOrder};
use sqlite::Alter;
use std::alloc::{AllocError, Global};
use std::io::Write;

/// Why an order in words was not done.
#[derive(Clone, Copy, Debug, PartialEq, Eq)]
pub enum OrderFault {
    /// The command was refused.
    Refused(AdminRefusal),
    /// The words are no command that may stand there.
    Unreadable,
    /// Out of memory.
    Memory,
}

impl From<Error> for OrderFault {
    ghost use Rattle.std.specs.Prelude.{◌≡◌};
    ghost use Rattle.clap.specs.Values.{kind_of};
    ghost use Rattle.reg_cli_run.specs.LineOrders.{fault_by};

    ghost from_gives = { λ e f. f ≡ fault_by (kind_of e) };

    fn from(error: Error) -> OrderFault {
        match error.kind() {
            ErrorKind::OutOfMemory => OrderFault::Memory,
            _ => OrderFault::Unreadable,
        }
    }
}

impl From<AllocError> for OrderFault {
    ghost use Rattle.std.specs.Prelude.{◌≡◌};
    ghost use Rattle.reg_cli_run.specs.declared.ordering.OrderFault.TheVariants.{Memory};

    ghost from_gives = { λ _ f. f ≡ Memory };

    fn from(_: AllocError) -> OrderFault {
        OrderFault::Memory
    }
}

/// The reply to a command, as the answer to an order.
fn order_result(reply: Result<AdminReply, AdminRefusal>) -> Result<AdminReply, OrderFault>
    ensures { MakesOf reply result }
{
    match reply {
        Ok(reply) => Ok(reply),
        Err(refusal) => Err(OrderFault::Refused(refusal)),
    }
}

/// Runs one command, and tells what it changed.
pub(crate) fn obey_traced<T: Write, S: Alter>(
    alloc: Global,
    registry: &mut Registry<S>,
    command: &AdminCommand<'_>,
    trail: &mut Trail<T>,
) -> Result<AdminReply, OrderFault>
    requires fit { IsFit (ToOrder (command_of command.now)) }
    ensures { ObeysOrder S.Store (Some (command_of command.now)) T.contents
        registry.old registry.new trail.old trail.new result }
{
    let TracedOrder { answer, line } = registry.command_traced(alloc, command, trail.is_open());
    trail.tell(line);
    order_result(answer)
}

/// Runs the parsed command. To add a token, its digest must be given.
pub(crate) fn obey_order<T: Write, S: Alter>(
    alloc: Global,
    registry: &mut Registry<S>,
    trail: &mut Trail<T>,
    matches: &ArgMatches<'_>,
) -> Result<AdminReply, OrderFault>
    ensures { ObeysOrder S.Store (order_in matches.now) T.contents registry.old registry.new
        trail.old trail.new result }
{
    let Some((name, inner)) = matches.subcommand() else {
        return Err(OrderFault::Unreadable);
    };
    match read_order(alloc, name, inner)? {
        Some(GivenCommand::AddToken(token)) => match &token.source {
            TokenSource::Told(digest) => {
                obey_traced(alloc, registry, &token.command(digest), trail)
            }
            TokenSource::Random(_) => Err(OrderFault::Unreadable),
        },
        Some(GivenCommand::Other(command)) => obey_traced(alloc, registry, &command, trail),
        None => Err(OrderFault::Unreadable),
    }
}
