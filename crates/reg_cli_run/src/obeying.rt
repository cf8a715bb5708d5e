//! The administrator's commands over any store, with their replies printed.

ghost use Rattle.std.specs.Prelude.{◌≡◌, ◌+◌, ◌^◌, ◌<◌};
ghost use Rattle.std.specs.Option.{option_map};
ghost use Rattle.reg_body.specs.Sent.{sink};
ghost use Rattle.reg_cli_args.specs.Orders.{token_command, words_of};
ghost use Rattle.reg_model.specs.Events.Event.{Order as ToOrder};
ghost use Rattle.reg_model.specs.Steps.{IsFit};
ghost use Rattle.reg_policy.specs.Events.{command_of};
ghost use Rattle.reg_service.specs.Registries.{limits_of, tables_of};
ghost use Rattle.reg_cli_run.specs.Printing.{IsObeyed};

use crate::exit::exit_of_refusal;
use crate::printing::{CALLS, print_reply};
use crate::tokens::{TokenMade, TokenText};
use reg_body::Counted;
use reg_cli_args::NewToken;
use reg_cli_line::Exit;
use reg_policy::AdminCommand;
use reg_service::Registry;
use sqlite::Alter;
use std::alloc::Global;
use std::io::Write;

/// Runs a command, and prints what its reply says. The text of a new token was made here.
pub fn obey<S: Alter, W: Write>(
    alloc: Global,
    registry: &mut Registry<S>,
    w: &mut Counted<W>,
    command: &AdminCommand<'_>,
    text: Option<&TokenText>,
) -> Exit
    requires fit { IsFit (ToOrder (command_of command.now)) }
    requires room { w.old.calls + CALLS < 2 ^ 64 }
    ensures { IsObeyed S.Store (limits_of registry.old) (command_of command.now)
        (option_map (λ t. t.now) text.entry) (tables_of registry.old) (tables_of registry.new)
        (sink (W.contents w.old.inner) w.old) (sink (W.contents w.new.inner) w.new) result }
{
    match registry.command(alloc, command) {
        Ok(reply) => print_reply(w, &reply, text),
        Err(refusal) => exit_of_refusal(refusal),
    }
}

/// Adds a token, and prints its text only once it is kept.
pub fn add_token<S: Alter, W: Write>(
    alloc: Global,
    registry: &mut Registry<S>,
    w: &mut Counted<W>,
    token: &NewToken<'_>,
    made: &TokenMade,
) -> Exit
    requires room { w.old.calls + CALLS < 2 ^ 64 }
    ensures { IsObeyed S.Store (limits_of registry.old)
        (token_command (words_of token.now) made.now.digest) made.now.text
        (tables_of registry.old) (tables_of registry.new)
        (sink (W.contents w.old.inner) w.old) (sink (W.contents w.new.inner) w.new) result }
{
    obey(
        alloc,
        registry,
        w,
        &token.command(&made.digest),
        made.text.as_ref(),
    )
}
