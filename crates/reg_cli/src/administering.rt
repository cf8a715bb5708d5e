//! The administrator's commands on a file.

ghost use Rattle.std.specs.Prelude.{◌≡◌, ◌+◌, ◌^◌, ◌<◌, None, IfOk, IfSome};
ghost use Rattle.std.specs.Option.{option_map};
ghost use Rattle.reg_body.specs.Sent.{sink};
ghost use Rattle.reg_cli_args.specs.Orders.{given_by};
ghost use Rattle.reg_service.specs.Registries.{limits_of, tables_of};
ghost use Rattle.reg_cli.specs.Tasks.{IsFitTask, IsTaskDone, task_from, task_of};

use crate::exporting::IndexFolder;
use crate::files::whole_path;
use crate::sending::order_at;
use crate::using::{FileTask, on_whole_file};
use clap::ArgMatches;
use reg_body::{Counted, Limits};
use reg_cli_args::{GivenCommand, NewToken, read_order, read_report};
use reg_cli_line::Exit;
use reg_cli_run::{CALLS, add_token, export_into, make_token, obey};
use reg_policy::AdminCommand;
use reg_service::Registry;
use sqlite::{Alter, Start};
use std::alloc::{AllocError, Global};
use std::io::Write;

/// What the administrator wants of a registry.
#[derive(Drop)]
pub(crate) enum AdminTask<'a> {
    /// The index as files: their folder, and the registry's own file.
    Export(&'a str, &'a str),
    Command(AdminCommand<'a>),
    AddToken(NewToken<'a>),
}

/// The task that the arguments ask for.
fn read_task<'a>(
    alloc: Global,
    name: &str,
    words: &ArgMatches<'a>,
) -> Result<Option<AdminTask<'a>>, AllocError>
    ensures wanted { IfOk result (λ t. option_map task_of t
        ≡ task_from name.now (given_by words.now)) }
    ensures fit { IfOk result (λ t. IfSome t IsFitTask) }
{
    if name == "export" {
        return Ok(match (words.get_str("DIR"), words.get_str("db")) {
            (Some(folder), Some(file)) => Some(AdminTask::Export(folder, file)),
            _ => None,
        });
    }
    if let Some(report) = read_report(name, words) {
        return Ok(Some(AdminTask::Command(report)));
    }
    Ok(match read_order(alloc, name, words)? {
        Some(GivenCommand::AddToken(token)) => Some(AdminTask::AddToken(token)),
        Some(GivenCommand::Other(command)) => Some(AdminTask::Command(command)),
        None => None,
    })
}

/// Runs a task, and prints its output.
pub(crate) fn do_task<S: Alter, W: Write>(
    rt: &HostRuntime,
    registry: &mut Registry<S>,
    w: &mut Counted<W>,
    task: &AdminTask<'_>,
) -> Exit
    requires fit { IsFitTask task.now }
    requires room { w.old.calls + CALLS < 2 ^ 64 }
    ensures { IsTaskDone S.Store (limits_of registry.old) task.now
        (tables_of registry.old) (tables_of registry.new)
        (sink (W.contents w.old.inner) w.old) (sink (W.contents w.new.inner) w.new) result }
{
    match task {
        AdminTask::Export(folder, file) => {
            export_into(
                rt.alloc(),
                registry,
                &mut IndexFolder::new(rt, folder, file),
            )
        }
        AdminTask::Command(command) => obey(rt.alloc(), registry, w, command, None),
        AdminTask::AddToken(token) => match make_token(rt, &token.source) {
            Ok(made) => add_token(rt.alloc(), registry, w, token, &made),
            Err(exit) => exit,
        },
    }
}

/// The task, on the file by its whole path.
fn with_file<'a>(task: AdminTask<'a>, file: &'a str) -> AdminTask<'a>
    requires { IsFitTask task }
    ensures { IsFitTask result }
{
    match task {
        AdminTask::Export(folder, _) => AdminTask::Export(folder, file),
        task => task,
    }
}

/// Does what the arguments of a subcommand ask for, on the file that they name, or by the server
/// whose socket file they name.
pub(crate) fn administer<F: Start>(
    rt: &HostRuntime,
    name: &str,
    words: &ArgMatches<'_>,
    start: F,
) -> Exit {
    let task = match read_task(rt.alloc(), name, words) {
        Ok(Some(task)) => task,
        Ok(None) => return Exit::BAD_WORDS,
        Err(_) => return Exit::MEMORY,
    };
    if let Some(path) = words.get_str("at") {
        return order_at(rt, path, name, words, &task);
    }
    let Some(file) = words.get_str("db") else {
        return Exit::BAD_WORDS;
    };
    match whole_path(rt, file) {
        Ok(file) => {
            let task = with_file(task, &file);
            let wanted = FileTask::AdminTask(&task);
            on_whole_file(rt, &file, Limits::STANDARD, &wanted, start)
        }
        Err(exit) => exit,
    }
}
