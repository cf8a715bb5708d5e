//! The program's commands, from one end to another.

ghost use Rattle.std.specs.Prelude.{◌+◌, ◌^◌, ◌<◌};
ghost use Rattle.sqlite.specs.Steps.{over_memory};
ghost use Rattle.reg_service.specs.Registries.{limits_of};

use reg_body::{Counted, Limits};
use reg_cli::Exit;
use reg_http::Trail;
use reg_service::Registry;
use sqlite::MemStore;
use std::alloc::Global;
use std::fs::File;

const _: Exit = Exit {
    status: 0u8,
    message: "",
};

const _: fn(&HostRuntime, &[String]) -> Exit = reg_cli::run_words;

fn run_line(alloc: Global, reader: &mut Counted<File>, writer: &mut Counted<Vec<u8>>) -> Exit
    requires reads { reader.old.calls + Limits.STANDARD.turns < 2 ^ 64 }
    requires writes { writer.old.calls + Limits.STANDARD.turns < 2 ^ 64 }
{
    reg_cli::run_line(alloc, reader, writer)
}

fn run_pipe(
    alloc: Global,
    registry: &mut Registry<MemStore>,
    setup: &str,
    reader: &mut Counted<File>,
    writer: &mut Counted<Vec<u8>>,
) -> Exit
    requires reads { reader.old.calls + (limits_of registry.old).turns < 2 ^ 64 }
    requires writes { writer.old.calls + (limits_of registry.old).turns < 2 ^ 64 }
{
    reg_cli::run_pipe(alloc, registry, setup, reader, writer)
}

fn pipe_traced(
    alloc: Global,
    registry: &mut Registry<MemStore>,
    setup: &str,
    reader: &mut Counted<File>,
    writer: &mut Counted<Vec<u8>>,
    trail: &mut Trail<File>,
) -> Exit
    requires reads { reader.old.calls + (limits_of registry.old).turns < 2 ^ 64 }
    requires writes { writer.old.calls + (limits_of registry.old).turns < 2 ^ 64 }
{
    reg_cli::pipe_traced(alloc, registry, setup, reader, writer, trail)
}
