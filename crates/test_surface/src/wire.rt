//! Heads, routes, replies and streams.

ghost use Rattle.std.specs.Prelude.{◌+◌, ◌^◌, ◌<◌};
ghost use Rattle.sqlite.specs.Steps.{over_memory};
ghost use Rattle.reg_service.specs.Registries.{limits_of};

use reg_api_replies::SendFault;
use reg_body::{Counted, Limits};
use reg_http::{Head, HeadRead, RouteFault, Routes, StreamFault, Trail};
use reg_policy::Rule;
use reg_service::{ApiRequest, Methods, Registry, Reply};
use sqlite::MemStore;
use std::alloc::{AllocError, Global};
use std::fs::File;

const _: Head<'static> = Head {
    method: "",
    target: "",
    token: Some(b""),
    len: 0usize,
    body_len: 0u64,
    interim: false,
    close: false,
};

const _: [HeadRead<'static>; 2] = [HeadRead::More, HeadRead::Refused(Rule::H1, false)];

const _: for<'b> fn(Global, &'b [u8], &Limits) -> Result<HeadRead<'b>, AllocError> =
    reg_http::read_head;

const _: [SendFault; 2] = [SendFault::Write, SendFault::Spent];

const _: [StreamFault; 5] = [
    StreamFault::ReadFault,
    StreamFault::WriteFault,
    StreamFault::TooManyTurns,
    StreamFault::StoreFault,
    StreamFault::Memory,
];

const _: [RouteFault; 3] = [
    RouteFault::NoRoute,
    RouteFault::Method(Methods::Get),
    RouteFault::Memory,
];

fn write_reply(
    writer: &mut Counted<Vec<u8>>,
    reply: &Reply,
    close: bool,
    head_only: bool,
    writes: u64,
) -> Result<u64, SendFault>
    requires { writer.old.calls + writes < 2 ^ 64 }
{
    reg_http::write_reply(writer, reply, close, head_only, writes)
}

fn serve_stream(
    alloc: Global,
    registry: &mut Registry<MemStore>,
    reader: &mut Counted<File>,
    writer: &mut Counted<Vec<u8>>,
) -> Result<u64, StreamFault>
    requires reads { reader.old.calls + (limits_of registry.old).turns < 2 ^ 64 }
    requires writes { writer.old.calls + (limits_of registry.old).turns < 2 ^ 64 }
{
    reg_http::serve_stream(alloc, registry, reader, writer)
}

fn serve_traced(
    alloc: Global,
    registry: &mut Registry<MemStore>,
    reader: &mut Counted<File>,
    writer: &mut Counted<Vec<u8>>,
    trail: &mut Trail<File>,
) -> Result<u64, StreamFault>
    requires reads { reader.old.calls + (limits_of registry.old).turns < 2 ^ 64 }
    requires writes { writer.old.calls + (limits_of registry.old).turns < 2 ^ 64 }
{
    reg_http::serve_traced(alloc, registry, reader, writer, trail)
}

fn call_methods(alloc: Global, routes: &Routes, head: Head<'_>) {
    return;
    let _: Result<Routes, AllocError> = Routes::new(alloc);
    let _: Result<ApiRequest<'_>, RouteFault> = Routes::route(routes, alloc, &head, b"");
    let _: HeadRead<'_> = HeadRead::Head(head);
}
