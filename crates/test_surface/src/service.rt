//! The registry over a store: requests, commands, index files and exports.

ghost use Rattle.std.specs.Prelude.{◌≡◌, ◌+◌, ◌^◌, ◌<◌, false};
ghost use Rattle.sqlite.specs.Held.{state};
ghost use Rattle.sqlite.specs.Steps.{over_memory};

use http::StatusCode;
use reg_api_replies::FixedText;
use reg_body::{Counted, Limits};
use reg_policy::{AdminCommand, AdminRefusal, AdminReply, Rule};
use reg_service::{
    Answered, ApiCall, ApiRequest, Check, FoundFile, IndexFault, Kind, Methods, OpenFault,
    Registry, Reply, TracedOrder, TracedReply,
};
use reg_tables::StoreFault;
use sqlite::{Connection, MemStore};
use std::alloc::Global;
use std::borrow::{CowSlice, CowStr};

const _: [OpenFault; 4] = [
    OpenFault::BadBase,
    OpenFault::UnknownSchema,
    OpenFault::Damaged(Check::C1),
    OpenFault::Storage,
];

const _: [IndexFault; 3] = [IndexFault::Write, IndexFault::Spent, IndexFault::Store];

const _: fn(TracedReply) -> Answered = Answered::Replied;

const _: fn(FoundFile) -> Answered = Answered::Found;

const _: FoundFile = FoundFile {
    crate_id: 1,
    length: 300,
};

const _: ApiRequest<'static> = ApiRequest {
    token: Some(b""),
    call: ApiCall::Config,
};

const _: [ApiCall<'static>; 10] = [
    ApiCall::Config,
    ApiCall::Index(CowSlice::Borrowed(b"")),
    ApiCall::Download(CowSlice::Borrowed(b""), CowSlice::Borrowed(b"")),
    ApiCall::Yank(CowSlice::Borrowed(b""), CowSlice::Borrowed(b"")),
    ApiCall::Unyank(CowSlice::Borrowed(b""), CowSlice::Borrowed(b"")),
    ApiCall::ListOwners(CowSlice::Borrowed(b"")),
    ApiCall::Publish(b""),
    ApiCall::AddOwners(CowSlice::Borrowed(b""), b""),
    ApiCall::RemoveOwners(CowSlice::Borrowed(b""), b""),
    ApiCall::Search {
        q: Some(CowStr::Borrowed("")),
        per_page: Some(CowStr::Borrowed("")),
    },
];

const _: [Kind; 3] = [Kind::Text, Kind::Archive, Kind::Json];

const _: fn(Kind, Vec<u8>) -> Reply = Reply::Done;

const _: fn(Rule) -> Reply = Reply::Denied;

const _: fn(Methods) -> Reply = Reply::Method;

const _: fn(StatusCode, Kind, Option<Methods>, u64, bool) -> FixedText = reg_service::reply_head;

fn create(
    conn: Connection<MemStore>,
    base: &str,
    limits: Limits,
) -> Result<Registry<MemStore>, (Connection<MemStore>, OpenFault)>
    requires { (state over_memory conn).in_transaction ≡ false }
{
    Registry::create(conn, base, limits)
}

fn open(
    alloc: Global,
    conn: Connection<MemStore>,
    limits: Limits,
) -> Result<Registry<MemStore>, (Connection<MemStore>, OpenFault)>
    requires { (state over_memory conn).in_transaction ≡ false }
{
    Registry::open(alloc, conn, limits)
}

fn stream_index(
    registry: &mut Registry<MemStore>,
    file: &FoundFile,
    close: bool,
    writer: &mut Counted<Vec<u8>>,
    writes: u64,
) -> Result<u64, IndexFault>
    requires room { writer.old.calls + writes < 2 ^ 64 }
{
    Registry::stream_index(registry, file, close, writer, writes)
}

fn take_connection(registry: Registry<MemStore>) -> Connection<MemStore> {
    Registry::into_connection(registry)
}

fn call_methods(
    alloc: Global,
    registry: &mut Registry<MemStore>,
    request: &ApiRequest<'_>,
    command: &AdminCommand<'_>,
) {
    return;
    let _: &Limits = Registry::limits(registry);
    let _: bool = Registry::is_stopped(registry);
    let _: Result<String, StoreFault> = Registry::mark(registry, alloc);
    let _: Reply = Registry::handle(registry, alloc, request);
    let _: Result<AdminReply, AdminRefusal> = Registry::command(registry, alloc, command);
    let _: Answered = Registry::handle_traced(registry, alloc, request, true);
    let _: TracedOrder = Registry::command_traced(registry, alloc, command, true);
    let _: Result<Vec<(String, Vec<u8>)>, StoreFault> = Registry::export(registry, alloc);
    let _: Result<Option<Check>, StoreFault> = Registry::audit(registry, alloc);
}
