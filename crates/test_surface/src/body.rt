//! The publish frame, the limits, and ends that count their calls.

ghost use Rattle.std.specs.Prelude.{◌-◌, ◌^◌, ◌<◌};

use reg_body::{BodyFault, Counted, JoinFault, Limits};
use std::alloc::Global;
use std::fs::File;
use std::io;

const _: for<'a> fn(&'a [u8], &Limits) -> Result<(&'a [u8], &'a [u8]), BodyFault> = reg_body::split;

const _: [BodyFault; 3] = [BodyFault::Short, BodyFault::Trailing, BodyFault::TooLong];

const _: fn(Global, &[u8], &[u8]) -> Result<Vec<u8>, JoinFault> = reg_body::join;

const _: [JoinFault; 2] = [JoinFault::Memory, JoinFault::TooLong];

const _: Limits = Limits::STANDARD;

const _: Limits = Limits {
    json: 0u32,
    archive: 0u32,
    head: 0u32,
    fields: 0u32,
    patterns: 0u32,
    logins: 0u32,
    versions: 0u64,
    accounts: 0u64,
    tokens: 0u64,
    crates: 0u64,
    replies: 0u64,
    turns: 0u64,
};

const _: fn() = reg_body::laws::prefix_law;

const _: fn() = reg_body::laws::wider_law;

fn call_methods(end: File, counted: Counted<File>, called: &Counted<File>) {
    return;
    let _: Counted<File> = Counted::new(end);
    let _: File = Counted::into_inner(counted);
    let _: u64 = Counted::calls(called);
    let _: u64 = Counted::failures(called);
}

fn read(counted: &mut Counted<File>, buf: &mut [u8]) -> io::Result<usize>
    requires { counted.old.calls < 2 ^ 64 - 1 }
{
    Counted::read(counted, buf)
}

fn write(counted: &mut Counted<File>, buf: &[u8]) -> io::Result<usize>
    requires { counted.old.calls < 2 ^ 64 - 1 }
{
    Counted::write(counted, buf)
}
