//! Standard output.

ghost use Rattle.std.specs.Prelude.{◌≡◌, ◌+◌, ◌^◌, ◌<◌};
ghost use Rattle.std.specs.Option.{option_map};
ghost use Rattle.reg_body.specs.Sent.{sink};
ghost use Rattle.reg_cli_run.specs.Printing.{Prints, token_line, told};

use crate::tokens::TokenText;
use arrayvec::ArrayVec;
use itoa::Buffer;
use reg_body::{Counted, SendFault, write_bytes};
use reg_cli_line::Exit;
use reg_policy::AdminReply;
use std::io::{self, Write};

/// How many calls printing one text takes at most.
pub const CALLS: u64 = 100_000_000;

/// How many bytes the line of a new token has at most.
const LINE: usize = 128;

/// Standard output failed.
pub const NO_WRITING: Exit = Exit {
    status: 3,
    message: "write fault",
};

/// Standard output takes too little at a time.
const TOO_MANY: Exit = Exit {
    status: 3,
    message: "too many turns",
};

/// Prints the bytes.
pub fn print_to<W: Write>(w: &mut Counted<W>, bytes: &[u8]) -> Exit
    requires { w.old.calls + CALLS < 2 ^ 64 }
    ensures { Prints bytes.now (sink (W.contents w.old.inner) w.old)
        (sink (W.contents w.new.inner) w.new) result }
{
    match write_bytes(w, bytes, CALLS) {
        Ok(_) => Exit::DONE,
        Err(SendFault::Write) => NO_WRITING,
        Err(SendFault::Spent) => TOO_MANY,
    }
}

/// Prints the text on standard output.
pub fn print(rt: &HostRuntime, text: &str) -> Exit {
    print_to(&mut Counted::new(io::writer(rt)), text.as_bytes())
}

/// The line for a new token: its number, and its text if it was made here. A token is kept before
/// it is printed, so this takes no memory.
pub(crate) fn line_of_token(id: u32, text: Option<&TokenText>) -> ArrayVec<u8, LINE>
    ensures { result.items ≡ token_line id (option_map (λ t. t.now) text.entry) }
{
    let mut line = ArrayVec::new();
    let mut digits = Buffer::new();
    let _fits = line.try_extend_from_slice(digits.format(id).as_bytes());
    if let Some(text) = text {
        line.push(b' ');
        let _fits = line.try_extend_from_slice(text);
    }
    line.push(b'\n');
    line
}

/// Prints what a reply says, if anything. The text of a token was made here.
pub fn print_reply<W: Write>(
    w: &mut Counted<W>,
    reply: &AdminReply,
    text: Option<&TokenText>,
) -> Exit
    requires { w.old.calls + CALLS < 2 ^ 64 }
    ensures { Prints (told reply.now (option_map (λ t. t.now) text.entry))
        (sink (W.contents w.old.inner) w.old) (sink (W.contents w.new.inner) w.new) result }
{
    match reply {
        AdminReply::Done => print_to(w, &[]),
        AdminReply::Id(id) => print_to(w, line_of_token(*id, text).as_slice()),
        AdminReply::Text(report) => print_to(w, report.as_bytes()),
    }
}
