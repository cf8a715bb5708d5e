//! The administrator's commands on a registry that a server serves: each is sent to the server's
//! socket file, and ends as the server replies.

ghost use Rattle.std.specs.Prelude.{◌≡◌, ◌++◌, IfOk, OnOk, Some};
ghost use Rattle.std.specs.List.{flat_map};
ghost use Rattle.std.specs.Option.{option_map};
ghost use Rattle.hex.specs.Hex.{encode_lower};
ghost use Rattle.reg_cli_args.specs.Orders.{given_by};
ghost use Rattle.reg_cli.specs.Sending.{IsReply, argument, digest_sent, is_whole, named, option_sent, options_sent, sent_words, value_sent, values_sent};

use crate::administering::AdminTask;
use clap::ArgMatches;
use hex::encode_to_slice;
use reg_body::Counted;
use reg_cli_line::Exit;
use reg_cli_run::{TokenMade, TokenText, make_token, print, print_to};
use reg_line::Digest;
use std::alloc::{AllocError, Global};
use std::io::{self, Read, Write};
use std::net::Shutdown;
use std::os::unix::net::UnixStream;
use std::str::from_utf8;

/// The end of a command whose reply did not come, or not whole.
fn broken(rt: &HostRuntime) -> Exit {
    let _ = eprintln!(rt; "no reply: the change may have been made");
    Exit::STORAGE
}

/// Adds an argument to a message.
fn push_argument(message: &mut Vec<u8>, word: &str) -> Result<(), AllocError>
    ensures { OnOk result (message.new.items ≡ message.old.items ++ argument word.now) }
{
    message.extend_from_slice(word.as_bytes())?;
    message.push(0)?;
    Ok(())
}

/// Adds the value that stands in a place behind the subcommand's name, if one does.
fn push_value(message: &mut Vec<u8>, words: &ArgMatches<'_>, place: &str) -> Result<(), AllocError>
    ensures { OnOk result (message.new.items ≡ message.old.items
        ++ flat_map argument (value_sent (given_by words.now) place.now)) }
{
    if let Some(value) = words.get_str(place) {
        push_argument(message, value)?;
    }
    Ok(())
}

/// Adds an option and its value.
fn push_named(message: &mut Vec<u8>, option: &str, value: &str) -> Result<(), AllocError>
    ensures { OnOk result (message.new.items ≡ message.old.items
        ++ flat_map argument (named option.now value.now)) }
{
    message.extend_from_slice(b"--")?;
    push_argument(message, option)?;
    push_argument(message, value)?;
    Ok(())
}

/// Adds an option, if it is given.
fn push_option(
    message: &mut Vec<u8>,
    words: &ArgMatches<'_>,
    option: &str,
) -> Result<(), AllocError>
    ensures { OnOk result (message.new.items ≡ message.old.items
        ++ flat_map argument (option_sent (given_by words.now) option.now)) }
{
    if let Some(value) = words.get_str(option) {
        push_named(message, option, value)?;
    }
    Ok(())
}

/// Adds what follows the subcommand's name.
fn push_values(message: &mut Vec<u8>, words: &ArgMatches<'_>) -> Result<(), AllocError>
    ensures { OnOk result (message.new.items ≡ message.old.items
        ++ flat_map argument (values_sent (given_by words.now))) }
{
    push_value(message, words, "CRATE")?;
    push_value(message, words, "LOGIN")?;
    push_value(message, words, "NAME")?;
    push_value(message, words, "ID")?;
    Ok(())
}

/// Adds the options.
fn push_options(message: &mut Vec<u8>, words: &ArgMatches<'_>) -> Result<(), AllocError>
    ensures { OnOk result (message.new.items ≡ message.old.items
        ++ flat_map argument (options_sent (given_by words.now))) }
{
    push_option(message, words, "name")?;
    push_option(message, words, "endpoints")?;
    push_option(message, words, "patterns")?;
    Ok(())
}

/// The hex digits of a digest.
fn digits_of(digest: &Digest) -> [u8; 64]
    ensures { result ≡ encode_lower digest.now }
{
    let mut digits = [0; 64];
    let _fits = encode_to_slice(digest.as_slice(), &mut digits);
    digits
}

/// Adds the digest of a new token.
fn push_digest(message: &mut Vec<u8>, digest: &Digest) -> Result<(), AllocError>
    ensures { OnOk result (message.new.items ≡ message.old.items
        ++ flat_map argument (digest_sent (Some digest.now))) }
{
    let digits = digits_of(digest);
    message.extend_from_slice(b"--digest\0")?;
    message.extend_from_slice(&digits)?;
    message.push(0)?;
    Ok(())
}

/// Adds the digest of a new token, if one is made.
fn push_made(message: &mut Vec<u8>, made: Option<&TokenMade>) -> Result<(), AllocError>
    ensures { OnOk result (message.new.items ≡ message.old.items
        ++ flat_map argument (digest_sent (option_map (λ m. m.now.digest) made.entry))) }
{
    if let Some(made) = made {
        push_digest(message, &made.digest)?;
    }
    Ok(())
}

/// The message that asks for what the arguments ask for; of a new token its digest.
fn message_of(
    alloc: Global,
    name: &str,
    words: &ArgMatches<'_>,
    made: Option<&TokenMade>,
) -> Result<Vec<u8>, AllocError>
    ensures { IfOk result (λ message. message.items ≡ flat_map argument (sent_words name.now
        (given_by words.now) (option_map (λ m. m.now.digest) made.entry))) }
{
    let mut message = Vec::new(alloc);
    push_argument(&mut message, name)?;
    push_values(&mut message, words)?;
    push_options(&mut message, words)?;
    push_made(&mut message, made)?;
    Ok(message)
}

/// Connects to the server, and sends the message.
fn send(rt: &HostRuntime, path: &str, message: &[u8]) -> Result<UnixStream, Exit> {
    let Ok(mut stream) = UnixStream::connect(rt, path) else {
        return Err(Exit::STORAGE);
    };
    match stream.write_all(message) {
        Ok(()) => {}
        Err(_) => return Err(broken(rt)),
    }
    match stream.shutdown(Shutdown::Write) {
        Ok(()) => Ok(stream),
        Err(_) => Err(broken(rt)),
    }
}

/// All that the server replies.
fn reply_from(rt: &HostRuntime, mut stream: UnixStream) -> Result<Vec<u8>, Exit> {
    let mut reply = Vec::new(rt.alloc());
    match stream.read_to_end(&mut reply) {
        Ok(_) => Ok(reply),
        Err(_) => Err(broken(rt)),
    }
}

/// Whether the text of what was done is whole: each of its lines is.
fn is_whole(text: &[u8]) -> bool
    ensures { result ≡ is_whole text.now }
{
    match text.split_last() {
        Some((last, _)) => *last == b'\n',
        None => true,
    }
}

/// The status and the text of a reply; none if it is not whole.
fn split_reply(reply: &[u8]) -> Option<(u8, &[u8])>
    ensures { IsReply reply.now (option_map (λ it. (it.0, it.1.now)) result) }
{
    match reply {
        [b'0', b'\n', text @ ..] if is_whole(text) => Some((0, text)),
        [b'1', b'\n', text @ ..] => Some((1, text)),
        [b'2', b'\n', text @ ..] => Some((2, text)),
        [b'3', b'\n', text @ ..] => Some((3, text)),
        _ => None,
    }
}

/// Says on standard error why the command was not done.
fn end_refused(rt: &HostRuntime, status: u8, text: &[u8]) -> Exit {
    let _ = eprintln!(rt; "{}", from_utf8(text).unwrap_or("no text"));
    Exit {
        status,
        message: "",
    }
}

/// Prints some bytes.
fn print_bytes(rt: &HostRuntime, bytes: &[u8]) -> Exit {
    print_to(&mut Counted::new(io::writer(rt)), bytes)
}

/// Prints the number of a new token, which a line feed ends, and its text.
fn end_token(rt: &HostRuntime, line: &[u8], token: &TokenText) -> Exit {
    let Some((_, number)) = line.split_last() else {
        return broken(rt);
    };
    let parts: [&[u8]; 4] = [number, b" ", token.as_slice(), b"\n"];
    for part in parts {
        let exit = print_bytes(rt, part);
        if exit != Exit::DONE {
            return exit;
        }
    }
    Exit::DONE
}

/// Prints what was replied to a command that was done; the number of a new token with its text.
fn end_done(rt: &HostRuntime, text: &[u8], token: Option<&TokenText>) -> Exit {
    match token {
        Some(token) => end_token(rt, text, token),
        None => print_bytes(rt, text),
    }
}

/// Ends as the server replied.
fn end_as_replied(rt: &HostRuntime, reply: &[u8], made: Option<&TokenMade>) -> Exit {
    let token = made.and_then(|made| made.text.as_ref());
    match split_reply(reply) {
        Some((0, text)) => end_done(rt, text, token),
        Some((status, text)) => end_refused(rt, status, text),
        None => broken(rt),
    }
}

/// Sends a command, and ends as the server replies.
fn order_made(
    rt: &HostRuntime,
    path: &str,
    name: &str,
    words: &ArgMatches<'_>,
    made: Option<&TokenMade>,
) -> Result<Exit, Exit> {
    let Ok(message) = message_of(rt.alloc(), name, words, made) else {
        return Err(Exit::MEMORY);
    };
    let stream = send(rt, path, &message)?;
    let reply = reply_from(rt, stream)?;
    Ok(end_as_replied(rt, &reply, made))
}

/// Sends the command that the arguments of a subcommand ask for. The text of a new token is made
/// here, and its digest alone is sent.
pub(crate) fn order_at(
    rt: &HostRuntime,
    path: &str,
    name: &str,
    words: &ArgMatches<'_>,
    task: &AdminTask<'_>,
) -> Exit {
    let made = match task {
        AdminTask::AddToken(token) => match make_token(rt, &token.source) {
            Ok(made) => Some(made),
            Err(exit) => return exit,
        },
        _ => None,
    };
    match order_made(rt, path, name, words, made.as_ref()) {
        Ok(exit) | Err(exit) => exit,
    }
}

/// What a server replies once it serves nobody.
const PAUSED: &[u8; 9] = b"0\npaused\n";

/// Reads the beginning of a reply, as long as that to `pause`; the rest as well if it is another.
fn reply_to_pause(rt: &HostRuntime, stream: &mut UnixStream) -> Result<Vec<u8>, Exit> {
    let mut reply = Vec::new(rt.alloc());
    match stream.take(9).read_to_end(&mut reply) {
        Ok(_) if reply.as_slice() == PAUSED.as_slice() => Ok(reply),
        Ok(_) => match stream.read_to_end(&mut reply) {
            Ok(_) => Ok(reply),
            Err(_) => Err(broken(rt)),
        },
        Err(_) => Err(broken(rt)),
    }
}

/// Reads standard input to its end.
fn wait_for_input(rt: &HostRuntime) {
    let _ = io::copy(&mut rt.stdin(), &mut io::sink());
}

/// Whether the server still waits: it has not closed its side.
fn is_still_paused(stream: &mut UnixStream) -> bool {
    let mut byte = [0];
    stream.set_nonblocking(true).is_ok() && stream.read(&mut byte).is_err()
}

fn pause_at(rt: &HostRuntime, path: &str) -> Result<Exit, Exit> {
    let mut stream = send(rt, path, b"pause\0")?;
    let reply = reply_to_pause(rt, &mut stream)?;
    if reply.as_slice() != PAUSED.as_slice() {
        return Ok(end_as_replied(rt, &reply, None));
    }
    let exit = print(rt, "paused\n");
    if exit != Exit::DONE {
        return Ok(exit);
    }
    wait_for_input(rt);
    if is_still_paused(&mut stream) {
        Ok(Exit::DONE)
    } else {
        Err(Exit::STORAGE)
    }
}

/// `pause`. If the server has not waited for the end of standard input, that is a fault.
pub(crate) fn pause(rt: &HostRuntime, words: &ArgMatches<'_>) -> Exit {
    let Some(path) = words.get_str("at") else {
        return Exit::BAD_WORDS;
    };
    match pause_at(rt, path) {
        Ok(exit) | Err(exit) => exit,
    }
}
