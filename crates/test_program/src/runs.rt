//! The program's words over a file, as scripts: a line for each run, and how it ends behind an
//! arrow, its status and what it says on standard error.

use reg_cli::run_words;
use std::alloc::{AllocError, Global};
use std::test::Fail;
use std::{env, fs, io};

/// The words of a line behind the program's name. `FILE` stands for the test's own file.
pub(super) fn words_of(alloc: Global, line: &str, file: &str) -> Result<Vec<String>, AllocError> {
    let mut words = Vec::new(alloc);
    words.push(String::from_str(alloc, "registry_cli")?)?;
    for word in line.split(' ') {
        words.push(word.replace(alloc, "FILE", file)?)?;
    }
    Ok(words)
}

/// How a run ends.
pub(super) fn ending(rt: &HostRuntime, line: &str, file: &str) -> Result<String, AllocError> {
    let exit = run_words(rt, &words_of(rt.alloc(), line, file)?);
    let (status, words) = (exit.status, exit.message);
    if words.is_empty() {
        return format!(in rt.alloc(); "{status}");
    }
    format!(in rt.alloc(); "{status} {words}")
}

/// The first line that ends otherwise, with its own end; empty where none does.
fn first_fault(rt: &HostRuntime, script: &str, file: &str) -> Result<String, AllocError> {
    for line in script.lines() {
        let (words, end) = line.split_once(" -> ").unwrap_or((line, "no arrow"));
        let found = ending(rt, words, file)?;
        if found.as_str() != end {
            return format!(in rt.alloc(); "{words} -> {found}");
        }
    }
    Ok(String::new(rt.alloc()))
}

/// A file of the test's own, which is not there.
pub(super) fn new_file(rt: &HostRuntime, name: &str) -> io::Result<String> {
    let folder = env::temp_dir(rt)?;
    let folder = folder.to_str().unwrap_or("/tmp");
    let file = format!(in rt.alloc(); "{folder}/registry_cli_{name}")?;
    for end in ["", "-wal", "-shm", "-journal"] {
        let _ = fs::remove_file(rt, format!(in rt.alloc(); "{file}{end}")?.as_str());
    }
    Ok(file)
}

/// Plays a script over a new file; the setup is what a file beside it has, `FILE.setup`.
fn played(rt: &HostRuntime, name: &str, setup: &[u8], script: &str) -> io::Result<String> {
    let file = new_file(rt, name)?;
    let beside = format!(in rt.alloc(); "{file}.setup")?;
    fs::write(rt, beside.as_str(), setup)?;
    Ok(first_fault(rt, script, &file)?)
}

/// The base of the registry.
const NEW: &str = "init --base http://127.0.0.1:8080 --db FILE -> 0\n";

/// Each command of accounts and tokens, with a good and a bad use.
const ACCOUNTS: &str = "user-add ada --name Ada --db FILE -> 0
user-add bob --db FILE -> 0
user-add Ada --db FILE -> 1 G1 bad login or name
user-add ada --db FILE -> 1 G2 login taken
user-add carol --db -> 2
user-disable bob --db FILE -> 0
user-disable carol --db FILE -> 1 G3 no such login
user-enable bob --db FILE -> 0
user-enable carol --db FILE -> 1 G3 no such login
token-add ada --endpoints publish-new,yank --patterns a,b-* --db FILE -> 0
token-add ada --endpoints publish-new --digest \
2bd806c97f0e00af1a1fc3328fa763a9269723c8db8fac4f93af71db186d6e90 \
--db FILE -> 0
token-add bob --endpoints yank --digest \
2BD806C97F0E00AF1A1FC3328FA763A9269723C8DB8FAC4F93AF71DB186D6E90 \
--db FILE -> 1 G5 token digest taken
token-add carol --endpoints yank --db FILE -> 1 G3 no such login
token-add ada --endpoints all --db FILE -> 1 G9 no endpoint
token-add ada --endpoints yank --patterns * --db FILE -> 0
token-add ada --endpoints yank --patterns *a --db FILE -> 1 G4 bad pattern or crate name
token-add ada --endpoints yank --digest 00 --db FILE -> 2 bad words
token-add ada --endpoints yank --random FILE.setup --db FILE -> 3 storage
token-revoke 1 --db FILE -> 0
token-revoke 007 --db FILE -> 1 G6 no such token
token-revoke 4294967296 --db FILE -> 2 bad words
token-revoke +1 --db FILE -> 2 bad words
users --db FILE -> 0
users ada --db FILE -> 2
tokens --db FILE -> 0
tokens -> 2
";

/// Each command of names and crates, and what is done with a whole file.
const NAMES: &str = "reserve acme --db FILE -> 0
reserve 1a --db FILE -> 1 G4 bad pattern or crate name
unreserve acme --db FILE -> 0
unreserve 1a --db FILE -> 1 G4 bad pattern or crate name
owner-add a ada --db FILE -> 1 G8 no such crate
owner-add a --db FILE -> 2
crate-restrict a --db FILE -> 1 G8 no such crate
crate-open a --db FILE -> 1 G8 no such crate
reader-add a ada --db FILE -> 1 G8 no such crate
reader-remove a ada --db FILE -> 1 G8 no such crate
crates --db FILE -> 0
crates --all --db FILE -> 2
access a --db FILE -> 0
access 1a --db FILE -> 1 G4 bad pattern or crate name
audit --db FILE -> 0
audit FILE -> 2
export FILE.index --db FILE -> 0
export --db FILE -> 2
explain A9 -> 0
explain C4 -> 0
explain storage -> 0
explain A5 -> 2 bad words
explain -> 2
explain A9 --db FILE -> 2
--version -> 0
";

#[test]
fn accounts_and_tokens(rt: HostRuntime) -> Result<(), Fail> {
    let script = format!(in rt.alloc(); "{NEW}{ACCOUNTS}")?;
    assert_eq!(rt; played(&rt, "accounts", b"", &script)?.as_str(), "");
    Ok(())
}

#[test]
fn names_and_crates(rt: HostRuntime) -> Result<(), Fail> {
    let script = format!(in rt.alloc(); "{NEW}{NAMES}")?;
    assert_eq!(rt; played(&rt, "names", b"", &script)?.as_str(), "");
    Ok(())
}

#[test]
fn a_file_is_made_once(rt: HostRuntime) -> Result<(), Fail> {
    let script = "users --db FILE -> 3 unknown schema
init --base http://127.0.0.1:8080/ --db FILE -> 1 bad base
init --base http://127.0.0.1:8080 --db FILE -> 0
init --base http://127.0.0.1:8080 --db FILE -> 3 unknown schema
init --db FILE -> 2
users --db FILE -> 0
users --db FILE/no -> 3 storage
serve --port 8080 --connections 0 -> 2
export  --db FILE -> 3 storage
serve --port 0 --connections 0 --db FILE -> 2 bad words
serve --port 65536 --connections 0 --db FILE -> 2 bad words
serve --port 8080 --connections 0 --replies 0 --db FILE -> 2 bad words
serve --port 8080 --connections 18446744073709551616 --db FILE -> 2 bad words
serve --port 0 --connections 0 --trail --db FILE -> 2 bad words
serve --port 8080 --connections 0 --trail=true --db FILE -> 2
serve --port 8080 --connections 0 --trail --trail --db FILE -> 2
audit --trail --db FILE -> 2";
    assert_eq!(rt; played(&rt, "made", b"", script)?.as_str(), "");
    Ok(())
}

/// 32 bytes, of which a token is made; they are no text.
const BYTES: &[u8] = &[0xff; 32];

/// What is read from other files.
const OTHER_FILES: &str = "user-add ada --db FILE -> 0
token-add ada --endpoints yank --random FILE.setup --db FILE -> 0
token-add ada --endpoints yank --random FILE.setup --db FILE -> 1 G5 token digest taken
token-add carol --endpoints yank --random FILE.setup --db FILE -> 1 G3 no such login
token-add carol --endpoints yank --random FILE.none --db FILE -> 3 storage
token-add ada --endpoints yank --random FILE.none --db FILE.new -> 3 unknown schema
pipe --db FILE --setup FILE.setup -> 2 bad setup line
pipe --db FILE --setup FILE.none -> 3 storage
pipe --memory --base r/ --setup FILE.none -> 1 bad base
pipe --memory --setup FILE.none -> 3 storage
pipe --memory --db FILE -> 2
pipe --setup FILE.setup -> 2
";

#[test]
fn other_files(rt: HostRuntime) -> Result<(), Fail> {
    let script = format!(in rt.alloc(); "{NEW}{OTHER_FILES}")?;
    assert_eq!(rt; played(&rt, "others", BYTES, &script)?.as_str(), "");
    Ok(())
}
