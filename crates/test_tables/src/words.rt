//! Reading a call's words.

use crate::call::{
    AccountCall, Call, CrateCall, NameCall, NewToken, ReaderCall, Release, TextCall, TokenCall,
};
use crate::fault::Fault;
use reg_line::{Digest, digest_of, stem};
use reg_manifest::{Manifest, read_manifest};
use reg_model::Endpoints;
use reg_names::{CanonText, Pattern, canon, parse_name};
use std::alloc::{AllocError, Global};
use test_support::examples::SECOND_TOKEN;

/// The text that a word stands for: none, that of the second token, or its own.
pub(crate) fn text_of(word: &str) -> &str {
    match word {
        "-" => "",
        "second" => SECOND_TOKEN,
        other => other,
    }
}

fn canon_of(name: &str) -> Option<CanonText> {
    Some(canon(&parse_name(name)?))
}

/// A call on an account.
fn one_account<'a>(word: &str, of: &'a str) -> Option<AccountCall<'a>> {
    match word {
        "add-account" => Some(AccountCall::Add(of, None)),
        "account" => Some(AccountCall::ByLogin(of)),
        "enable" => Some(AccountCall::Enable(of.parse().ok()?, true)),
        "disable" => Some(AccountCall::Enable(of.parse().ok()?, false)),
        "reaches-crates" => Some(AccountCall::ReachesCrates(of.parse().ok()?)),
        _ => None,
    }
}

fn account_call<'a>(words: &[&'a str]) -> Option<AccountCall<'a>> {
    match words {
        ["accounts"] => Some(AccountCall::All),
        ["counts"] => Some(AccountCall::Counts),
        ["add-account", login, name] => Some(AccountCall::Add(login, Some(name))),
        [word, of] => one_account(word, of),
        _ => None,
    }
}

/// Of the letters of `nuyo` those that are granted; `-` stands for one that is not.
fn endpoints_of(word: &str) -> Endpoints {
    Endpoints {
        publish_new: word.contains('n'),
        publish_update: word.contains('u'),
        yank: word.contains('y'),
        change_owners: word.contains('o'),
    }
}

fn patterns_of(alloc: Global, word: &str) -> Result<Option<Vec<Pattern>>, AllocError> {
    let mut patterns = Vec::new(alloc);
    for text in word.split(',') {
        match Pattern::parse(text) {
            Some(pattern) => patterns.push(pattern)?,
            None => return Ok(None),
        }
    }
    Ok(Some(patterns))
}

/// A token by its text, account, endpoints and patterns.
fn new_token(alloc: Global, words: &[&str]) -> Result<Option<NewToken>, AllocError> {
    let [text, account, endpoints, patterns] = words else {
        return Ok(None);
    };
    let Ok(account) = account.parse() else {
        return Ok(None);
    };
    let Some(patterns) = patterns_of(alloc, patterns)? else {
        return Ok(None);
    };
    Ok(Some(NewToken {
        digest: digest_of(text_of(text).as_bytes()),
        account,
        endpoints: endpoints_of(endpoints),
        patterns,
    }))
}

fn token_call(alloc: Global, words: &[&str]) -> Result<Option<TokenCall>, AllocError> {
    Ok(match words {
        ["add-token", rest @ ..] => match new_token(alloc, rest)? {
            Some(token) => Some(TokenCall::Add(token)),
            None => None,
        },
        ["revoke", id] => match id.parse() {
            Ok(id) => Some(TokenCall::Revoke(id)),
            Err(_) => None,
        },
        ["token", text] => Some(TokenCall::Find(digest_of(text_of(text).as_bytes()))),
        ["tokens"] => Some(TokenCall::All),
        _ => None,
    })
}

/// The manifest of a version that has its name and number alone.
fn manifest_of(alloc: Global, name: &str, text: &str) -> Result<Manifest, Fault> {
    let json = format!(in alloc; "{{\"name\":\"{name}\",\"vers\":\"{text}\"}}")?;
    Ok(read_manifest(alloc, json.as_bytes())?)
}

/// The stem of its line.
fn stem_of(alloc: Global, name: &str, text: &str, digest: &Digest) -> Result<Vec<u8>, Fault> {
    let manifest = manifest_of(alloc, name, text)?;
    Ok(stem(alloc, &manifest, digest)?)
}

/// A version of a crate, with the stem of its line.
fn release_of<'a>(
    alloc: Global,
    name: &str,
    text: &'a str,
    archive: &'a [u8],
    description: Option<&'a str>,
) -> Result<Release<'a>, Fault> {
    let digest = digest_of(archive);
    Ok(Release {
        text,
        description,
        stem: stem_of(alloc, name, text, &digest)?,
        digest,
        archive,
    })
}

/// A version by its text, archive and, where one is given, description.
fn release<'a>(alloc: Global, name: &str, words: &[&'a str]) -> Result<Option<Release<'a>>, Fault> {
    let (text, archive, description) = match words {
        [text, archive] => (*text, *archive, None),
        [text, archive, description] => (*text, *archive, Some(*description)),
        _ => return Ok(None),
    };
    let archive = text_of(archive).as_bytes();
    Ok(Some(release_of(alloc, name, text, archive, description)?))
}

fn new_crate<'a>(
    alloc: Global,
    name: &str,
    account: &str,
    words: &[&'a str],
) -> Result<Option<CrateCall<'a>>, Fault> {
    let Some(release) = release(alloc, name, words)? else {
        return Ok(None);
    };
    match (parse_name(name), account.parse()) {
        (Some(name), Ok(account)) => Ok(Some(CrateCall::Add(name, account, release))),
        _ => Ok(None),
    }
}

fn new_version<'a>(
    alloc: Global,
    id: &str,
    name: &str,
    words: &[&'a str],
) -> Result<Option<CrateCall<'a>>, Fault> {
    let Some(release) = release(alloc, name, words)? else {
        return Ok(None);
    };
    match id.parse() {
        Ok(id) => Ok(Some(CrateCall::AddVersion(id, release))),
        Err(_) => Ok(None),
    }
}

/// A call on a version.
fn old_version<'a>(word: &str, id: u32, text: &'a str) -> Option<CrateCall<'a>> {
    match word {
        "yank" => Some(CrateCall::Yank(id, text, true)),
        "unyank" => Some(CrateCall::Yank(id, text, false)),
        "archive" => Some(CrateCall::Archive(id, text)),
        _ => None,
    }
}

/// A call that reads what is there by an id.
fn by_id<'a>(word: &str, id: u32) -> Option<CrateCall<'a>> {
    match word {
        "versions" => Some(CrateCall::Versions(id)),
        "summary" => Some(CrateCall::Summary(id)),
        "archive-id" => Some(CrateCall::ArchiveWithId(u64::from(id))),
        _ => None,
    }
}

fn old_crate<'a>(words: &[&'a str]) -> Option<CrateCall<'a>> {
    match words {
        ["crates"] => Some(CrateCall::All),
        [word, id] => by_id(word, id.parse().ok()?),
        [word, id, text] => old_version(word, id.parse().ok()?, text),
        _ => None,
    }
}

fn crate_call<'a>(alloc: Global, words: &[&'a str]) -> Result<Option<CrateCall<'a>>, Fault> {
    match words {
        ["add-crate", name, account, rest @ ..] => new_crate(alloc, name, account, rest),
        ["add-version", id, name, rest @ ..] => new_version(alloc, id, name, rest),
        _ => Ok(old_crate(words)),
    }
}

/// A call on a name.
fn named_call(word: &str, name: &str) -> Option<NameCall> {
    let name = canon_of(name)?;
    match word {
        "crate" => Some(NameCall::Crate(name)),
        "reserve" => Some(NameCall::Reserve(name)),
        "unreserve" => Some(NameCall::Unreserve(name)),
        "reserved" => Some(NameCall::IsReserved(name)),
        _ => None,
    }
}

/// A call on an owner.
fn owner_call(word: &str, id: u32, account: u32) -> Option<NameCall> {
    match word {
        "add-owner" => Some(NameCall::AddOwner(id, account)),
        "remove-owner" => Some(NameCall::RemoveOwner(id, account)),
        _ => None,
    }
}

fn name_call(words: &[&str]) -> Option<NameCall> {
    match words {
        ["owners", id] => Some(NameCall::Owners(id.parse().ok()?)),
        [word, name] => named_call(word, name),
        [word, id, account] => owner_call(word, id.parse().ok()?, account.parse().ok()?),
        _ => None,
    }
}

/// A call on a crate that may be restricted.
fn restricting(word: &str, id: u32) -> Option<ReaderCall> {
    match word {
        "restrict" => Some(ReaderCall::Restrict(id, true)),
        "open" => Some(ReaderCall::Restrict(id, false)),
        "restricted" => Some(ReaderCall::IsRestricted(id)),
        "readers" => Some(ReaderCall::All(id)),
        _ => None,
    }
}

/// A call on a reader.
fn one_reader(word: &str, id: u32, account: u32) -> Option<ReaderCall> {
    match word {
        "add-reader" => Some(ReaderCall::Add(id, account)),
        "remove-reader" => Some(ReaderCall::Remove(id, account)),
        _ => None,
    }
}

fn reader_call(words: &[&str]) -> Option<ReaderCall> {
    match words {
        [word, id] => restricting(word, id.parse().ok()?),
        [word, id, account] => one_reader(word, id.parse().ok()?, account.parse().ok()?),
        _ => None,
    }
}

fn text_call<'a>(words: &[&'a str]) -> Option<TextCall<'a>> {
    Some(match words {
        ["all-rows"] => TextCall::AllRows,
        ["logins"] => TextCall::Logins,
        ["id-of", login] => TextCall::IdOf(login),
        _ => return None,
    })
}

/// A call that is read with no memory.
fn short_call<'a>(words: &[&'a str]) -> Option<Call<'a>> {
    if let Some(call) = account_call(words) {
        return Some(Call::Account(call));
    }
    if let Some(call) = reader_call(words) {
        return Some(Call::Reader(call));
    }
    if let Some(call) = name_call(words) {
        return Some(Call::Name(call));
    }
    Some(Call::Text(text_call(words)?))
}

fn call_of<'a>(alloc: Global, words: &[&'a str]) -> Result<Option<Call<'a>>, Fault> {
    if let Some(call) = short_call(words) {
        return Ok(Some(call));
    }
    if let Some(call) = token_call(alloc, words)? {
        return Ok(Some(Call::Token(call)));
    }
    match crate_call(alloc, words)? {
        Some(call) => Ok(Some(Call::Crate(call))),
        None => Ok(None),
    }
}

/// The call that these words are; none where they are no call's.
pub fn read_call<'a>(alloc: Global, line: &'a str) -> Result<Option<Call<'a>>, Fault> {
    let words: Vec<&str> = line.split(' ').collect(alloc)?;
    call_of(alloc, &words)
}
