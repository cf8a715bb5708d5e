//! Words of scripts that are requests.

use reg_body::{JoinFault, join};
use reg_service::{ApiCall, ApiRequest};
use std::alloc::{AllocError, Global};
use std::borrow::{CowSlice, CowStr};
use test_support::examples::SECOND_TOKEN;

/// The text of the token that a script names.
pub(crate) fn token_text(name: &str) -> &str {
    match name {
        "ada" => "abc",
        "bob" => SECOND_TOKEN,
        other => other,
    }
}

/// The token that is shown.
fn token_of(who: &str) -> Option<&[u8]> {
    match who {
        "no-token" => None,
        name => Some(token_text(name).as_bytes()),
    }
}

/// A publish body of metadata and an archive. None is as long as 32 bits do not hold.
fn body_of(alloc: Global, json: &str, archive: &str) -> Result<Vec<u8>, AllocError> {
    match join(alloc, json.as_bytes(), archive.as_bytes()) {
        Ok(body) => Ok(body),
        Err(JoinFault::Memory) => Err(AllocError),
        Err(JoinFault::TooLong) => Ok(Vec::new(alloc)),
    }
}

/// The metadata of a version that has nothing else.
fn plain_json(alloc: Global, name: &str, version: &str) -> Result<String, AllocError> {
    format!(in alloc; "{{\"name\":\"{name}\",\"vers\":\"{version}\"}}")
}

/// The bytes that hexadecimal digits write.
fn raw_body(alloc: Global, digits: &str) -> Result<Vec<u8>, AllocError> {
    match hex::decode(alloc, digits) {
        Ok(bytes) => Ok(bytes),
        Err(_) => Ok(Vec::new(alloc)),
    }
}

/// The body of a publish: `release NAME VERSION` or `release NAME VERSION ARCHIVE`,
/// `publish JSON` or `publish JSON ARCHIVE`, `publish-bytes HEX`; of anything else it is empty.
pub(crate) fn publish_body(alloc: Global, words: &[&str]) -> Result<Vec<u8>, AllocError> {
    match words {
        ["release", name, version] => body_of(alloc, &plain_json(alloc, name, version)?, ""),
        ["release", name, version, archive] => {
            body_of(alloc, &plain_json(alloc, name, version)?, archive)
        }
        ["publish", json] => body_of(alloc, json, ""),
        ["publish", json, archive] => body_of(alloc, json, archive),
        ["publish-bytes", digits] => raw_body(alloc, digits),
        _ => Ok(Vec::new(alloc)),
    }
}

/// A part of a path.
fn part(word: &str) -> CowSlice<'_, u8> {
    CowSlice::Borrowed(word.as_bytes())
}

/// What stands behind the name in a word as `q=a`.
fn value<'a>(word: &'a str, name: &str) -> Option<CowStr<'a>> {
    Some(CowStr::Borrowed(word.strip_prefix(name)?))
}

/// What is read; a search has one word.
fn reading<'a>(words: &[&'a str]) -> Option<ApiCall<'a>> {
    Some(match words {
        ["config"] => ApiCall::Config,
        ["index", path] => ApiCall::Index(part(path)),
        ["download", name, version] => ApiCall::Download(part(name), part(version)),
        ["owners", name] => ApiCall::ListOwners(part(name)),
        ["search", word] => ApiCall::Search {
            q: value(word, "q="),
            per_page: value(word, "per_page="),
        },
        ["search"] => ApiCall::Search {
            q: None,
            per_page: None,
        },
        _ => return None,
    })
}

/// What is changed; a publish has its body beside the words.
fn changing<'a>(words: &[&'a str], body: &'a [u8]) -> Option<ApiCall<'a>> {
    Some(match words {
        ["release", ..] => ApiCall::Publish(body),
        ["publish", ..] => ApiCall::Publish(body),
        ["publish-bytes", ..] => ApiCall::Publish(body),
        ["yank", name, version] => ApiCall::Yank(part(name), part(version)),
        ["unyank", name, version] => ApiCall::Unyank(part(name), part(version)),
        ["add-owners", name, json] => ApiCall::AddOwners(part(name), json.as_bytes()),
        ["remove-owners", name, json] => ApiCall::RemoveOwners(part(name), json.as_bytes()),
        _ => return None,
    })
}

/// The request that words are.
pub(crate) fn request_of<'a>(
    who: &'a str,
    words: &[&'a str],
    body: &'a [u8],
) -> Option<ApiRequest<'a>> {
    let call = reading(words).or(changing(words, body))?;
    Some(ApiRequest {
        token: token_of(who),
        call,
    })
}
