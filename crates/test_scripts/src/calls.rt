//! Lines of scripts that are calls of a registry.

ghost use Rattle.std.specs.Prelude.{IfSome};
ghost use Rattle.reg_model.specs.Events.Event.{Order};
ghost use Rattle.reg_model.specs.Steps.{IsFit};
ghost use Rattle.reg_policy.specs.Events.{command_of as order_of};
ghost use Rattle.reg_service.specs.Sequences.{IsFitCall};

use crate::requests::{publish_body, request_of, token_text};
use reg_line::{Digest, digest_of};
use reg_policy::AdminCommand;
use reg_service::{ApiRequest, Call, Registry, Response};
use sqlite::Alter;
use std::alloc::{AllocError, Global};
use test_support::orders::{command_of, parts};

/// What the call of a line borrows: its words, the body of a publish, and of a token that is added
/// the endpoints, the patterns and the digest.
#[derive(Drop)]
pub struct Parts<'a> {
    words: Vec<&'a str>,
    body: Vec<u8>,
    endpoints: Vec<&'a str>,
    patterns: Vec<&'a str>,
    digest: Digest,
}

/// What stands between the words of a line: `|` where a word has a space.
fn separator(line: &str) -> char {
    if line.contains('|') { '|' } else { ' ' }
}

/// The endpoints, the patterns and the text of a token that is added; of other words none.
fn token_words<'a>(words: &[&'a str]) -> [&'a str; 3] {
    match words {
        ["token-add", _, endpoints, patterns, token] => [endpoints, patterns, token],
        _ => ["-", "-", ""],
    }
}

/// The words without the first.
fn words_behind<'w, 'a>(words: &'w [&'a str]) -> &'w [&'a str] {
    match words {
        [_, behind @ ..] => behind,
        [] => &[],
    }
}

impl<'a> Parts<'a> {
    pub fn read(alloc: Global, line: &'a str) -> Result<Parts<'a>, AllocError> {
        let words: Vec<&str> = line.split(separator(line)).collect(alloc)?;
        let body = publish_body(alloc, words_behind(&words))?;
        let [endpoints, patterns, token] = token_words(&words);
        Ok(Parts {
            body,
            endpoints: parts(alloc, endpoints)?,
            patterns: parts(alloc, patterns)?,
            digest: digest_of(token_text(token).as_bytes()),
            words,
        })
    }

    /// The adding of a token of this account.
    fn token_add<'p>(&'p self, login: &'p str) -> Option<AdminCommand<'p>>
        ensures { IfSome result (λ c. IsFit (Order (order_of c))) }
    {
        if self.digest.as_slice().len() != 32 {
            return None;
        }
        Some(AdminCommand::TokenAdd(login, &self.endpoints, &self.patterns, &self.digest))
    }

    /// The command, if it is one.
    pub fn command(&self) -> Option<AdminCommand<'_>>
        ensures { IfSome result (λ c. IsFit (Order (order_of c))) }
    {
        match self.words.as_slice() {
            ["token-add", login, _, _, _] => self.token_add(login),
            words => command_of(words),
        }
    }

    /// The request, if it is one.
    pub fn request(&self) -> Option<ApiRequest<'_>> {
        match self.words.as_slice() {
            [who, wanted @ ..] => request_of(who, wanted, &self.body),
            [] => None,
        }
    }
}

impl Parts<'_> {
    /// The call, if it is one.
    pub fn call(&self) -> Option<Call<'_>>
        ensures { IfSome result IsFitCall }
    {
        if let Some(command) = self.command() {
            return Some(Call::Command(command));
        }
        Some(Call::Request(self.request()?))
    }
}

/// What a registry answers; none where the line is no call.
pub fn answer<S: Alter>(
    alloc: Global,
    registry: &mut Registry<S>,
    parts: &Parts<'_>,
) -> Option<Response> {
    if let Some(command) = parts.command() {
        return Some(Response::Command(registry.command(alloc, &command)));
    }
    let request = parts.request()?;
    Some(Response::Reply(registry.handle(alloc, &request)))
}
