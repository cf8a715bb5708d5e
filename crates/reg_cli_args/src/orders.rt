//! The command that a subcommand's arguments give.

ghost use Rattle.std.specs.Prelude.{◌≡◌, IfOk, IfSome, map, option_map};
ghost use Rattle.reg_model.specs.Events.Event.{Order as ToOrder};
ghost use Rattle.reg_model.specs.Steps.{IsFit};
ghost use Rattle.reg_policy.specs.Events.{command_of};
ghost use Rattle.reg_cli_args.specs.Orders.{IsFitOrder, account_command, digest_from, given_by, name_command, order_from, ordered_of, pair_command, parts_of, source_given, source_of, token_command, token_words, words_of};

use crate::numbers::token_id;
use clap::ArgMatches;
use hex::decode_to_slice;
use reg_line::Digest;
use reg_policy::AdminCommand;
use std::alloc::{AllocError, Global};

/// Where the text of a new token comes from.
#[derive(Clone, Copy, Drop)]
pub enum TokenSource<'a> {
    /// Its digest was given, and its text is not known here.
    Told(Digest),
    /// Random bytes: the first 32 of this file.
    Random(&'a str),
}

/// A token to be added.
#[derive(Drop)]
pub struct NewToken<'a> {
    login: &'a str,
    endpoints: Vec<&'a str>,
    patterns: Vec<&'a str>,
    pub source: TokenSource<'a>,
}

impl<'a> NewToken<'a> {
    /// The command that adds it, with the digest of its text.
    pub fn command<'b>(&'b self, digest: &'b Digest) -> AdminCommand<'b>
        ensures adds { command_of result ≡ token_command (words_of self.now) digest.now }
        ensures fit { IsFit (ToOrder (command_of result)) }
    {
        AdminCommand::TokenAdd(self.login, &self.endpoints, &self.patterns, digest)
    }
}

/// The command that a subcommand's arguments give.
#[derive(Drop)]
pub enum GivenCommand<'a> {
    AddToken(NewToken<'a>),
    Other(AdminCommand<'a>),
}

/// What a subcommand orders, if its arguments are good; or out of memory.
pub type OrderRead<'a> = std::result::Result<Option<GivenCommand<'a>>, AllocError>;

/// The comma-separated parts of a list; none if no list is given.
fn parts<'a>(alloc: Global, list: Option<&'a str>) -> Result<Vec<&'a str>, AllocError>
    ensures { IfOk result (λ parts. map (λ p. p.now) parts.items
        ≡ parts_of (option_map (λ l. l.now) list.entry)) }
{
    match list {
        Some(list) => list.split(',').collect(alloc),
        None => Ok(Vec::new(alloc)),
    }
}

/// The digest that 64 hex digits encode.
fn told_digest(text: &str) -> Option<Digest>
    ensures { result ≡ digest_from text.now }
{
    let mut digest = [0; 32];
    match decode_to_slice(text, &mut digest) {
        Ok(()) => Some(digest),
        Err(_) => None,
    }
}

/// Where the token's text comes from; none if the digest is malformed.
fn token_source<'a>(words: &ArgMatches<'a>) -> Option<TokenSource<'a>>
    ensures { option_map source_of result ≡ source_given (given_by words.now) }
{
    match words.get_str("digest") {
        Some(text) => Some(TokenSource::Told(told_digest(text)?)),
        None => Some(TokenSource::Random(words.get_str("random").unwrap_or("/dev/urandom"))),
    }
}

/// The arguments of `token-add`.
fn read_token<'a>(alloc: Global, words: &ArgMatches<'a>) -> Result<Option<NewToken<'a>>, AllocError>
    ensures { IfOk result (λ t. option_map words_of t ≡ token_words (given_by words.now)) }
{
    let (Some(login), Some(source)) = (words.get_str("LOGIN"), token_source(words)) else {
        return Ok(None);
    };
    Ok(Some(NewToken {
        login,
        endpoints: parts(alloc, words.get_str("endpoints"))?,
        patterns: parts(alloc, words.get_str("patterns"))?,
        source,
    }))
}

/// A command on an account, a token or a reserved name.
fn on_account<'a>(name: &str, words: &ArgMatches<'a>) -> Option<AdminCommand<'a>>
    ensures orders { option_map command_of result ≡ account_command name.now (given_by words.now) }
    ensures fit { IfSome result (λ c. IsFit (ToOrder (command_of c))) }
{
    match name {
        "user-add" => Some(AdminCommand::UserAdd(words.get_str("LOGIN")?, words.get_str("name"))),
        "user-disable" => Some(AdminCommand::UserDisable(words.get_str("LOGIN")?)),
        "user-enable" => Some(AdminCommand::UserEnable(words.get_str("LOGIN")?)),
        "token-revoke" => Some(AdminCommand::TokenRevoke(token_id(words.get_str("ID")?)?)),
        _ => None,
    }
}

/// A command on a name.
fn on_name<'a>(name: &str, words: &ArgMatches<'a>) -> Option<AdminCommand<'a>>
    ensures orders { option_map command_of result ≡ name_command name.now (given_by words.now) }
    ensures fit { IfSome result (λ c. IsFit (ToOrder (command_of c))) }
{
    match name {
        "reserve" => Some(AdminCommand::Reserve(words.get_str("NAME")?)),
        "unreserve" => Some(AdminCommand::Unreserve(words.get_str("NAME")?)),
        "crate-restrict" => Some(AdminCommand::CrateRestrict(words.get_str("CRATE")?)),
        "crate-open" => Some(AdminCommand::CrateOpen(words.get_str("CRATE")?)),
        _ => None,
    }
}

/// A command on a crate and an account.
fn on_pair<'a>(name: &str, words: &ArgMatches<'a>) -> Option<AdminCommand<'a>>
    ensures orders { option_map command_of result ≡ pair_command name.now (given_by words.now) }
    ensures fit { IfSome result (λ c. IsFit (ToOrder (command_of c))) }
{
    let (of, login) = (words.get_str("CRATE")?, words.get_str("LOGIN")?);
    match name {
        "owner-add" => Some(AdminCommand::OwnerAdd(of, login)),
        "reader-add" => Some(AdminCommand::ReaderAdd(of, login)),
        "reader-remove" => Some(AdminCommand::ReaderRemove(of, login)),
        _ => None,
    }
}

/// The command that this subcommand's arguments give; none if they are bad, or give none.
pub fn read_order<'a>(alloc: Global, name: &str, words: &ArgMatches<'a>) -> OrderRead<'a>
    ensures orders { IfOk result (λ o. option_map ordered_of o
        ≡ order_from name.now (given_by words.now)) }
    ensures fit { IfOk result (λ o. IfSome o IsFitOrder) }
{
    let command = match name {
        "token-add" => {
            return match read_token(alloc, words)? {
                Some(token) => Ok(Some(GivenCommand::AddToken(token))),
                None => Ok(None),
            };
        }
        "owner-add" | "reader-add" | "reader-remove" => on_pair(name, words),
        "user-add" | "user-disable" | "user-enable" | "token-revoke" => on_account(name, words),
        _ => on_name(name, words),
    };
    match command {
        Some(command) => Ok(Some(GivenCommand::Other(command))),
        None => Ok(None),
    }
}
