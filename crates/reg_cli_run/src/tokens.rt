//! The texts of new tokens.

ghost use Rattle.std.specs.Prelude.{◌≡◌, IfSome};
ghost use Rattle.std.specs.Io.KnownBytes.{Consumes};
ghost use Rattle.hex.specs.Hex.{encode_lower};
ghost use Rattle.reg_cli_args.specs.Orders.{source_of};
ghost use Rattle.reg_cli_run.specs.Tokens.{IsTokenOf, Makes};

use hex::encode_to_slice;
use reg_cli_args::TokenSource;
use reg_cli_line::Exit;
use reg_line::{Digest, digest_of};
use std::fs;
use std::io::Read;

/// How many random bytes make a token's text.
const RANDOM: usize = 32;

/// The text of a token: 64 lower-case hex digits.
pub type TokenText = [u8; 64];

/// The digest of a token, and its text if known here.
#[derive(Drop)]
pub struct TokenMade {
    pub digest: Digest,
    pub text: Option<TokenText>,
}

/// The first bytes from a reader.
fn first_bytes<R: Read>(from: &mut R) -> Option<[u8; RANDOM]>
    ensures { IfSome result (Consumes (R.remaining from.old) (R.remaining from.new)) }
{
    let mut bytes = [0; RANDOM];
    match from.read_exact(&mut bytes) {
        Ok(()) => Some(bytes),
        Err(_) => None,
    }
}

/// The first bytes of a file.
fn random_bytes(rt: &HostRuntime, file: &str) -> Option<[u8; RANDOM]> {
    first_bytes(&mut fs::open(rt, file).ok()?)
}

/// The text of random bytes: their hex digits.
fn text_of(bytes: [u8; RANDOM]) -> TokenText
    ensures { result ≡ encode_lower bytes }
{
    let mut text = [0; 64];
    let _fits = encode_to_slice(bytes.as_slice(), &mut text);
    text
}

/// The token of a text that is made here.
fn token_of(text: TokenText) -> TokenMade
    ensures { IsTokenOf text result }
{
    TokenMade {
        digest: digest_of(&text),
        text: Some(text),
    }
}

/// The digest of a new token, made from random bytes if it is not given.
pub fn make_token(rt: &HostRuntime, source: &TokenSource<'_>) -> Result<TokenMade, Exit>
    ensures { Makes (source_of source.now) result }
{
    match source {
        TokenSource::Told(digest) => Ok(TokenMade {
            digest: *digest,
            text: None,
        }),
        TokenSource::Random(file) => match random_bytes(rt, file) {
            Some(bytes) => Ok(token_of(text_of(bytes))),
            None => Err(Exit::STORAGE),
        },
    }
}
