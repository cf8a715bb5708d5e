//! The arguments of `serve`.

ghost use Rattle.std.specs.Prelude.{◌≡◌};
ghost use Rattle.reg_cli_args.specs.Orders.{given_by};
ghost use Rattle.reg_cli_run.specs.Services.{number_in, port_in, replies_in, service_from, trail_in, writes_of};

use clap::ArgMatches;
use reg_body::Limits;
use reg_cli_args::{decimal, port};

/// The arguments of `serve`: where to listen, for how many connections, how many replies each has
/// at most, and whether a trail is kept.
#[derive(Clone, Copy)]
pub struct Service {
    pub port: u16,
    pub connections: u64,
    pub replies: u64,
    pub trail: bool,
}

impl Service {
    /// The limits of its streams.
    pub fn limits(&self) -> Limits
        ensures { result ≡ record Limits.STANDARD { replies = self.now.replies } }
    {
        Limits {
            replies: self.replies,
            ..Limits::STANDARD
        }
    }

    /// How many writes its trail takes: no end of them, or none if no trail is kept.
    pub fn writes(&self) -> u64
        ensures { result ≡ writes_of self.now }
    {
        if self.trail { u64::MAX } else { 0 }
    }
}

fn read_number(words: &ArgMatches<'_>, name: &str) -> Option<u64>
    ensures { result ≡ number_in (given_by words.now) name.now }
{
    decimal(words.get_str(name)?)
}

fn read_port(words: &ArgMatches<'_>) -> Option<u16>
    ensures { result ≡ port_in (given_by words.now) }
{
    port(read_number(words, "port")?)
}

fn read_replies(words: &ArgMatches<'_>) -> Option<u64>
    ensures { result ≡ replies_in (given_by words.now) }
{
    match decimal(words.get_str("replies").unwrap_or("1")) {
        Some(0) => None,
        replies => replies,
    }
}

fn read_trail(words: &ArgMatches<'_>) -> bool
    ensures { result ≡ trail_in (given_by words.now) }
{
    words.get_str("trail") == Some("true")
}

/// What the arguments of `serve` say.
pub fn read_service(words: &ArgMatches<'_>) -> Option<Service>
    ensures { result ≡ service_from (given_by words.now) }
{
    Some(Service {
        port: read_port(words)?,
        connections: read_number(words, "connections")?,
        replies: read_replies(words)?,
        trail: read_trail(words),
    })
}
