//! How much a registry accepts.

ghost use Rattle.std.specs.Prelude.{◌≡◌, ◌+◌, ◌-◌, ◌^◌, ◌<◌};

/// The limits of a registry and of its streams. What is at its limit is still accepted.
#[derive(Clone, Copy, Debug, PartialEq, Eq)]
pub struct Limits {
    /// Bytes of the JSON of a publish body.
    pub json: u32,
    /// Bytes of the archive of a publish body.
    pub archive: u32,
    /// Bytes of a request's head.
    pub head: u32,
    /// Fields of a request's head.
    pub fields: u32,
    /// Patterns of a token.
    pub patterns: u32,
    /// Logins of an owner request.
    pub logins: u32,
    /// Versions of a crate.
    pub versions: u64,
    /// Accounts of the registry.
    pub accounts: u64,
    /// Tokens of the registry.
    pub tokens: u64,
    /// Crates of the registry.
    pub crates: u64,
    /// Replies of a stream.
    pub replies: u64,
    /// Read and write calls of a stream.
    pub turns: u64,
}

impl Limits {
    /// The limits if none are given.
    pub const STANDARD: Limits = Limits {
        json: 4_194_304,
        archive: 33_554_432,
        head: 16_384,
        fields: 64,
        patterns: 64,
        logins: 32,
        versions: 10_000,
        accounts: 1_000_000,
        tokens: 1_000_000,
        crates: 1_000_000,
        replies: 1_000_000,
        turns: 100_000_000,
    };

    /// How many bytes the largest publish body has; a saturated number is more.
    pub fn greatest_body(&self) -> u64
        ensures value { result ≡ 8 + (self.now.json + self.now.archive) }
        ensures small { result < 2 ^ 64 - 1 }
    {
        8 + self.json as u64 + self.archive as u64
    }
}
