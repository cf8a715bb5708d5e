//! The reasons to refuse a request or a command. The names are the codes that the program prints.

ghost use Rattle.std.specs.Prelude.{◌≡◌};

use reg_body::BodyFault;
use reg_manifest::ManifestFault;

/// A rule that a request can break.
#[derive(Clone, Copy, Debug, PartialEq, Eq)]
pub enum Rule {
    /// a bad request head
    H1,
    /// a request head that is too large
    H2,
    /// a transfer encoding
    H3,
    /// a bad content length
    H4,
    /// a request body that is too large
    H5,
    /// no route
    H6,
    /// a method that the route lacks
    H7,
    /// no token
    A1,
    /// an unknown token
    A2,
    /// a revoked token
    A3,
    /// a disabled account
    A4,
    /// an endpoint that the token lacks
    A6,
    /// a crate that no pattern of the token covers
    A7,
    /// no such crate
    A8,
    /// the token's account is no owner
    A9,
    /// no such version
    A10,
    /// a publish body that is too short
    B1,
    /// a publish body with bytes after it
    B2,
    /// metadata or an archive that is too long
    B3,
    /// metadata that is not JSON
    B4,
    /// a field of the metadata that is missing or of the wrong kind
    B5,
    /// a bad crate name
    N1,
    /// a reserved crate name
    N2,
    /// another spelling of a crate's name
    N3,
    /// a bad version
    V1,
    /// a release that is already published
    V2,
    /// a bad dependency
    M1,
    /// too many versions
    L1,
    /// too many crates
    L2,
    /// a bad owner request
    O1,
    /// a login that no enabled account has
    O2,
    /// a login that no owner has
    O3,
    /// a removal that would leave no owner
    O4,
    /// a bad `per_page`
    Q1,
    /// memory or the store failed
    S1,
}

/// The reasons to refuse a command of the administrator.
#[derive(Clone, Copy, Debug, PartialEq, Eq)]
pub enum AdminRefusal {
    /// a bad login or name
    G1,
    /// a login that is taken
    G2,
    /// no such login
    G3,
    /// a bad pattern or crate name
    G4,
    /// a token digest that is taken
    G5,
    /// no such token
    G6,
    /// too many
    G7,
    /// no such crate
    G8,
    /// no endpoint, or a word that names none
    G9,
    /// memory or the store failed
    G10,
}

impl From<BodyFault> for Rule {
    ghost use Rattle.reg_model.specs.Faults.{rule_of_body};

    ghost from_gives = { λ fault rule. rule ≡ rule_of_body fault };

    fn from(fault: BodyFault) -> Rule {
        match fault {
            BodyFault::Short => Rule::B1,
            BodyFault::Trailing => Rule::B2,
            BodyFault::TooLong => Rule::B3,
        }
    }
}

impl From<ManifestFault> for Rule {
    ghost use Rattle.reg_model.specs.Faults.{rule_of_manifest};

    ghost from_gives = { λ fault rule. rule ≡ rule_of_manifest fault };

    fn from(fault: ManifestFault) -> Rule {
        match fault {
            ManifestFault::NotJson => Rule::B4,
            ManifestFault::Field => Rule::B5,
            ManifestFault::Name => Rule::N1,
            ManifestFault::Version => Rule::V1,
            ManifestFault::Dependency => Rule::M1,
            ManifestFault::Memory => Rule::S1,
        }
    }
}
