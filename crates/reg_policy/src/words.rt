//! The texts of refusals.

ghost use Rattle.std.specs.Prelude.{◌≡◌};
ghost use Rattle.reg_policy.specs.Words.{admin_text_of, status_of, text_of};

use reg_body::BodyFault;
use reg_manifest::ManifestFault;
use reg_model::{AdminRefusal, Rule};

/// The status of a refused request (RFC 9110, section 15; 431: RFC 6585, section 5).
pub fn rule_status(rule: Rule) -> u16
    ensures { result ≡ status_of rule }
{
    match rule {
        Rule::H1 => 400,
        Rule::H2 => 431,
        Rule::H3 => 411,
        Rule::H4 => 400,
        Rule::H5 => 413,
        Rule::H6 => 404,
        Rule::H7 => 405,
        Rule::A1 => 401,
        Rule::A2 => 403,
        Rule::A3 => 403,
        Rule::A4 => 403,
        Rule::A6 => 403,
        Rule::A7 => 403,
        Rule::A8 => 404,
        Rule::A9 => 403,
        Rule::A10 => 404,
        Rule::B1 => 400,
        Rule::B2 => 400,
        Rule::B3 => 413,
        Rule::B4 => 400,
        Rule::B5 => 400,
        Rule::N1 => 400,
        Rule::N2 => 409,
        Rule::N3 => 409,
        Rule::V1 => 400,
        Rule::V2 => 409,
        Rule::M1 => 400,
        Rule::L1 => 409,
        Rule::L2 => 409,
        Rule::O1 => 400,
        Rule::O2 => 404,
        Rule::O3 => 400,
        Rule::O4 => 409,
        Rule::Q1 => 400,
        Rule::S1 => 503,
    }
}

/// The text that a refused request gets: the rule's code, a space and words.
pub fn rule_text(rule: Rule) -> &'static str
    ensures { result.now ≡ text_of rule }
{
    match rule {
        Rule::H1 => "H1 bad request head",
        Rule::H2 => "H2 request head too large",
        Rule::H3 => "H3 transfer encoding not accepted",
        Rule::H4 => "H4 bad content length",
        Rule::H5 => "H5 request body too large",
        Rule::H6 => "H6 no such route",
        Rule::H7 => "H7 method not allowed",
        Rule::A1 => "A1 no token",
        Rule::A2 => "A2 unknown token",
        Rule::A3 => "A3 token revoked",
        Rule::A4 => "A4 user disabled",
        Rule::A6 => "A6 endpoint not in token scope",
        Rule::A7 => "A7 crate not in token scope",
        Rule::A8 => "A8 no such crate",
        Rule::A9 => "A9 not an owner of this crate",
        Rule::A10 => "A10 no such version",
        Rule::B1 => BodyFault::Short.words(),
        Rule::B2 => BodyFault::Trailing.words(),
        Rule::B3 => BodyFault::TooLong.words(),
        Rule::B4 => ManifestFault::NotJson.words(),
        Rule::B5 => ManifestFault::Field.words(),
        Rule::N1 => ManifestFault::Name.words(),
        Rule::N2 => "N2 crate name is reserved",
        Rule::N3 => "N3 crate exists under another spelling",
        Rule::V1 => ManifestFault::Version.words(),
        Rule::V2 => "V2 version already published",
        Rule::M1 => ManifestFault::Dependency.words(),
        Rule::L1 => "L1 too many versions",
        Rule::L2 => "L2 too many crates",
        Rule::O1 => "O1 bad owner request",
        Rule::O2 => "O2 no such user",
        Rule::O3 => "O3 user is not an owner",
        Rule::O4 => "O4 no owner would be left",
        Rule::Q1 => "Q1 bad per_page",
        Rule::S1 => "S1 storage or memory",
    }
}

/// The text that a refused command gets: the refusal's code, a space and words.
pub fn admin_text(refusal: AdminRefusal) -> &'static str
    ensures { result.now ≡ admin_text_of refusal }
{
    match refusal {
        AdminRefusal::G1 => "G1 bad login or name",
        AdminRefusal::G2 => "G2 login taken",
        AdminRefusal::G3 => "G3 no such login",
        AdminRefusal::G4 => "G4 bad pattern or crate name",
        AdminRefusal::G5 => "G5 token digest taken",
        AdminRefusal::G6 => "G6 no such token",
        AdminRefusal::G7 => "G7 too many",
        AdminRefusal::G8 => "G8 no such crate",
        AdminRefusal::G9 => "G9 no endpoint",
        AdminRefusal::G10 => "G10 storage or memory",
    }
}
