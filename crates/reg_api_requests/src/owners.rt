//! The body of a request that changes owners.

ghost use Rattle.std.specs.Prelude.{◌≡◌, IfOk, map, string_bytes};
ghost use Rattle.std.specs.Option.{option_map};
ghost use Rattle.serde_json.specs.View.{view};
ghost use Rattle.reg_manifest.specs.Parsing.{Gives};
ghost use Rattle.reg_api_requests.specs.Owners.{counted, logins_named, users_in, users_of};

use reg_body::Limits;
use reg_manifest::ManifestFault;
use reg_manifest::fields::{field, members, read_json, texts};
use serde_json::Value;
use std::alloc::{AllocError, Global};

fn check_count(limits: &Limits, users: Vec<String>) -> Result<Vec<String>, ManifestFault>
    ensures { Gives (λ v. map string_bytes v.items) result
        (counted limits.now (map string_bytes users.items)) }
{
    if users.is_empty() || users.len() > limits.logins as usize {
        return Err(ManifestFault::Field);
    }
    Ok(users)
}

#[tactic(auto, unfolding(crate::specs::Owners::users_of))]
fn users(alloc: Global, limits: &Limits, value: &Value) -> Result<Vec<String>, ManifestFault>
    ensures { Gives (λ v. map string_bytes v.items) result (users_of limits.now (view value.now)) }
{
    members(value)?;
    let Some(users) = field(value, "users") else {
        return Err(ManifestFault::Field);
    };
    let users = texts(alloc, users)?;
    check_count(limits, users)
}

#[tactic(auto, unfolding(crate::specs::Owners::users_in))]
fn read_users(alloc: Global, limits: &Limits, body: &[u8]) -> Result<Vec<String>, ManifestFault>
    ensures { Gives (λ v. map string_bytes v.items) result
        (users_in limits.now body.now) }
{
    let value = read_json(alloc, body)?;
    users(alloc, limits, &value)
}

/// The logins that an owner request names, or none if its body is bad.
pub(crate) fn read_logins(
    alloc: Global,
    limits: &Limits,
    body: &[u8],
) -> Result<Option<Vec<String>>, AllocError>
    ensures { IfOk result (λ o. option_map (λ v. map string_bytes v.items) o
        ≡ logins_named limits.now body.now) }
{
    match read_users(alloc, limits, body) {
        Ok(users) => Ok(Some(users)),
        Err(fault) => match fault {
            ManifestFault::Memory => Err(AllocError),
            _ => Ok(None),
        },
    }
}
