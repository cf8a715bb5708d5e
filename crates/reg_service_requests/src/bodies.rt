//! The bodies of what requests read from the tables.

ghost use Rattle.std.specs.Prelude.{◌≡◌, ◌∷◌, [], ◌++◌, IfOk, OnOk, map};
ghost use Rattle.reg_api_replies.specs.Bodies.{owners_body};
ghost use Rattle.reg_service_steps.specs.Reads.{owner_of_account};

use reg_api_replies::OwnersBody;
use reg_tables::Account;
use std::alloc::{AllocError, Global};

fn push_owner(body: &mut OwnersBody, owner: &Account) -> Result<(), AllocError>
    ensures { OnOk result (body.new ≡ body.old ++ owner_of_account owner.now ∷ []) }
{
    let name = match &owner.name {
        Some(name) => Some(name.as_str()),
        None => None,
    };
    body.push(owner.id, owner.login.as_str(), name)
}

/// The list of these owners.
pub(crate) fn owners_list(alloc: Global, owners: &[Account]) -> Result<Vec<u8>, AllocError>
    ensures { IfOk result
        (λ text. text.items ≡ owners_body (map owner_of_account owners.now)) }
{
    let mut body = OwnersBody::new(alloc);
    for owner in owners {
        push_owner(&mut body, owner)?;
    }
    body.finish()
}
