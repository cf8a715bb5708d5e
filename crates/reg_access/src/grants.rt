//! Who may act on a crate: the administrator's report.

ghost use Rattle.std.specs.Prelude.{◌≡◌, ◌&&◌, ◌==◌, [], ◌∷◌, ◌++◌, IfOk, OnOk, cond, flat_map, map};
ghost use Rattle.std.specs.List.{list_any};
ghost use Rattle.reg_model.specs.Rules.{has_endpoint};
ghost use Rattle.reg_access.specs.Grants.{is_right, told_by, told_of};

use reg_model::Endpoint;
use reg_names::{Login, parse_login};
use reg_policy::has_endpoint;
use reg_tables::{Account, TokenRow};
use sqlite::Error;
use std::alloc::{AllocError, Global};

/// A token that may use an endpoint on a crate, and the login of its account.
#[derive(Drop)]
pub struct Grant {
    pub token: u32,
    pub endpoint: Endpoint,
    pub login: Login,
}

/// What stands for or against a token.
#[derive(Clone, Copy)]
struct Rights {
    /// The crate can be created.
    free: bool,
    /// The token's account owns the crate.
    owned: bool,
}

fn is_right(rights: Rights, endpoint: Endpoint) -> bool
    ensures { result ≡ is_right rights.free rights.owned endpoint }
{
    match endpoint {
        Endpoint::PublishNew => rights.free,
        _ => rights.owned,
    }
}

/// Adds this endpoint if the token may use it.
fn add_one(
    list: &mut Vec<Grant>,
    row: &TokenRow,
    login: &Login,
    rights: Rights,
    endpoint: Endpoint,
) -> Result<(), AllocError>
    ensures { OnOk result (map told_of list.new.items ≡ map told_of list.old.items
        ++ cond (has_endpoint row.now.endpoints endpoint
        && is_right rights.free rights.owned endpoint)
        ((row.now.id, endpoint, login.now) ∷ []) []) }
{
    if has_endpoint(&row.endpoints, endpoint) && is_right(rights, endpoint) {
        list.push(Grant {
            token: row.id,
            endpoint,
            login: login.copy(),
        })?;
    }
    Ok(())
}

fn is_owner(owners: &[Account], account: u32) -> bool
    ensures { result ≡ list_any (λ o. o.id == account) owners.now }
{
    owners.iter().any(|owner| owner.id == account)
}

/// Adds what a token may use, given whether the crate can be created.
fn add_of(
    list: &mut Vec<Grant>,
    row: &TokenRow,
    owners: &[Account],
    free: bool,
) -> Result<(), Error>
    ensures { OnOk result (map told_of list.new.items ≡ map told_of list.old.items
        ++ told_by owners.now free row.now) }
{
    let Some(login) = parse_login(&row.login) else {
        return Err(Error::InvalidQuery);
    };
    let rights = Rights {
        free,
        owned: is_owner(owners, row.account),
    };
    add_one(list, row, &login, rights, Endpoint::PublishNew)?;
    add_one(list, row, &login, rights, Endpoint::PublishUpdate)?;
    add_one(list, row, &login, rights, Endpoint::Yank)?;
    add_one(list, row, &login, rights, Endpoint::ChangeOwners)?;
    Ok(())
}

/// What the tokens may use, in order.
pub(crate) fn grants_of(
    alloc: Global,
    rows: &[TokenRow],
    owners: &[Account],
    free: bool,
) -> Result<Vec<Grant>, Error>
    ensures { IfOk result (λ list. map told_of list.items
        ≡ flat_map (told_by owners.now free) rows.now) }
{
    let mut list = Vec::new(alloc);
    for row in rows {
        add_of(&mut list, row, owners, free)?;
    }
    Ok(list)
}
