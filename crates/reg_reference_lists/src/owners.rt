//! Who owns which crate, and who reads which.

ghost use Rattle.std.specs.Prelude.{◌≡◌, ◌==◌, ◌&&◌, IfOk, OnErr, OnOk, map};
ghost use Rattle.std.specs.List.{list_any};
ghost use Rattle.std.specs.Str.{bytes_eq};
ghost use Rattle.std.specs.FinSet as set;
ghost use Rattle.reg_names.specs.Names.{canon as canon_of};
ghost use Rattle.reg_model.specs.Effects.{owners_of};
ghost use Rattle.reg_reference_lists.specs.Sets.{owner_by, owner_of};

use reg_names::{CanonText, CrateName, canon};
use reg_policy::same_text;
use std::alloc::{AllocError, Global};
use std::marker::Model;

/// An account that owns a crate, or reads it.
#[derive(Drop)]
pub struct PlainOwner {
    pub crate_text: CanonText,
    pub account: u32,
}

/// A set of owners, or of readers. What the list holds twice counts once.
#[derive(Drop)]
pub struct Owners {
    list: Vec<PlainOwner>,
}

impl Model for Owners {
    ghost use Rattle.std.specs.Prelude.{map};
    ghost use Rattle.std.specs.Coded.{coded_list, coded_ℕ, coded×};
    ghost use Rattle.std.specs.FinSet as set;
    ghost use Rattle.reg_model.specs.Registry.{owner_cmp};

    ghost Value = { set.FinSet owner_cmp };

    ghost coded = { set.code (coded× (coded_list coded_ℕ) coded_ℕ) };

    ghost use Rattle.reg_reference_lists.specs.Sets.{owner_of};

    ghost view = { λ o. set.from_list (map owner_of o.list.items) };
}

/// Whether this is the owner with these parts.
fn is_owner(owner: &PlainOwner, crate_text: &CanonText, account: u32) -> bool
    ensures { result ≡ (bytes_eq owner.now.crate_text crate_text.now
        && (owner.now.account == account)) }
{
    same_text(owner.crate_text.as_str(), crate_text.as_str()) && owner.account == account
}

fn has_owner(owners: &[PlainOwner], crate_text: &CanonText, account: u32) -> bool
    ensures { result ≡ list_any (λ o. bytes_eq o.crate_text crate_text.now
        && (o.account == account)) owners.now }
{
    owners
        .iter()
        .any(|owner| is_owner(owner, crate_text, account))
}

/// Whether this is an owner of the crate and among the accounts.
fn is_among(owner: &PlainOwner, crate_text: &CanonText, accounts: &[u32]) -> bool
    ensures { result ≡ (bytes_eq owner.now.crate_text crate_text.now && list_any
        (λ id. id == owner.now.account) accounts.now) }
{
    same_text(owner.crate_text.as_str(), crate_text.as_str()) && accounts.contains(&owner.account)
}

/// The accounts as owners of the crate.
fn as_owners(
    alloc: Global,
    name: &CrateName,
    accounts: &[u32],
) -> Result<Vec<PlainOwner>, AllocError>
    ensures { IfOk result (λ v. map owner_of v.items ≡ map (owner_by name.now) accounts.now) }
{
    let mut owners = Vec::new(alloc);
    for account in accounts {
        owners.push(PlainOwner {
            crate_text: canon(name),
            account: *account,
        })?;
    }
    Ok(owners)
}

impl Owners {
    /// No owners.
    pub fn new(alloc: Global) -> Owners
        ensures { result ≡ set.empty }
    {
        Owners {
            list: Vec::new(alloc),
        }
    }

    /// Whether the account owns the crate.
    pub fn contains(&self, crate_text: &CanonText, account: u32) -> bool
        ensures { result ≡ set.contains self.now (crate_text.now, account) }
    {
        has_owner(self.list.as_slice(), crate_text, account)
    }

    /// Makes the account an owner of the crate.
    pub fn insert(&mut self, name: &CrateName, account: u32) -> Result<(), AllocError>
        ensures ok { OnOk result (self.new ≡ set.insert self.old (canon_of name.now, account)) }
        ensures err { OnErr result (self.new ≡ self.old) }
    {
        self.list.push(PlainOwner {
            crate_text: canon(name),
            account,
        })?;
        Ok(())
    }

    /// Makes the accounts owners of the crate, all or none.
    pub fn insert_all(
        &mut self,
        alloc: Global,
        name: &CrateName,
        accounts: &[u32],
    ) -> Result<(), AllocError>
        ensures ok { OnOk result (self.new ≡ set.union self.old (owners_of name.now accounts.now)) }
        ensures err { OnErr result (self.new ≡ self.old) }
    {
        let mut added = as_owners(alloc, name, accounts)?;
        self.list.append(&mut added)?;
        Ok(())
    }

    /// Removes the account from the owners of the crate.
    pub fn remove(&mut self, name: &CrateName, account: u32)
        ensures { self.new ≡ set.remove self.old (canon_of name.now, account) }
    {
        let crate_text = canon(name);
        self.list
            .retain(|owner| !is_owner(owner, &crate_text, account));
    }

    /// Removes the accounts from the owners of the crate.
    pub fn remove_all(&mut self, name: &CrateName, accounts: &[u32])
        ensures { self.new ≡ set.difference self.old (owners_of name.now accounts.now) }
    {
        let crate_text = canon(name);
        self.list
            .retain(|owner| !is_among(owner, &crate_text, accounts));
    }
}
