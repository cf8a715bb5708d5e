//! Accounts, whose ids are their places counted from 1.

ghost use Rattle.std.specs.Prelude.{◌≡◌, ◌≤◌, ◌++◌, [], ◌∷◌, IfOk, OnErr, OnOk, filter_map, is_some, length, map, string_bytes};
ghost use Rattle.std.specs.List.{position};
ghost use Rattle.std.specs.Str.{bytes_eq};
ghost use Rattle.reg_model.specs.Registry.{change_at, holds, with_id};
ghost use Rattle.reg_model.specs.Crates.{is_among};
ghost use Rattle.reg_model.specs.Effects.{owner_entry};
ghost use Rattle.reg_reference_lists.specs.Accounts.{account_of, id_in, is_known_in, login_in, owned};
ghost use Rattle.reg_policy.specs.Rows.{id_and_login, row_view};
ghost use Rattle.reg_policy.specs.Events.{entry_of};

use crate::owners::Owners;
use reg_names::{CanonText, Login};
use reg_policy::{OwnerEntry, OwnerRow, same_text};
use std::alloc::{AllocError, Global};
use std::marker::Model;

/// An account.
#[derive(Drop)]
pub struct PlainAccount {
    pub login: Login,
    pub name: Option<String>,
    pub enabled: bool,
}

/// Accounts, few enough for 32-bit ids.
#[derive(Drop)]
pub struct Accounts {
    list: Vec<PlainAccount>,
}

impl Model for Accounts {
    ghost use Rattle.std.specs.Prelude.{List, ◌≤◌, length, map};
    ghost use Rattle.reg_model.specs.Registry as model;

    ghost Value = { List model.Account };

    ghost use Rattle.reg_reference_lists.specs.Accounts.{account_of};

    ghost view = { λ a. map account_of a.list.items };

    ghost invariant = { λ a. length a.list.items ≤ 4294967295 };
}

fn has_login(account: &PlainAccount, login: &str) -> bool
    ensures { result ≡ bytes_eq account.now.login login.now }
{
    same_text(account.login.as_str(), login)
}

fn place_of(accounts: &[PlainAccount], login: &str) -> Option<usize>
    ensures { result ≡ position (λ a. bytes_eq a.login login.now) accounts.now }
{
    accounts
        .iter()
        .position(|account| has_login(account, login))
}

impl Accounts {
    /// No accounts.
    pub fn new(alloc: Global) -> Accounts
        ensures { result ≡ [] }
    {
        Accounts {
            list: Vec::new(alloc),
        }
    }

    /// How many accounts there are.
    pub fn len(&self) -> usize
        ensures value { result ≡ length self.now }
        ensures fits { result ≤ 4294967295 }
    {
        self.list.len()
    }

    /// All accounts, by id.
    pub fn as_slice(&self) -> &[PlainAccount]
        ensures accounts { map account_of result.now ≡ self.now }
        ensures fits { length result.now ≤ 4294967295 }
    {
        self.list.as_slice()
    }

    /// The login of the account with this id, or an empty text.
    pub fn login(&self, id: u32) -> &str
        ensures { result.now ≡ login_in self.now id }
    {
        if id == 0 {
            return "";
        }
        match self.list.get(id as usize - 1) {
            Some(account) => account.login.as_str(),
            None => "",
        }
    }

    /// The id of the account with this login.
    pub fn id_of(&self, login: &str) -> Option<u32>
        ensures { result ≡ id_in self.now login.now }
    {
        match place_of(&self.list, login) {
            Some(place) => Some(place as u32 + 1),
            None => None,
        }
    }

    /// Whether there is an account with this id.
    pub fn has(&self, id: u32) -> bool
        ensures { result ≡ is_some (with_id self.now id) }
    {
        id != 0 && id as usize <= self.list.len()
    }

    /// Whether the account exists and is among the owners of a crate, or its readers.
    pub fn is_among(&self, owners: &Owners, crate_text: &CanonText, account: u32) -> bool
        ensures { result ≡ is_among (owned owners.now crate_text.now self.now) account }
    {
        self.has(account) && owners.contains(crate_text, account)
    }

    /// Whether the account with this id exists and is enabled.
    pub fn is_enabled(&self, id: u32) -> bool
        ensures { result ≡ holds (λ a. a.enabled) (with_id self.now id) }
    {
        if id == 0 {
            return false;
        }
        match self.list.get(id as usize - 1) {
            Some(account) => account.enabled,
            None => false,
        }
    }

    /// Whether an enabled account has this login.
    pub fn is_known(&self, login: &str) -> bool
        ensures { result ≡ is_known_in self.now login.now }
    {
        match self.id_of(login) {
            Some(id) => self.is_enabled(id),
            None => false,
        }
    }

    fn each_known(&self, alloc: Global, logins: &[String]) -> Result<Vec<bool>, AllocError>
        ensures { IfOk result (λ v. v.items
            ≡ map (λ l. is_known_in self.now (string_bytes l)) logins.now) }
    {
        logins
            .iter()
            .map(|login| self.is_known(login))
            .collect(alloc)
    }

    /// For each login, whether an enabled account has it.
    pub fn known(&self, alloc: Global, logins: &[String]) -> Result<Vec<bool>, AllocError>
        ensures { IfOk result (λ v. v.items ≡ map (is_known_in self.now)
            (map string_bytes logins.now)) }
    {
        self.each_known(alloc, logins)
    }

    fn ids_found(&self, alloc: Global, logins: &[String]) -> Result<Vec<u32>, AllocError>
        ensures { IfOk result (λ v. v.items
            ≡ filter_map (λ l. id_in self.now (string_bytes l)) logins.now) }
    {
        logins
            .iter()
            .filter_map(|login| self.id_of(login))
            .collect(alloc)
    }

    /// The ids of the accounts with these logins.
    pub fn ids_of(&self, alloc: Global, logins: &[String]) -> Result<Vec<u32>, AllocError>
        ensures { IfOk result (λ v. v.items ≡ filter_map (id_in self.now)
            (map string_bytes logins.now)) }
    {
        self.ids_found(alloc, logins)
    }

    /// The ids and logins of the accounts that own a crate, by id.
    pub fn owner_rows(
        &self,
        alloc: Global,
        owners: &Owners,
        crate_text: &CanonText,
    ) -> Result<Vec<OwnerRow>, AllocError>
        ensures { IfOk result (λ v. map row_view v.items ≡ map id_and_login
            (owned owners.now crate_text.now self.now)) }
    {
        let mut rows = Vec::new(alloc);
        let mut id = 0;
        for account in &self.list {
            id += 1;
            if owners.contains(crate_text, id) {
                rows.push(OwnerRow {
                    id,
                    login: account.login.as_str(),
                })?;
            }
        }
        Ok(rows)
    }

    /// The ids of the accounts that read a crate, in their order.
    pub fn reader_ids(
        &self,
        alloc: Global,
        readers: &Owners,
        crate_text: &CanonText,
    ) -> Result<Vec<u32>, AllocError>
        ensures { IfOk result (λ v. v.items ≡ map (λ o. o.0)
            (owned readers.now crate_text.now self.now)) }
    {
        let mut ids = Vec::new(alloc);
        let mut id = 0;
        for _account in &self.list {
            id += 1;
            if readers.contains(crate_text, id) {
                ids.push(id)?;
            }
        }
        Ok(ids)
    }

    /// The accounts that own a crate, by id, as owner lists show them.
    pub fn owner_entries(
        &self,
        alloc: Global,
        owners: &Owners,
        crate_text: &CanonText,
    ) -> Result<Vec<OwnerEntry>, AllocError>
        ensures { IfOk result (λ v. map entry_of v.items ≡ map owner_entry
            (owned owners.now crate_text.now self.now)) }
    {
        let mut entries = Vec::new(alloc);
        let mut id = 0;
        for account in &self.list {
            id += 1;
            if owners.contains(crate_text, id) {
                entries.push(entry(alloc, id, account)?)?;
            }
        }
        Ok(entries)
    }

    /// Adds an account. If 32 bits do not hold its id, there is no room.
    pub fn add(&mut self, account: PlainAccount) -> Result<(), AllocError>
        ensures ok { OnOk result (self.new ≡ self.old ++ account_of account ∷ []) }
        ensures err { OnErr result (self.new ≡ self.old) }
    {
        if self.list.len() >= u32::MAX as usize {
            return Err(AllocError);
        }
        self.list.push(account)?;
        Ok(())
    }

    /// Enables or disables the account with this id.
    pub fn enable(&mut self, id: u32, enabled: bool)
        ensures { self.new ≡ change_at (λ a. record a { enabled = enabled }) id self.old }
    {
        if id == 0 {
            return;
        }
        if let Some(account) = self.list.get_mut(id as usize - 1) {
            account.enabled = enabled;
        }
    }
}

fn entry(alloc: Global, id: u32, account: &PlainAccount) -> Result<OwnerEntry, AllocError>
    ensures { IfOk result (λ e. entry_of e ≡ owner_entry (id, account_of account.now)) }
{
    let name = match &account.name {
        Some(name) => Some(String::from_str(alloc, name.as_str())?),
        None => None,
    };
    Ok(OwnerEntry {
        id,
        login: account.login.copy(),
        name,
    })
}
