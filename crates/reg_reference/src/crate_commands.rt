//! The administrator's commands about crates.

ghost use Rattle.std.specs.Prelude.{◌≡◌};
ghost use Rattle.reg_model.specs.Events.Command.{Reserve as to_reserve, Unreserve as to_unreserve, OwnerAdd as to_owner_add, CrateRestrict as to_restrict, CrateOpen as to_open, ReaderAdd as to_reader_add, ReaderRemove as to_reader_remove};
ghost use Rattle.reg_reference.specs.Plain.{Obeys, both_found, crate_found, login_found, registry_of};

use crate::plain::{CommandReply, PlainRegistry};
use reg_model::AdminRefusal;
use reg_names::{CrateName, canon, parse_name};
use reg_policy::{AdminReply, is_reserved_always};

impl PlainRegistry {
    /// The crate of this name, or a refusal.
    fn known_crate(&self, name: &str) -> Result<CrateName, AdminRefusal>
        ensures { result ≡ crate_found (registry_of self.now) name.now }
    {
        match parse_name(name) {
            Some(name) => {
                if self.publications.exists(&name) {
                    Ok(name)
                } else {
                    Err(AdminRefusal::G8)
                }
            }
            None => Err(AdminRefusal::G8),
        }
    }

    /// The crate and the account of these names, or a refusal.
    fn known_crate_and_login(
        &self,
        name: &str,
        login: &str,
    ) -> Result<(CrateName, u32), AdminRefusal>
        ensures { result ≡ both_found (crate_found (registry_of self.now) name.now)
            (login_found (registry_of self.now) login.now) }
    {
        Ok((self.known_crate(name)?, self.known_login(login)?))
    }

    pub(crate) fn reserve(&mut self, name: &str) -> CommandReply
        ensures { Obeys self.old self.new (to_reserve name.now) result }
    {
        let Some(name) = parse_name(name) else {
            return Err(AdminRefusal::G4);
        };
        if is_reserved_always(&canon(&name)) {
            return Ok(AdminReply::Done);
        }
        match self.reserved.insert(&name) {
            Ok(()) => Ok(AdminReply::Done),
            Err(_) => Err(AdminRefusal::G10),
        }
    }

    pub(crate) fn unreserve(&mut self, name: &str) -> CommandReply
        ensures { Obeys self.old self.new (to_unreserve name.now) result }
    {
        let Some(name) = parse_name(name) else {
            return Err(AdminRefusal::G4);
        };
        self.reserved.remove(&name);
        Ok(AdminReply::Done)
    }

    pub(crate) fn owner_add(&mut self, name: &str, login: &str) -> CommandReply
        ensures { Obeys self.old self.new (to_owner_add name.now login.now) result }
    {
        let (name, id) = self.known_crate_and_login(name, login)?;
        match self.owners.insert_all(self.alloc, &name, &[id]) {
            Ok(()) => Ok(AdminReply::Done),
            Err(_) => Err(AdminRefusal::G10),
        }
    }

    pub(crate) fn crate_restrict(&mut self, name: &str) -> CommandReply
        ensures { Obeys self.old self.new (to_restrict name.now) result }
    {
        let name = self.known_crate(name)?;
        match self.restricted.insert(&name) {
            Ok(()) => Ok(AdminReply::Done),
            Err(_) => Err(AdminRefusal::G10),
        }
    }

    pub(crate) fn crate_open(&mut self, name: &str) -> CommandReply
        ensures { Obeys self.old self.new (to_open name.now) result }
    {
        let name = self.known_crate(name)?;
        self.restricted.remove(&name);
        Ok(AdminReply::Done)
    }

    pub(crate) fn reader_add(&mut self, name: &str, login: &str) -> CommandReply
        ensures { Obeys self.old self.new (to_reader_add name.now login.now) result }
    {
        let (name, id) = self.known_crate_and_login(name, login)?;
        match self.readers.insert(&name, id) {
            Ok(()) => Ok(AdminReply::Done),
            Err(_) => Err(AdminRefusal::G10),
        }
    }

    pub(crate) fn reader_remove(&mut self, name: &str, login: &str) -> CommandReply
        ensures { Obeys self.old self.new (to_reader_remove name.now login.now) result }
    {
        let (name, id) = self.known_crate_and_login(name, login)?;
        self.readers.remove(&name, id);
        Ok(AdminReply::Done)
    }
}
