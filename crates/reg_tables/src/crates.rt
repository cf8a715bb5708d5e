//! Calls on crates and their versions.

ghost use Rattle.reg_tables_represent.specs.Calls.{AddsFirst, AddsNext, SetsYanked, TellsOtherMark};
ghost use Rattle.reg_tables.specs.Calling.{UpdatesBy, Updates, Sets};
ghost use Rattle.reg_tables.specs.Works.{IsActive};

use crate::work::{Result, Work, call};
use reg_names::CrateName;
use reg_tables_represent::crates::{self, NewVersion};
use sqlite::Alter;

impl<S: Alter> Work<'_, S> {
    /// Adds a crate with its first version and its owner, and returns its id.
    pub fn add_crate(
        &mut self,
        name: &CrateName,
        owner: u32,
        version: &NewVersion<'_>,
    ) -> Result<u32>
        requires { IsActive S.Store self.old }
        ensures { Updates S.Store self.old self.new result (AddsFirst name.now owner version.now) }
    {
        call!(
            self,
            crates::add_new(&mut self.tables.conn, name, owner, version)
        )
    }

    /// Adds a version to an existing crate.
    pub fn add_version(&mut self, crate_id: u32, version: &NewVersion<'_>) -> Result<()>
        requires { IsActive S.Store self.old }
        ensures { UpdatesBy S.Store self.old self.new result (AddsNext crate_id version.now) }
    {
        call!(
            self,
            crates::add_next(&mut self.tables.conn, crate_id, version)
        )
    }

    /// Yanks or unyanks a version of a crate, and returns whether it had the other mark. If it is
    /// not there, nothing changes.
    pub fn set_yanked(&mut self, crate_id: u32, text: &str, yanked: bool) -> Result<bool>
        requires { IsActive S.Store self.old }
        ensures { Sets S.Store self.old self.new result (SetsYanked crate_id text.now yanked)
            (TellsOtherMark crate_id text.now yanked) }
    {
        call!(
            self,
            crates::mark(&mut self.tables.conn, crate_id, text, yanked)
        )
    }
}
