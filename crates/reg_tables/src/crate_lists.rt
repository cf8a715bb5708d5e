//! Selections of crates and of their versions.

ghost use Rattle.reg_tables_sql.specs.Crates.{AreCrates, IsCrateOfCanon};
ghost use Rattle.reg_tables_sql.specs.Versions.{AreVersionsOf};
ghost use Rattle.reg_tables_represent.specs.Calls.{FindsArchive, FindsCrate, FindsSummary, ListsCrates, ListsVersions, ReachesVersions};
ghost use Rattle.reg_tables.specs.Calling.{Queries};
ghost use Rattle.reg_tables.specs.Works.{IsActive};

use crate::work::{Result, Work, call};
use reg_names::{CanonText, CrateName};
use reg_tables_represent::summaries;
use reg_tables_rows::crate_lists;
use reg_tables_sql::crates::Crate;
use reg_tables_sql::summaries::Summary;
use reg_tables_sql::versions::Version;
use sqlite::Alter;
use std::alloc::Global;

impl<S: Alter> Work<'_, S> {
    /// The crate with this canonical name: its id and its spelling.
    pub fn crate_by_canon(&mut self, text: &CanonText) -> Result<Option<Crate>>
        requires { IsActive S.Store self.old }
        ensures { Queries S.Store self.old self.new result (λ db found.
            IsCrateOfCanon text.now db found × FindsCrate text.now db found) }
    {
        call!(self, crate_lists::find(&mut self.tables.conn, text))
    }

    /// The versions of the crate with this id, oldest first; none if it does not exist.
    pub fn versions_of(&mut self, alloc: Global, crate_id: u32) -> Result<Vec<Version>>
        requires { IsActive S.Store self.old }
        ensures { Queries S.Store self.old self.new result (λ db list.
            AreVersionsOf crate_id db list.items × ListsVersions crate_id db list.items) }
    {
        call!(
            self,
            crate_lists::list(alloc, &mut self.tables.conn, crate_id)
        )
    }

    /// Whether the crate with this id and spelling has at least this many versions.
    pub fn reaches_versions(&mut self, crate_id: u32, name: &CrateName, number: u64) -> Result<bool>
        requires { IsActive S.Store self.old }
        ensures { Queries S.Store self.old self.new result
            (ReachesVersions crate_id name.now number) }
    {
        call!(
            self,
            crate_lists::reaches_versions(&mut self.tables.conn, crate_id, name, number)
        )
    }

    /// The archive of exactly this version of the crate with this id.
    pub fn archive_of(&mut self, crate_id: u32, text: &str) -> Result<Option<Vec<u8>>>
        requires { IsActive S.Store self.old }
        ensures { Queries S.Store self.old self.new result (FindsArchive crate_id text.now) }
    {
        call!(
            self,
            crate_lists::archive(&mut self.tables.conn, crate_id, text)
        )
    }

    /// What is kept about the crate with this id: its highest version, and its index file's length.
    pub fn summary_of(&mut self, crate_id: u32) -> Result<Option<Summary>>
        requires { IsActive S.Store self.old }
        ensures { Queries S.Store self.old self.new result (FindsSummary crate_id) }
    {
        call!(self, summaries::of_crate(&mut self.tables.conn, crate_id))
    }

    /// All crates, by canonical name.
    pub fn all_crates(&mut self, alloc: Global) -> Result<Vec<Crate>>
        requires { IsActive S.Store self.old }
        ensures { Queries S.Store self.old self.new result (λ db list.
            AreCrates db list.items × ListsCrates db list.items) }
    {
        call!(self, crate_lists::all(alloc, &mut self.tables.conn))
    }
}
