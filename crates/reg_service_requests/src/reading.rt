//! What requests read.

ghost use Rattle.std.specs.Prelude.{◌≡◌, false};
ghost use Rattle.reg_model.specs.Events.Asked.{Download, Index, ListOwners, Read};
ghost use Rattle.reg_model.specs.Events.Reading.{Config};
ghost use Rattle.reg_tables.specs.Works.{IsActive, has_failed};
ghost use Rattle.reg_service_requests.specs.Granted.{Grants, GrantsOf, GrantsVersion};

use crate::bodies::owners_list;
use crate::served::Served;
use reg_access::FoundCrate;
use reg_api_replies::{Kind, Reply};
use reg_line::config;
use reg_service_index::FoundFile;
use reg_service_steps::find_base;
use reg_tables::{Result, Work};
use sqlite::Alter;
use std::alloc::Global;

/// The config of the registry.
pub(crate) fn read_config<S: Alter>(alloc: Global, work: &mut Work<'_, S>) -> Result<Served>
    requires at_work { IsActive S.Store work.old }
    requires goes_on { has_failed work.old ≡ false }
    ensures { Grants S.Store (Read Config) result work.old work.new }
{
    let base = find_base(work)?;
    match config(alloc, &base) {
        Ok(text) => Ok(Served::ReadOnly(Reply::Done(Kind::Json, text))),
        Err(_) => work.fail(),
    }
}

/// The index file of a crate.
pub(crate) fn find_file<S: Alter>(work: &mut Work<'_, S>, found: &FoundCrate) -> Result<Served>
    requires { IsActive S.Store work.old }
    ensures { GrantsOf found.now S.Store Index result work.old work.new }
{
    match work.summary_of(found.id)? {
        Some(summary) => Ok(Served::Sends(FoundFile {
            crate_id: found.id,
            length: summary.index_length,
        })),
        None => work.fail(),
    }
}

/// The archive of the version with this id.
pub(crate) fn read_archive<S: Alter>(work: &mut Work<'_, S>, version: u64) -> Result<Served>
    requires { IsActive S.Store work.old }
    ensures { GrantsVersion version S.Store Download result work.old work.new }
{
    match work.archive_with_id(version)? {
        Some(archive) => Ok(Served::ReadOnly(Reply::Done(Kind::Archive, archive.bytes))),
        None => work.fail(),
    }
}

/// The owners of a crate.
pub(crate) fn list_owners<S: Alter>(
    alloc: Global,
    work: &mut Work<'_, S>,
    found: &FoundCrate,
) -> Result<Served>
    requires { IsActive S.Store work.old }
    ensures { GrantsOf found.now S.Store ListOwners result work.old work.new }
{
    let owners = work.owners_of(alloc, found.id)?;
    match owners_list(alloc, &owners) {
        Ok(text) => Ok(Served::ReadOnly(Reply::Done(Kind::Json, text))),
        Err(_) => work.fail(),
    }
}
