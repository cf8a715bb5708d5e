//! The index as files, read in one transaction that keeps nothing.

ghost use Rattle.std.specs.Prelude.{◌≡◌, true, IsErr};
ghost use Rattle.reg_tables.specs.Works.{is_stopped};
ghost use Rattle.reg_service.specs.Answered.{AreUpToDate};
ghost use Rattle.reg_service.specs.Looked.{IsIndex, IsTrueOf, Looked};

use reg_service_commands::export_all;
use reg_tables::{Result, Tables};
use sqlite::Alter;
use std::alloc::Global;

/// The files of the index, each after its path.
pub(crate) fn export_in<S: Alter>(
    alloc: Global,
    tables: &mut Tables<S>,
) -> Result<Vec<(String, Vec<u8>)>>
    requires { AreUpToDate S.Store tables.old }
    ensures exported { IsTrueOf S.Store IsIndex result tables.old tables.new }
    ensures looked { Looked S.Store tables.old tables.new }
    ensures stopped { is_stopped tables.old ≡ true → IsErr result }
{
    let mut work = tables.work()?;
    export_all(alloc, &mut work)
}
