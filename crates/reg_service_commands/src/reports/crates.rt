//! The report on the crates.

ghost use Rattle.std.specs.Prelude.{◌≡◌, ◌++◌, false, OnOk, length, string_bytes};
ghost use Rattle.reg_model.specs.Reports.{crate_line, crates_text};
ghost use Rattle.reg_tables.specs.Works.{IsActive, has_failed};
ghost use Rattle.reg_tables.specs.Calling.{Queries};
ghost use Rattle.reg_service_commands.specs.ReportedCrates.{AddsLine, HasLines, highest_among};
ghost use Rattle.reg_service_commands.specs.Reports.{Reports};

use crate::reports::versions::highest_of;
use reg_policy::push_crate_line;
use reg_tables::{Crate, Result, Version, Work};
use sqlite::{Alter, Error};
use std::alloc::Global;

fn push_versions(report: &mut String, name: &str, versions: &[Version]) -> Result<(), Error>
    ensures { OnOk result (string_bytes report.new ≡ string_bytes report.old
        ++ crate_line name.now (length versions.now) (highest_among versions.now)) }
{
    let highest = highest_of(*report.allocator(), versions)?;
    push_crate_line(report, name, versions.len(), highest)?;
    Ok(())
}

/// Asks for the versions of a crate and adds its line.
fn add_line<S: Alter>(
    alloc: Global,
    work: &mut Work<'_, S>,
    report: &mut String,
    listed: &Crate,
) -> Result<()>
    requires { IsActive S.Store work.old }
    ensures { Queries S.Store work.old work.new result
        (λ db _. AddsLine listed.now (string_bytes report.old) (string_bytes report.new) db) }
{
    let versions = work.versions_of(alloc, listed.id)?;
    match push_versions(report, listed.name.as_str(), &versions) {
        Ok(()) => Ok(()),
        Err(_) => work.fail(),
    }
}

fn lines_of<S: Alter>(alloc: Global, work: &mut Work<'_, S>, crates: &[Crate]) -> Result<String>
    requires at_work { IsActive S.Store work.old }
    requires goes_on { has_failed work.old ≡ false }
    ensures { Queries S.Store work.old work.new result
        (λ db text. HasLines crates.now crates.now (string_bytes text) db) }
{
    let mut report = String::new(alloc);
    for listed in crates {
        add_line(alloc, work, &mut report, listed)?;
    }
    Ok(report)
}

/// A line for each crate, by canonical text.
pub(crate) fn crates_report<S: Alter>(alloc: Global, work: &mut Work<'_, S>) -> Result<String>
    requires { IsActive S.Store work.old }
    ensures { Queries S.Store work.old work.new result (Reports crates_text) }
{
    let crates = work.all_crates(alloc)?;
    lines_of(alloc, work, &crates)
}
