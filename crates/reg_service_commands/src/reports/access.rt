//! The report on who may act on a crate, and who reads it.

ghost use Rattle.std.specs.Prelude.{◌≡◌, ◌++◌, IfOk, OnOk, string_bytes};
ghost use Rattle.std.specs.List.{flat_map};
ghost use Rattle.reg_model.specs.Reports.{access_text};
ghost use Rattle.reg_tables.specs.Works.{IsActive};
ghost use Rattle.reg_tables.specs.Calling.{Queries};
ghost use Rattle.reg_service_commands.specs.Reports.{Reports, line_of_grant, line_of_reader};

use reg_access::{Grant, who_may, who_reads};
use reg_names::{CrateName, Login};
use reg_policy::{push_grant_line, push_reader_line};
use reg_tables::{Result, Work};
use sqlite::Alter;
use std::alloc::{AllocError, Global};

fn push_grants(report: &mut String, grants: &[Grant]) -> Result<(), AllocError>
    ensures { OnOk result (string_bytes report.new
        ≡ string_bytes report.old ++ flat_map line_of_grant grants.now) }
{
    for grant in grants {
        push_grant_line(report, grant.token, grant.endpoint, grant.login.as_str())?;
    }
    Ok(())
}

fn push_reader(report: &mut String, reader: &(u32, Login)) -> Result<(), AllocError>
    ensures { OnOk result (string_bytes report.new
        ≡ string_bytes report.old ++ line_of_reader reader.now) }
{
    let (_, login) = reader;
    push_reader_line(report, login.as_str())
}

fn push_readers(report: &mut String, readers: &[(u32, Login)]) -> Result<(), AllocError>
    ensures { OnOk result (string_bytes report.new
        ≡ string_bytes report.old ++ flat_map line_of_reader readers.now) }
{
    for reader in readers {
        push_reader(report, reader)?;
    }
    Ok(())
}

fn lines_of(alloc: Global, grants: &[Grant], readers: &[(u32, Login)]) -> Result<String, AllocError>
    ensures { IfOk result (λ text. string_bytes text
        ≡ flat_map line_of_grant grants.now ++ flat_map line_of_reader readers.now) }
{
    let mut report = String::new(alloc);
    push_grants(&mut report, grants)?;
    push_readers(&mut report, readers)?;
    Ok(report)
}

/// A line for each token and endpoint that may be used on a crate, by token and then by endpoint;
/// then, if it is restricted, one for each of its readers, by id.
pub(crate) fn access_report<S: Alter>(
    alloc: Global,
    work: &mut Work<'_, S>,
    name: &CrateName,
) -> Result<String>
    requires { IsActive S.Store work.old }
    ensures { Queries S.Store work.old work.new result (Reports (λ s. access_text s name.now)) }
{
    let grants = who_may(alloc, work, name)?;
    let readers = who_reads(alloc, work, name)?;
    match lines_of(alloc, &grants, &readers) {
        Ok(text) => Ok(text),
        Err(_) => work.fail(),
    }
}
