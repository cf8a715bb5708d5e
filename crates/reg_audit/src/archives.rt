//! The check of the archives, one by one.

ghost use Rattle.std.specs.Prelude.{◌≡◌, false, IfOk, OnOk};
ghost use Rattle.std.specs.List.{list_all};
ghost use Rattle.std.specs.Str.{bytes_eq};
ghost use Rattle.sha2.specs.Sha256.{sha256};
ghost use Rattle.sqlite.specs.State.{HasCleanDisk, IsUnchanged};
ghost use Rattle.reg_tables_sql.specs.Archives.{archives_with_id};
ghost use Rattle.reg_tables.specs.Works.{IsActive, has_failed, seen};
ghost use Rattle.reg_audit.specs.Checks.{is_archive};
ghost use Rattle.reg_tables.specs.Looks.{Looks};

use reg_line::digest_of;
use reg_tables::{Result, Version, Work};
use sqlite::Alter;

fn has_digest(bytes: &[u8], digest: &[u8]) -> bool
    ensures { result ≡ bytes_eq (sha256 bytes.now) digest.now }
{
    digest_of(bytes).as_slice() == digest
}

fn has_archive<S: Alter>(work: &mut Work<'_, S>, version: &Version) -> Result<bool>
    requires { IsActive S.Store work.old }
    ensures found { HasCleanDisk (seen S.Store work.new) → IfOk result
        (λ b. b ≡ is_archive version.now.digest.items
        (archives_with_id version.now.id (seen S.Store work.old).now.trees)) }
    ensures went_on { OnOk result (has_failed work.new ≡ false) }
    ensures same { HasCleanDisk (seen S.Store work.new) → OnOk result
        (IsUnchanged (seen S.Store work.old) (seen S.Store work.new)) }
    ensures looks { Looks S.Store work.old work.new }
{
    match work.archive_with_id(version.id)? {
        None => Ok(false),
        Some(archive) => Ok(has_digest(&archive.bytes, &version.digest)),
    }
}

/// Whether each version has its archive. That there is no other is a rule of the tables.
pub(crate) fn archives_pass<S: Alter>(work: &mut Work<'_, S>, versions: &[Version]) -> Result<bool>
    requires at_work { IsActive S.Store work.old }
    requires goes_on { has_failed work.old ≡ false }
    ensures found { HasCleanDisk (seen S.Store work.new) → IfOk result
        (λ b. b ≡ list_all (λ v. is_archive v.digest.items
        (archives_with_id v.id (seen S.Store work.old).now.trees)) versions.now) }
    ensures went_on { OnOk result (has_failed work.new ≡ false) }
    ensures same { HasCleanDisk (seen S.Store work.new) → OnOk result
        (IsUnchanged (seen S.Store work.old) (seen S.Store work.new)) }
    ensures looks { Looks S.Store work.old work.new }
{
    for version in versions {
        if !has_archive(work, version)? {
            return Ok(false);
        }
    }
    Ok(true)
}
