//! The highest of some versions.

ghost use Rattle.std.specs.Prelude.{◌≡◌, [], IfOk, map, slice_get, string_bytes, unwrap_or};
ghost use Rattle.std.specs.Option.{option_map};
ghost use Rattle.reg_service_commands.specs.ReportedCrates.{highest_among, read_version};

use reg_tables::Version;
use reg_versions::{Release, VersionFault, highest};
use sqlite::Error;
use std::alloc::{AllocError, Global};

fn read(alloc: Global, version: &Version) -> Result<(Release, bool), Error>
    ensures { IfOk result (λ r. r ≡ read_version version.now) }
{
    match Release::parse(alloc, version.vers.as_str()) {
        Ok(release) => Ok((release, version.yanked)),
        Err(VersionFault::Bad) => Err(Error::InvalidQuery),
        Err(VersionFault::Memory) => Err(Error::from(AllocError)),
    }
}

fn read_each(alloc: Global, versions: &[Version]) -> Result<Vec<(Release, bool)>, Error>
    ensures { IfOk result (λ v. v.items ≡ map read_version versions.now) }
{
    let mut releases = Vec::new(alloc);
    for version in versions {
        releases.push(read(alloc, version)?)?;
    }
    Ok(releases)
}

fn text_at(versions: &[Version], place: usize) -> &str
    ensures { result.now
        ≡ unwrap_or (option_map (λ v. string_bytes v.vers) (slice_get versions.now place)) [] }
{
    match versions.get(place) {
        Some(version) => version.vers.as_str(),
        None => "",
    }
}

/// The highest of these versions that is not yanked; of all, if all are yanked.
pub(crate) fn highest_of(alloc: Global, versions: &[Version]) -> Result<&str, Error>
    ensures { IfOk result (λ text. text.now ≡ highest_among versions.now) }
{
    let releases = read_each(alloc, versions)?;
    match highest(&releases) {
        Some(place) => Ok(text_at(versions, place)),
        None => Ok(""),
    }
}
