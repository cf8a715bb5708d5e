//! The versions of a crate, parsed, and the publication at a place.

ghost use Rattle.std.specs.Prelude.{◌≡◌, [], IfOk, map, slice_get, string_bytes};
ghost use Rattle.std.specs.Option.{option_map};
ghost use Rattle.std.specs.FinSet as set;
ghost use Rattle.reg_versions.specs.Versions.{parts_of};
ghost use Rattle.reg_reference_lists.specs.Publications.{publication_of};

use crate::publications::Publication;
use crate::yanked::Marks;
use reg_names::CanonText;
use reg_versions::{Release, VersionFault};
use std::alloc::{AllocError, Global};

fn release_of(alloc: Global, version: &str) -> Result<Release, AllocError>
    ensures { IfOk result (λ r. r ≡ parts_of version.now) }
{
    match Release::parse(alloc, version) {
        Ok(release) => Ok(release),
        Err(VersionFault::Bad) => zero(alloc),
        Err(VersionFault::Memory) => Err(AllocError),
    }
}

/// The stand-in for a text that is no version.
fn zero(alloc: Global) -> Result<Release, AllocError>
    ensures { IfOk result (λ r. r ≡ (0, 0, 0, [], [])) }
{
    match Release::parse(alloc, "0.0.0") {
        Ok(release) => Ok(release),
        Err(_) => Err(AllocError),
    }
}

pub(crate) fn publication_at<'a>(list: &[&'a Publication], place: usize) -> Option<&'a Publication>
    ensures { option_map (λ p. publication_of p.now) result ≡ option_map (λ p. publication_of p.now)
        (slice_get list.now place) }
{
    match list.get(place) {
        Some(publication) => Some(publication),
        None => None,
    }
}

/// The parsed versions of a crate's publications, with their marks.
pub(crate) fn releases(
    alloc: Global,
    list: &[&Publication],
    crate_text: &CanonText,
    yanked: &Marks,
) -> Result<Vec<(Release, bool)>, AllocError>
    ensures { IfOk result (λ v. v.items ≡ map (λ p. (
      parts_of (string_bytes p.now.version),
      set.contains yanked.now (crate_text.now, string_bytes p.now.version),
    )) list.now) }
{
    let mut releases = Vec::new(alloc);
    for publication in list {
        let version = publication.version.as_str();
        let release = release_of(alloc, version)?;
        releases.push((release, yanked.contains(crate_text, version)))?;
    }
    Ok(releases)
}
