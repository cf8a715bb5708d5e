//! Whether bytes are the stem of some manifest's line.

ghost use Rattle.std.specs.Prelude.{◌≡◌, ◌↔◌, ◌++◌, codes, IfOk, IsTrue, string_cmp, true};
ghost use Rattle.std.specs.BTreeMap.{IsOrdered};
ghost use Rattle.reg_names.specs.Names.{is_name};
ghost use Rattle.reg_manifest.specs.Manifests.{manifest_view};
ghost use Rattle.reg_manifest.specs.Metadata.{keeps_rules};
ghost use Rattle.reg_manifest.specs.Parsing.{Gives};
ghost use Rattle.reg_line.specs.StemCheck.{IsStemOf, fits, stem_read};

use crate::digests::Digest;
use crate::line_read::read_line;
use crate::lines::line_json;
use reg_manifest::{Manifest, ManifestFault, are_deps};
use reg_versions::{Release, VersionFault};
use std::alloc::{AllocError, Global};

#[tactic(auto, unfolding(reg_manifest::specs::Metadata::keeps_rules))]
fn keeps_rules(alloc: Global, manifest: &Manifest) -> Result<bool, AllocError>
    requires { is_name manifest.now.name ≡ true }
    ensures { IfOk result (λ b. b ≡ keeps_rules (manifest_view manifest.now)) }
{
    match Release::parse(alloc, manifest.vers.as_str()) {
        Ok(_) => are_deps(alloc, &manifest.deps),
        Err(VersionFault::Bad) => Ok(false),
        Err(VersionFault::Memory) => Err(AllocError),
    }
}

#[tactic(auto, unfolding(crate::specs::StemCheck::fits))]
fn fits(
    alloc: Global,
    manifest: &Manifest,
    whole: &[u8],
    name: &str,
    vers: &str,
    digest: &Digest,
) -> Result<bool, AllocError>
    ensures answer { IfOk result (λ b. b
        ≡ fits (manifest_view manifest.now) whole.now name.now vers.now digest.now) }
    ensures ordered { IfOk result (λ b. IsTrue b → IsOrdered string_cmp manifest.now.features) }
{
    if manifest.name.as_str() != name {
        return Ok(false);
    }
    if manifest.vers.as_str() != vers {
        return Ok(false);
    }
    if !keeps_rules(alloc, manifest)? {
        return Ok(false);
    }
    Ok(line_json(alloc, manifest, digest, false)?.as_slice() == whole)
}

/// The unyanked line of a stem, without its line feed.
fn whole_line(alloc: Global, stem: &[u8]) -> Result<Vec<u8>, AllocError>
    ensures { IfOk result (λ line. line.items ≡ stem.now ++ codes "false}") }
{
    let mut whole = Vec::new(alloc);
    whole.extend_from_slice(stem)?;
    whole.extend_from_slice(b"false}")?;
    Ok(whole)
}

#[tactic(auto, unfolding(crate::specs::StemCheck::stem_read))]
fn read_stem(
    alloc: Global,
    stem: &[u8],
    name: &str,
    vers: &str,
    digest: &Digest,
) -> Result<bool, ManifestFault>
    ensures answer { Gives (λ b. b) result (stem_read stem.now name.now vers.now digest.now) }
    ensures stem_of { IfOk result (λ b. IsTrue b → IsStemOf stem.now name.now vers.now digest.now) }
{
    let whole = whole_line(alloc, stem)?;
    let manifest = read_line(alloc, whole.as_slice())?;
    Ok(fits(alloc, &manifest, whole.as_slice(), name, vers, digest)?)
}

/// Whether bytes are the stem of some manifest's line. The manifest must keep the rules of metadata
/// and have this name and version. Its archive must have this digest.
pub fn check_stem(
    alloc: Global,
    stem: &[u8],
    name: &str,
    vers: &str,
    digest: &Digest,
) -> Result<bool, AllocError>
    ensures { IfOk result (λ b. IsTrue b ↔ IsStemOf stem.now name.now vers.now digest.now) }
{
    match read_stem(alloc, stem, name, vers, digest) {
        Ok(answer) => Ok(answer),
        Err(fault) => match fault {
            ManifestFault::Memory => Err(AllocError),
            _ => Ok(false),
        },
    }
}
