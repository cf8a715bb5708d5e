//! The rules on the fields, once each has its kind.

ghost use Rattle.std.specs.Prelude.{◌≡◌, IfOk, is_ok, map, option_map, string_bytes};
ghost use Rattle.std.specs.List.{list_all};
ghost use Rattle.semver.specs.Parse.{req_of};
ghost use Rattle.reg_manifest.specs.Manifests.{dep_view};
ghost use Rattle.reg_manifest.specs.Metadata.{is_given_empty, is_dep, is_kind};
ghost use Rattle.reg_versions.specs.Versions.{is_version};

use crate::manifest::Dep;
use reg_versions::{Release, VersionFault};
use semver::VersionReq;
use std::alloc::{AllocError, Global};

/// Whether a text is a version of SemVer 2.0.0 whose major, minor and patch fit 64 bits.
pub(crate) fn is_version(alloc: Global, text: &str) -> Result<bool, AllocError>
    ensures { IfOk result (λ b. b ≡ is_version text.now) }
{
    match Release::parse(alloc, text) {
        Ok(_) => Ok(true),
        Err(VersionFault::Bad) => Ok(false),
        Err(VersionFault::Memory) => Err(AllocError),
    }
}

fn is_requirement(alloc: Global, text: &str) -> Result<bool, AllocError>
    ensures { IfOk result (λ b. b ≡ is_ok (req_of text.now)) }
{
    match VersionReq::parse(alloc, text) {
        Ok(_) => Ok(true),
        Err(error) => {
            if error == semver::Error::from(AllocError) {
                Err(AllocError)
            } else {
                Ok(false)
            }
        }
    }
}

fn is_kind(kind: &str) -> bool
    ensures { result ≡ is_kind kind.now }
{
    kind == "normal" || kind == "build" || kind == "dev"
}

fn is_given_empty(text: &Option<String>) -> bool
    ensures { result ≡ is_given_empty (option_map string_bytes text.now) }
{
    match text {
        Some(text) => text.is_empty(),
        None => false,
    }
}

#[tactic(auto, unfolding(crate::specs::Metadata::is_dep))]
fn is_dep(alloc: Global, found: &Dep) -> Result<bool, AllocError>
    ensures { IfOk result (λ b. b ≡ is_dep (dep_view found.now)) }
{
    if found.name.is_empty() {
        return Ok(false);
    }
    if is_given_empty(&found.explicit_name_in_toml) {
        return Ok(false);
    }
    if !is_kind(found.kind.as_str()) {
        return Ok(false);
    }
    is_requirement(alloc, found.version_req.as_str())
}

/// Whether each dependency keeps the rules: it has a name, no empty new name, a known kind, and a
/// requirement that `semver` reads.
pub fn are_deps(alloc: Global, deps: &[Dep]) -> Result<bool, AllocError>
    ensures { IfOk result (λ b. b ≡ list_all is_dep (map dep_view deps.now)) }
{
    for found in deps {
        if !is_dep(alloc, found)? {
            return Ok(false);
        }
    }
    Ok(true)
}
