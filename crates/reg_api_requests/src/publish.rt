//! The body of a publish request.

ghost use Rattle.std.specs.Prelude.{◌≡◌, IfErr, IfOk, map, true, string_cmp, MatchResult};
ghost use Rattle.std.specs.BTreeMap.{IsOrdered};
ghost use Rattle.sha2.specs.Sha256.{sha256};
ghost use Rattle.reg_manifest.specs.Manifests.{manifest_view};
ghost use Rattle.reg_manifest.specs.Metadata.{keeps_rules, metadata_of};
ghost use Rattle.reg_model.specs.Steps.{IsGenuine};
ghost use Rattle.reg_api_requests.specs.Bodies.{body_parts};
ghost use Rattle.reg_api_requests.specs.Faults.{IsOwn};
ghost use Rattle.reg_policy.specs.Events.{publication_of as new_publication};
ghost use Rattle.reg_api_requests.specs.Publish.{Reads, publication_of, publish_of, with_metadata};

use crate::fault::RequestFault;
use reg_body::{BodyFault, Limits, split};
use reg_line::{digest_of, stem};
use reg_manifest::{Manifest, read_manifest};
use reg_policy::NewPublication;
use std::alloc::{AllocError, Global};

/// The JSON and the archive of a publish body.
fn parts<'a>(limits: &Limits, body: &'a [u8]) -> Result<(&'a [u8], &'a [u8]), BodyFault>
    ensures { MatchResult result
        (λ p. body_parts limits.now body.now ≡ Ok (p.0.now, p.1.now))
        (λ fault. body_parts limits.now body.now ≡ Err fault) }
{
    split(body, limits)
}

/// The version that a manifest and an archive make.
fn with_stem<'a>(
    alloc: Global,
    manifest: Manifest,
    archive: &'a [u8],
) -> Result<NewPublication<'a>, AllocError>
    requires { keeps_rules (manifest_view manifest) ≡ true }
    ensures made { IfOk result (λ r. new_publication r
        ≡ publication_of archive.now (manifest_view manifest)) }
    ensures genuine { IfOk result (λ r. IsGenuine (new_publication r)) }
{
    let digest = digest_of(archive);
    let stem = stem(alloc, &manifest, &digest)?;
    Ok(NewPublication {
        name: manifest.name,
        version: manifest.vers,
        description: manifest.description,
        stem,
        digest,
        archive,
    })
}

/// The version of some metadata and an archive.
fn read_metadata<'a>(
    alloc: Global,
    json: &[u8],
    archive: &'a [u8],
) -> Result<NewPublication<'a>, RequestFault>
    ensures read { Reads new_publication result (with_metadata archive.now (metadata_of json.now)) }
    ensures genuine { IfOk result (λ r. IsGenuine (new_publication r)) }
    ensures own { IfErr result IsOwn }
{
    let manifest = read_manifest(alloc, json)?;
    Ok(with_stem(alloc, manifest, archive)?)
}

/// The version that a body publishes.
#[tactic(auto, unfolding(crate::specs::Publish::publish_of))]
pub(crate) fn read_publish<'a>(
    alloc: Global,
    limits: &Limits,
    body: &'a [u8],
) -> Result<NewPublication<'a>, RequestFault>
    ensures read { Reads new_publication result (publish_of limits.now body.now) }
    ensures genuine { IfOk result (λ r. IsGenuine (new_publication r)) }
    ensures own { IfErr result IsOwn }
{
    let (json, archive) = parts(limits, body)?;
    read_metadata(alloc, json, archive)
}
