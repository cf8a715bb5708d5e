//! The line of a manifest, and its stem.

ghost use Rattle.std.specs.Prelude.{◌≡◌, IfOk, OnOk, false, string_cmp};
ghost use Rattle.std.specs.BTreeMap.{IsOrdered};
ghost use Rattle.serde_json.specs.View.{members_view, view};
ghost use Rattle.serde_json.specs.Written.{compact_text, has_float};
ghost use Rattle.reg_manifest.specs.Manifests.{manifest_view};
ghost use Rattle.reg_line.specs.Line.{IsStem, line_data, line_json, line_text, short_members};
ghost use Rattle.reg_line.specs.Parts.{manifest_members, newer_members};

use crate::digests::{Digest, hex_text};
use crate::features::feature_maps;
use crate::values::{dep_values, put_text, put_text_or_null};
use reg_manifest::Manifest;
use serde_json::{Map, Value, put};
use std::alloc::{AllocError, Global};

/// Puts into a line what the manifest says, features aside.
fn put_manifest(
    line: &mut Map<String, Value>,
    alloc: Global,
    manifest: &Manifest,
) -> Result<(), AllocError>
    ensures { OnOk result (members_view line.new.entries
        ≡ manifest_members (manifest_view manifest.now) (members_view line.old.entries)) }
{
    let deps = Value::Array(dep_values(alloc, &manifest.deps)?);
    put(line, alloc, "deps", deps)?;
    put_text_or_null(line, alloc, "links", manifest.links.as_deref())?;
    put_text(line, alloc, "name", manifest.name.as_str())?;
    let rust_version = manifest.rust_version.as_deref();
    put_text_or_null(line, alloc, "rust_version", rust_version)?;
    put_text(line, alloc, "vers", manifest.vers.as_str())
}

/// The members of a line, newer features aside.
fn members(
    alloc: Global,
    manifest: &Manifest,
    features: Map<String, Value>,
    cksum: &str,
    yanked: bool,
) -> Result<Map<String, Value>, AllocError>
    ensures { IfOk result (λ line. members_view line.entries
        ≡ short_members (members_view features.entries) (manifest_view manifest.now) cksum.now
        yanked) }
{
    let mut line = Map::new(alloc);
    put(&mut line, alloc, "features", Value::Object(features))?;
    put_manifest(&mut line, alloc, manifest)?;
    put_text(&mut line, alloc, "cksum", cksum)?;
    put(&mut line, alloc, "yanked", Value::Bool(yanked))?;
    Ok(line)
}

/// Puts the newer features into a line, and the format that they need.
fn put_newer(
    alloc: Global,
    line: &mut Map<String, Value>,
    newer: Map<String, Value>,
) -> Result<(), AllocError>
    ensures { OnOk result (members_view line.new.entries
        ≡ newer_members (members_view newer.entries) (members_view line.old.entries)) }
{
    put(line, alloc, "features2", Value::Object(newer))?;
    put(line, alloc, "v", Value::from(2u64))
}

#[tactic(auto, unfolding(crate::specs::Line::line_data))]
fn line_value(
    alloc: Global,
    manifest: &Manifest,
    digest: &Digest,
    yanked: bool,
) -> Result<Value, AllocError>
    ensures value { IfOk result (λ v. view v
        ≡ line_data (manifest_view manifest.now) digest.now yanked) }
    ensures ordered { IsOrdered string_cmp manifest.now.features }
{
    let (older, newer) = feature_maps(alloc, &manifest.features)?;
    let cksum = hex_text(alloc, digest)?;
    let mut line = members(alloc, manifest, older, cksum.as_str(), yanked)?;
    if newer.is_empty() {
        return Ok(Value::Object(line));
    }
    put_newer(alloc, &mut line, newer)?;
    Ok(Value::Object(line))
}

/// The text of a value without floats.
fn write_value(alloc: Global, value: &Value) -> Result<Vec<u8>, AllocError>
    requires { has_float (view value.now) ≡ false }
    ensures { IfOk result (λ text. text.items ≡ compact_text (view value.now)) }
{
    value.to_vec(alloc)
}

/// The line without its line feed.
pub(crate) fn line_json(
    alloc: Global,
    manifest: &Manifest,
    digest: &Digest,
    yanked: bool,
) -> Result<Vec<u8>, AllocError>
    ensures text { IfOk result (λ v. v.items
        ≡ line_json (manifest_view manifest.now) digest.now yanked) }
    ensures ordered { IsOrdered string_cmp manifest.now.features }
{
    let value = line_value(alloc, manifest, digest, yanked)?;
    write_value(alloc, &value)
}

/// The index line, with its line feed, of a manifest whose archive has this digest.
pub fn line(
    alloc: Global,
    manifest: &Manifest,
    digest: &Digest,
    yanked: bool,
) -> Result<Vec<u8>, AllocError>
    ensures { IfOk result (λ v. v.items
        ≡ line_text (manifest_view manifest.now) digest.now yanked) }
{
    let mut text = line_json(alloc, manifest, digest, yanked)?;
    text.push(b'\n')?;
    Ok(text)
}

/// How many bytes follow the stem of a line that is not yanked, its line feed aside: `false}`.
const END_OF_LINE: usize = 6;

/// The stem of the line: all of it up to the value of `yanked`.
pub fn stem(alloc: Global, manifest: &Manifest, digest: &Digest) -> Result<Vec<u8>, AllocError>
    ensures stem { IfOk result (λ v. IsStem (manifest_view manifest.now) digest.now v.items) }
    ensures ordered { IsOrdered string_cmp manifest.now.features }
{
    let mut text = line_json(alloc, manifest, digest, false)?;
    let end = text.len().saturating_sub(END_OF_LINE);
    text.truncate(end);
    Ok(text)
}
