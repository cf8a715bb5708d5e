//! A line's value, read back into a manifest without a description.

ghost use Rattle.std.specs.Prelude.{◌≡◌, codes, map, option_map, string_bytes};
ghost use Rattle.serde_json.specs.View.{items_view, view};
ghost use Rattle.reg_manifest.specs.Fields.{each, field};
ghost use Rattle.reg_manifest.specs.Manifests.{dep_view, feature_view, manifest_view};
ghost use Rattle.reg_manifest.specs.Parsing.{Gives};
ghost use Rattle.reg_line.specs.LineRead.{about_from, about_view, bytes_from, dep_from, features_from, line_from, name_from, new_name, origin_from, origin_view, own_name};

use reg_manifest::fields::{
    features_or_empty, field, flag_or, list_or_empty, lists_onto, members, optional_text,
    read_json, required_text, texts_or_empty,
};
use reg_manifest::{Dep, Manifest, ManifestFault};
use reg_names::{CrateName, parse_name};
use serde_json::Value;
use std::alloc::Global;
use std::collections::BTreeMap;

/// The package's own name and its new one, from the line's `name` and `package`.
fn names(name: String, own: Option<String>) -> (String, Option<String>)
    ensures own { string_bytes result.0
        ≡ own_name (string_bytes name) (option_map string_bytes own) }
    ensures new { option_map string_bytes result.1
        ≡ new_name (string_bytes name) (option_map string_bytes own) }
{
    match own {
        Some(own) => (own, Some(name)),
        None => (name, None),
    }
}

/// Where a dependency comes from, what of it is wanted, and what it is for.
#[derive(Drop)]
struct Origin {
    own: Option<String>,
    registry: Option<String>,
    req: String,
    target: Option<String>,
}

/// What else is said about a version.
#[derive(Drop)]
struct VersionFields {
    links: Option<String>,
    name: CrateName,
    rust_version: Option<String>,
    vers: String,
}

#[tactic(auto, unfolding(crate::specs::LineRead::origin_from))]
fn read_origin(alloc: Global, value: &Value) -> Result<Origin, ManifestFault>
    ensures { Gives origin_view result (origin_from (view value.now)) }
{
    let own = optional_text(alloc, value, "package")?;
    let registry = optional_text(alloc, value, "registry")?;
    let req = required_text(alloc, value, "req")?;
    let target = optional_text(alloc, value, "target")?;
    Ok(Origin {
        own,
        registry,
        req,
        target,
    })
}

#[tactic(auto, unfolding(crate::specs::LineRead::dep_from))]
fn read_dep(alloc: Global, value: &Value) -> Result<Dep, ManifestFault>
    ensures { Gives dep_view result (dep_from (view value.now)) }
{
    members(value)?;
    let default_features = flag_or(value, "default_features", true)?;
    let features = texts_or_empty(alloc, value, "features")?;
    let kind = required_text(alloc, value, "kind")?;
    let name = required_text(alloc, value, "name")?;
    let optional = flag_or(value, "optional", false)?;
    let origin = read_origin(alloc, value)?;
    let (name, explicit_name_in_toml) = names(name, origin.own);
    Ok(Dep {
        name,
        version_req: origin.req,
        features,
        optional,
        default_features,
        target: origin.target,
        kind,
        registry: origin.registry,
        explicit_name_in_toml,
    })
}

fn read_deps(alloc: Global, list: &[Value]) -> Result<Vec<Dep>, ManifestFault>
    ensures { Gives (λ v. map dep_view v.items) result (each dep_from (items_view list.now)) }
{
    let mut deps = Vec::new(alloc);
    for value in list {
        deps.push(read_dep(alloc, value)?)?;
    }
    Ok(deps)
}

#[tactic(auto, unfolding(crate::specs::LineRead::features_from))]
fn read_features(
    alloc: Global,
    value: &Value,
) -> Result<BTreeMap<String, Vec<String>>, ManifestFault>
    ensures { Gives (λ m. map feature_view m.entries) result (features_from (view value.now)) }
{
    let older = features_or_empty(alloc, value, "features")?;
    match field(value, "features2") {
        Some(newer) => lists_onto(alloc, older, members(newer)?),
        None => Ok(older),
    }
}

fn read_name(alloc: Global, value: &Value) -> Result<CrateName, ManifestFault>
    ensures { Gives (λ n. n) result (name_from (field (codes "name") (view value.now))) }
{
    let text = required_text(alloc, value, "name")?;
    match parse_name(text.as_str()) {
        Some(name) => Ok(name),
        None => Err(ManifestFault::Name),
    }
}

#[tactic(auto, unfolding(crate::specs::LineRead::about_from))]
fn read_version(alloc: Global, value: &Value) -> Result<VersionFields, ManifestFault>
    ensures { Gives about_view result (about_from (view value.now)) }
{
    let links = optional_text(alloc, value, "links")?;
    let name = read_name(alloc, value)?;
    let rust_version = optional_text(alloc, value, "rust_version")?;
    let vers = required_text(alloc, value, "vers")?;
    Ok(VersionFields {
        links,
        name,
        rust_version,
        vers,
    })
}

#[tactic(auto, unfolding(crate::specs::LineRead::line_from))]
fn read_value(alloc: Global, value: &Value) -> Result<Manifest, ManifestFault>
    ensures { Gives manifest_view result (line_from (view value.now)) }
{
    members(value)?;
    let deps = read_deps(alloc, list_or_empty(value, "deps")?)?;
    let features = read_features(alloc, value)?;
    let about = read_version(alloc, value)?;
    Ok(Manifest {
        name: about.name,
        vers: about.vers,
        deps,
        features,
        description: None,
        links: about.links,
        rust_version: about.rust_version,
    })
}

/// The manifest that the bytes of a line describe.
#[tactic(auto, unfolding(crate::specs::LineRead::bytes_from))]
pub(crate) fn read_line(alloc: Global, bytes: &[u8]) -> Result<Manifest, ManifestFault>
    ensures { Gives manifest_view result (bytes_from bytes.now) }
{
    let value = read_json(alloc, bytes)?;
    read_value(alloc, &value)
}
