//! Bytes to a manifest (the Cargo Book, "Registry Web API", "Publish").

ghost use Rattle.std.specs.Prelude.{◌≡◌, IfOk, map, string_bytes, true};
ghost use Rattle.serde_json.specs.View.{items_view, view};
ghost use Rattle.reg_manifest.specs.Parsing.{Gives};
ghost use Rattle.reg_manifest.specs.Fields.{each};
ghost use Rattle.reg_manifest.specs.Manifests.{about_view, dep_view, draft_view, manifest_view, place_view};
ghost use Rattle.reg_manifest.specs.Metadata.{about_of, checked, dep_of, fields_of, keeps_rules, metadata_of, place_of};

use crate::fault::ManifestFault;
use crate::fields::{
    features_or_empty, flag_or, list_or_empty, members, optional_text, read_json, required_text,
    text_or, texts_or_empty,
};
use crate::manifest::{Dep, Manifest};
use crate::rules::{are_deps, is_version};
use reg_names::{CrateName, parse_name};
use serde_json::Value;
use std::alloc::Global;
use std::collections::BTreeMap;

/// The fields before the rules are checked.
#[derive(Drop)]
struct Draft {
    name: String,
    vers: String,
    deps: Vec<Dep>,
    features: BTreeMap<String, Vec<String>>,
    description: Option<String>,
    links: Option<String>,
    rust_version: Option<String>,
}

/// What a dependency is for, and where it comes from.
#[derive(Drop)]
struct DepOrigin {
    target: Option<String>,
    kind: String,
    registry: Option<String>,
    explicit_name_in_toml: Option<String>,
}

/// What else is said about a version.
#[derive(Drop)]
struct Details {
    description: Option<String>,
    links: Option<String>,
    rust_version: Option<String>,
}

#[tactic(auto, unfolding(crate::specs::Metadata::place_of))]
fn read_origin(alloc: Global, value: &Value) -> Result<DepOrigin, ManifestFault>
    ensures { Gives place_view result (place_of (view value.now)) }
{
    let target = optional_text(alloc, value, "target")?;
    let kind = text_or(alloc, value, "kind", "normal")?;
    let registry = optional_text(alloc, value, "registry")?;
    let explicit_name_in_toml = optional_text(alloc, value, "explicit_name_in_toml")?;
    Ok(DepOrigin {
        target,
        kind,
        registry,
        explicit_name_in_toml,
    })
}

#[tactic(auto, unfolding(crate::specs::Metadata::dep_of))]
fn read_dep(alloc: Global, value: &Value) -> Result<Dep, ManifestFault>
    ensures { Gives dep_view result (dep_of (view value.now)) }
{
    members(value)?;
    let name = required_text(alloc, value, "name")?;
    let version_req = required_text(alloc, value, "version_req")?;
    let features = texts_or_empty(alloc, value, "features")?;
    let optional = flag_or(value, "optional", false)?;
    let default_features = flag_or(value, "default_features", true)?;
    let place = read_origin(alloc, value)?;
    Ok(Dep {
        name,
        version_req,
        features,
        optional,
        default_features,
        target: place.target,
        kind: place.kind,
        registry: place.registry,
        explicit_name_in_toml: place.explicit_name_in_toml,
    })
}

fn read_deps(alloc: Global, list: &[Value]) -> Result<Vec<Dep>, ManifestFault>
    ensures { Gives (λ v. map dep_view v.items) result (each dep_of (items_view list.now)) }
{
    let mut deps = Vec::new(alloc);
    for value in list {
        deps.push(read_dep(alloc, value)?)?;
    }
    Ok(deps)
}

#[tactic(auto, unfolding(crate::specs::Metadata::about_of))]
fn read_details(alloc: Global, value: &Value) -> Result<Details, ManifestFault>
    ensures { Gives about_view result (about_of (view value.now)) }
{
    let description = optional_text(alloc, value, "description")?;
    let links = optional_text(alloc, value, "links")?;
    let rust_version = optional_text(alloc, value, "rust_version")?;
    Ok(Details {
        description,
        links,
        rust_version,
    })
}

#[tactic(auto, unfolding(crate::specs::Metadata::fields_of))]
fn read_fields(alloc: Global, value: &Value) -> Result<Draft, ManifestFault>
    ensures { Gives draft_view result (fields_of (view value.now)) }
{
    members(value)?;
    let name = required_text(alloc, value, "name")?;
    let vers = required_text(alloc, value, "vers")?;
    let deps = read_deps(alloc, list_or_empty(value, "deps")?)?;
    let features = features_or_empty(alloc, value, "features")?;
    let about = read_details(alloc, value)?;
    Ok(Draft {
        name,
        vers,
        deps,
        features,
        description: about.description,
        links: about.links,
        rust_version: about.rust_version,
    })
}

/// The name of a draft that keeps the rules.
#[tactic(auto, unfolding(crate::specs::Metadata::checked, crate::specs::Metadata::keeps_rules))]
fn checked_name(alloc: Global, draft: &Draft) -> Result<CrateName, ManifestFault>
    ensures meaning { Gives (λ _. draft_view draft.now) result (checked (draft_view draft.now)) }
    ensures name { IfOk result (λ name. name ≡ string_bytes draft.now.name) }
    ensures rules { IfOk result (λ _. keeps_rules (draft_view draft.now) ≡ true) }
{
    let Some(name) = parse_name(draft.name.as_str()) else {
        return Err(ManifestFault::Name);
    };
    if !is_version(alloc, draft.vers.as_str())? {
        return Err(ManifestFault::Version);
    }
    if !are_deps(alloc, &draft.deps)? {
        return Err(ManifestFault::Dependency);
    }
    Ok(name)
}

fn named(name: CrateName, draft: Draft) -> Manifest
    requires { name ≡ string_bytes draft.name }
    ensures { manifest_view result ≡ draft_view draft }
{
    Manifest {
        name,
        vers: draft.vers,
        deps: draft.deps,
        features: draft.features,
        description: draft.description,
        links: draft.links,
        rust_version: draft.rust_version,
    }
}

fn check(alloc: Global, draft: Draft) -> Result<Manifest, ManifestFault>
    ensures meaning { Gives manifest_view result (checked (draft_view draft)) }
    ensures rules { IfOk result (λ m. keeps_rules (manifest_view m) ≡ true) }
{
    let name = checked_name(alloc, &draft)?;
    Ok(named(name, draft))
}

/// The manifest that the metadata stands for, or its first fault. An unknown field is ignored, and
/// a missing one counts as null. For a repeated key the last value counts.
#[tactic(auto, unfolding(crate::specs::Metadata::metadata_of))]
pub fn read_manifest(alloc: Global, bytes: &[u8]) -> Result<Manifest, ManifestFault>
    ensures meaning { Gives manifest_view result (metadata_of bytes.now) }
    ensures rules { IfOk result (λ m. keeps_rules (manifest_view m) ≡ true) }
{
    let value = read_json(alloc, bytes)?;
    let draft = read_fields(alloc, &value)?;
    check(alloc, draft)
}
