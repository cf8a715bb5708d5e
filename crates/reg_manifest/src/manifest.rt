//! What metadata is read into.

use reg_names::CrateName;
use std::collections::BTreeMap;

/// A dependency as it was sent, with the nulls replaced.
#[derive(Drop)]
pub struct Dep {
    /// The package's own name, even if it is renamed.
    pub name: String,
    /// The requirement as it was sent.
    pub version_req: String,
    pub features: Vec<String>,
    pub optional: bool,
    pub default_features: bool,
    /// The platform that it is for, or none for all.
    pub target: Option<String>,
    /// `normal`, `build` or `dev`.
    pub kind: String,
    /// The index of the registry that it comes from, or none for this one.
    pub registry: Option<String>,
    /// The name that it has in the manifest, if it was renamed.
    pub explicit_name_in_toml: Option<String>,
}

/// What a publish request says about the version that it publishes.
#[derive(Drop)]
pub struct Manifest {
    pub name: CrateName,
    pub vers: String,
    /// In the order sent.
    pub deps: Vec<Dep>,
    /// The features' values under their names, each list in the order sent.
    pub features: BTreeMap<String, Vec<String>>,
    pub description: Option<String>,
    pub links: Option<String>,
    pub rust_version: Option<String>,
}
