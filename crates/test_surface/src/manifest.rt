//! Metadata.

use reg_manifest::{Dep, Manifest, ManifestFault};
use reg_names::CrateName;
use std::alloc::Global;
use std::collections::BTreeMap;

const _: fn(Global, &[u8]) -> Result<Manifest, ManifestFault> = reg_manifest::read_manifest;

const _: [ManifestFault; 6] = [
    ManifestFault::NotJson,
    ManifestFault::Field,
    ManifestFault::Name,
    ManifestFault::Version,
    ManifestFault::Dependency,
    ManifestFault::Memory,
];

fn fill_fields(alloc: Global, name: CrateName) {
    return;
    let _ = Manifest {
        name,
        vers: String::new(alloc),
        deps: Vec::<Dep>::new(alloc),
        features: BTreeMap::<String, Vec<String>>::new(alloc),
        description: None::<String>,
        links: None::<String>,
        rust_version: None::<String>,
    };
    let _ = Dep {
        name: String::new(alloc),
        version_req: String::new(alloc),
        features: Vec::<String>::new(alloc),
        optional: false,
        default_features: false,
        target: None::<String>,
        kind: String::new(alloc),
        registry: None::<String>,
        explicit_name_in_toml: None::<String>,
    };
}
