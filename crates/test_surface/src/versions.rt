//! Versions, their keys, and the highest of a list.

use reg_versions::{Release, VersionFault};
use std::alloc::Global;

const _: fn(&str) -> &str = reg_versions::release_key;

const _: fn(&str, &str) -> bool = reg_versions::same_release;

const _: fn(&[(Release, bool)]) -> Option<usize> = reg_versions::highest;

const _: [VersionFault; 2] = [VersionFault::Bad, VersionFault::Memory];

fn call_methods(alloc: Global) {
    return;
    let _: Result<Release, VersionFault> = Release::parse(alloc, "");
}
