//! The check of the versions and their lines.

ghost use Rattle.std.specs.Prelude.{◌≡◌, ◌==◌, ◌↔◌, ℕ, IfOk, IsTrue, None, OnOk, Some, if◌then◌else◌, length, string_bytes};
ghost use Rattle.std.specs.Option.{option_map, option_or};
ghost use Rattle.std.specs.List.{AllByRecursion, position_from};
ghost use Rattle.std.specs.Ordering.{nat_cmp};
ghost use Rattle.std.specs.BTreeMap.{get};
ghost use Rattle.reg_versions.specs.Versions.{is_version as is_version_text};
ghost use Rattle.reg_line.specs.StemCheck.{IsStemOf};
ghost use Rattle.reg_audit.specs.Checks.{crate_of as crate_in, IsGenuine, VersionsPass};

use crate::texts::same_text;
use reg_line::{Digest, check_stem};
use reg_tables::{AllRows, Crate, Version};
use reg_versions::{Release, VersionFault, release_key};
use std::alloc::{AllocError, Global};
use std::collections::BTreeMap;

// Adds the place of an id, unless it has one.
fn add(places: &mut BTreeMap<u32, usize>, id: u32, place: usize) -> Result<(), AllocError>
    ensures { OnOk result ((q : ℕ) → get nat_cmp places.new q ≡ option_or (get nat_cmp places.old q)
        (if id == q then Some place else None)) }
{
    if !places.contains_key(&id) {
        places.insert(id, place)?;
    }
    Ok(())
}

// The places of the crates by their ids.
fn places_of(alloc: Global, crates: &[Crate]) -> Result<BTreeMap<u32, usize>, AllocError>
    ensures { IfOk result (λ map. (id : ℕ) → get nat_cmp map id ≡ position_from
        (λ c. c.id == id) 0 crates.now) }
{
    let mut places = BTreeMap::new(alloc);
    for (index, it) in crates.iter().enumerate() {
        add(&mut places, it.id, index)?;
    }
    Ok(places)
}

// The crate with this id.
fn crate_of<'a>(rows: &'a AllRows, places: &BTreeMap<u32, usize>, id: u32) -> Option<&'a Crate>
    requires { (id : ℕ) → get nat_cmp places.now id ≡ position_from
        (λ c. c.id == id) 0 rows.now.crates.items }
    ensures { option_map (λ c. c.now) result ≡ crate_in rows.now id }
{
    match places.get(&id) {
        Some(place) => rows.crates.get(*place),
        None => None,
    }
}

fn is_version(alloc: Global, text: &str) -> Result<bool, AllocError>
    ensures { IfOk result (λ b. b ≡ is_version_text text.now) }
{
    match Release::parse(alloc, text) {
        Ok(_) => Ok(true),
        Err(VersionFault::Bad) => Ok(false),
        Err(VersionFault::Memory) => Err(AllocError),
    }
}

// Whether the stem is that of the version's line under this crate's name.
fn has_stem(alloc: Global, version: &Version, it: &Crate) -> Result<bool, AllocError>
    ensures { IfOk result (λ b. IsTrue b ↔ ((length version.now.digest.items ≡ 32)
        × IsStemOf version.now.stem.items (string_bytes it.now.name)
        (string_bytes version.now.vers) version.now.digest.items)) }
{
    match Digest::try_from(version.digest.as_slice()) {
        Ok(digest) => check_stem(alloc, &version.stem, &it.name, &version.vers, &digest),
        Err(_) => Ok(false),
    }
}

fn is_genuine(
    alloc: Global,
    rows: &AllRows,
    places: &BTreeMap<u32, usize>,
    version: &Version,
) -> Result<bool, AllocError>
    requires { (id : ℕ) → get nat_cmp places.now id ≡ position_from
        (λ c. c.id == id) 0 rows.now.crates.items }
    ensures { IfOk result (λ b. IsTrue b ↔ IsGenuine rows.now version.now) }
{
    if !same_text(release_key(&version.vers), &version.release) {
        return Ok(false);
    }
    if !is_version(alloc, &version.vers)? {
        return Ok(false);
    }
    match crate_of(rows, places, version.crate_id) {
        Some(it) => has_stem(alloc, version, it),
        None => Ok(false),
    }
}

/// Whether each version is valid, with its release and the stem of its line.
pub(crate) fn versions_pass(alloc: Global, rows: &AllRows) -> Result<bool, AllocError>
    ensures { IfOk result (λ b. IsTrue b ↔ VersionsPass rows.now) }
{
    let places = places_of(alloc, &rows.crates)?;
    for version in rows.versions.iter() {
        if !is_genuine(alloc, rows, &places, version)? {
            return Ok(false);
        }
    }
    Ok(true)
}
