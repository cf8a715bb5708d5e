//! The check of the crates.

ghost use Rattle.std.specs.Prelude.{◌≡◌, ◌==◌, ◌&&◌, ℕ, IfOk};
ghost use Rattle.std.specs.List.{list_all, list_any};
ghost use Rattle.std.specs.BTreeSet.{contains};
ghost use Rattle.std.specs.Ordering.{nat_cmp};
ghost use Rattle.reg_audit.specs.Checks.{crates_pass as crates_pass_in, is_named as is_named_row};

use crate::texts::same_text;
use reg_names::{canon, parse_name};
use reg_tables::{AllRows, Crate, Pair, Version};
use std::alloc::{AllocError, Global};
use std::collections::BTreeSet;

fn is_named(it: &Crate) -> bool
    ensures { result ≡ is_named_row it.now }
{
    match parse_name(&it.name) {
        Some(name) => same_text(canon(&name).as_str(), &it.canon),
        None => false,
    }
}

// The crates that have an owner.
fn owned_crates(alloc: Global, owners: &[Pair]) -> Result<BTreeSet<u32>, AllocError>
    ensures { IfOk result (λ set. (id : ℕ) → contains nat_cmp set id ≡ list_any
        (λ o. o.crate_id == id) owners.now) }
{
    owners.iter().map(|owner| owner.crate_id).collect(alloc)
}

// The crates that have a version.
fn published_crates(alloc: Global, versions: &[Version]) -> Result<BTreeSet<u32>, AllocError>
    ensures { IfOk result (λ set. (id : ℕ) → contains nat_cmp set id ≡ list_any
        (λ v. v.crate_id == id) versions.now) }
{
    versions
        .iter()
        .map(|version| version.crate_id)
        .collect(alloc)
}

/// Whether each crate is properly named, and has an owner and a version.
pub(crate) fn crates_pass(alloc: Global, rows: &AllRows) -> Result<bool, AllocError>
    ensures { IfOk result (λ b. b ≡ crates_pass_in rows.now) }
{
    let owned = owned_crates(alloc, &rows.owners)?;
    let published = published_crates(alloc, &rows.versions)?;
    Ok(
        rows.crates.iter().all(|it| {
            is_named(it) && owned.contains(&it.id) && published.contains(&it.id)
        }),
    )
}
