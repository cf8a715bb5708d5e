//! The check of the restricted crates and the readers.

ghost use Rattle.std.specs.Prelude.{◌≡◌, ◌&&◌, ℕ, IfOk};
ghost use Rattle.std.specs.List.{list_all};
ghost use Rattle.std.specs.BTreeSet.{contains};
ghost use Rattle.std.specs.Ordering.{nat_cmp};
ghost use Rattle.reg_audit.specs.Checks.{has_account, has_crate, readers_pass as readers_pass_in};

use reg_tables::AllRows;
use std::alloc::{AllocError, Global};
use std::collections::BTreeSet;

fn crate_ids(alloc: Global, rows: &AllRows) -> Result<BTreeSet<u32>, AllocError>
    ensures { IfOk result (λ set. (id : ℕ) → contains nat_cmp set id ≡ has_crate rows.now id) }
{
    rows.crates.iter().map(|it| it.id).collect(alloc)
}

fn account_ids(alloc: Global, rows: &AllRows) -> Result<BTreeSet<u32>, AllocError>
    ensures { IfOk result (λ set. (id : ℕ) → contains nat_cmp set id ≡ has_account rows.now id) }
{
    rows.accounts.iter().map(|it| it.id).collect(alloc)
}

fn are_crates(rows: &AllRows, crates: &BTreeSet<u32>) -> bool
    requires { (id : ℕ) → contains nat_cmp crates.now id ≡ has_crate rows.now id }
    ensures { result ≡ list_all (has_crate rows.now) rows.now.restricted.items }
{
    rows.restricted.iter().all(|id| crates.contains(id))
}

fn are_pairs(rows: &AllRows, crates: &BTreeSet<u32>, accounts: &BTreeSet<u32>) -> bool
    requires crates { (id : ℕ) → contains nat_cmp crates.now id ≡ has_crate rows.now id }
    requires accounts { (id : ℕ) → contains nat_cmp accounts.now id ≡ has_account rows.now id }
    ensures { result ≡ list_all (λ it. has_crate rows.now it.crate_id
        && has_account rows.now it.account) rows.now.readers.items }
{
    rows.readers.iter().all(|it| crates.contains(&it.crate_id) && accounts.contains(&it.account))
}

/// Whether each restricted crate is there, and the crate and account of each reader.
pub(crate) fn readers_pass(alloc: Global, rows: &AllRows) -> Result<bool, AllocError>
    ensures { IfOk result (λ b. b ≡ readers_pass_in rows.now) }
{
    let crates = crate_ids(alloc, rows)?;
    if !are_crates(rows, &crates) {
        return Ok(false);
    }
    let accounts = account_ids(alloc, rows)?;
    Ok(are_pairs(rows, &crates, &accounts))
}
