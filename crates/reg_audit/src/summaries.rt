//! The check of the summaries of the crates.

ghost use Rattle.std.specs.Prelude.{◌≡◌, ◌==◌, ◌&&◌, ◌++◌, ◌∷◌, [], false, ℕ, IfOk, OnOk, filter, if◌then◌else◌, map};
ghost use Rattle.std.specs.List.{list_all};
ghost use Rattle.std.specs.Str.{bytes_eq};
ghost use Rattle.reg_tables_represent.specs.Summaries.{highest_in, length_in, shown_mark};
ghost use Rattle.reg_audit.specs.Checks.{is_summary, its_versions, shown_version, summaries_pass as summaries_pass_in};
ghost use Rattle.reg_audit.specs.Marks.{marks_at};

use reg_tables::{AllRows, Crate, Result, StoreFault, Summary, Version};
use reg_tables_represent::summaries::numbers_in;
use reg_tables_sql::versions::VersionMark;
use std::alloc::{AllocError, Global};
use std::collections::BTreeMap;

fn are_of(summaries: &[Summary], crates: &[Crate]) -> bool
    ensures { result ≡ bytes_eq (map (λ s. s.crate_id) summaries.now) (map (λ c. c.id) crates.now) }
{
    if summaries.len() != crates.len() {
        return false;
    }
    for (index, summary) in summaries.iter().enumerate() {
        if summary.crate_id != crates[index].id {
            return false;
        }
    }
    true
}

fn mark_of(alloc: Global, version: &Version) -> Result<VersionMark, AllocError>
    ensures { IfOk result (λ m. shown_mark m ≡ shown_version version.now) }
{
    let vers = String::from_str(alloc, &version.vers)?;
    Ok(VersionMark {
        id: version.id,
        vers,
        stem_length: version.stem.len() as u64,
        yanked: version.yanked,
    })
}

// Takes out the versions of this crate.
fn take_out(
    alloc: Global,
    groups: &mut BTreeMap<u32, Vec<VersionMark>>,
    id: u32,
) -> Vec<VersionMark>
    ensures taken { map shown_mark result.items ≡ marks_at groups.old id }
    ensures others { (q : ℕ) → (id == q) ≡ false → marks_at groups.new q ≡ marks_at groups.old q }
{
    match groups.remove(&id) {
        Some(marks) => marks,
        None => Vec::new(alloc),
    }
}

// Adds a version to those of its crate.
fn add(
    alloc: Global,
    groups: &mut BTreeMap<u32, Vec<VersionMark>>,
    version: &Version,
) -> Result<(), AllocError>
    ensures { OnOk result ((id : ℕ) → marks_at groups.new id ≡ marks_at groups.old id
        ++ (if version.now.crate_id == id then shown_version version.now ∷ [] else [])) }
{
    let mark = mark_of(alloc, version)?;
    let mut marks = take_out(alloc, groups, version.crate_id);
    marks.push(mark)?;
    groups.insert(version.crate_id, marks)?;
    Ok(())
}

// The versions of each crate.
fn group_by_crate(
    alloc: Global,
    versions: &[Version],
) -> Result<BTreeMap<u32, Vec<VersionMark>>, AllocError>
    ensures { IfOk result (λ groups. (id : ℕ) → marks_at groups id ≡ map shown_version
        (filter (λ v. v.crate_id == id) versions.now)) }
{
    let mut groups = BTreeMap::new(alloc);
    for version in versions {
        add(alloc, &mut groups, version)?;
    }
    Ok(groups)
}

fn marks_of(groups: &BTreeMap<u32, Vec<VersionMark>>, id: u32) -> &[VersionMark]
    ensures { map shown_mark result.now ≡ marks_at groups.now id }
{
    match groups.get(&id) {
        Some(marks) => marks.as_slice(),
        None => &[],
    }
}

fn is_right(
    alloc: Global,
    rows: &AllRows,
    groups: &BTreeMap<u32, Vec<VersionMark>>,
    summary: &Summary,
) -> Result<bool>
    requires { (id : ℕ) → marks_at groups.now id ≡ its_versions rows.now id }
    ensures { IfOk result (λ b. b ≡ is_summary rows.now summary.now) }
{
    match numbers_in(alloc, marks_of(groups, summary.crate_id)) {
        Ok(numbers) => Ok(
            summary.highest == numbers.highest && summary.index_length == numbers.index_length,
        ),
        Err(_) => Err(StoreFault),
    }
}

fn are_right(alloc: Global, rows: &AllRows) -> Result<bool>
    ensures { IfOk result (λ b. b ≡ list_all (is_summary rows.now) rows.now.summaries.items) }
{
    let groups = group_by_crate(alloc, &rows.versions)?;
    for summary in rows.summaries.iter() {
        if !is_right(alloc, rows, &groups, summary)? {
            return Ok(false);
        }
    }
    Ok(true)
}

/// Whether each crate has its summary, and there is no other.
pub(crate) fn summaries_pass(alloc: Global, rows: &AllRows) -> Result<bool>
    ensures { IfOk result (λ b. b ≡ summaries_pass_in rows.now) }
{
    if !are_of(&rows.summaries, &rows.crates) {
        return Ok(false);
    }
    are_right(alloc, rows)
}
