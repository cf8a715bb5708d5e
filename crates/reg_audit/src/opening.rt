//! The checks in their order.

ghost use Rattle.std.specs.Prelude.{◌≡◌, false, true, [], ◌∷◌, IfOk, IsErr, IsTrue, OnOk};
ghost use Rattle.sqlite.specs.State.{HasCleanDisk, KeepsCommit, Survives};
ghost use Rattle.sqlite.specs.Tree.{Trees};
ghost use Rattle.reg_tables_schema.specs.States.{IsUndone};
ghost use Rattle.reg_tables_rows.specs.WholeRows.{AreAllRows};
ghost use Rattle.reg_tables_represent.specs.Upgrades.{AreBegun};
ghost use Rattle.reg_tables.specs.Works.{AreOurs, IsActive, edition_in, has_failed, is_stopped, seen, shown};
ghost use Rattle.reg_tables_rows.specs.declared.all_rows.AllRows.{AllRows as Rows};
ghost use Rattle.reg_audit.specs.Checks.{IsFirst, IsFirstOf};
ghost use Rattle.reg_tables.specs.Looks.{Looks};
ghost use Rattle.reg_audit.specs.declared.check.Check.TheVariants.{C1, C2, C3, C5, C6, C7, C8};

use crate::accounts::accounts_pass;
use crate::archives::archives_pass;
use crate::check::Check;
use crate::crates::crates_pass;
use crate::readers::readers_pass;
use crate::reserved::reserved_pass;
use crate::summaries::summaries_pass;
use crate::tokens::tokens_pass;
use crate::versions::versions_pass;
use reg_tables::{AllRows, Result, Tables, Work};
use sqlite::Alter;
use std::alloc::{AllocError, Global};

// The checks before that of the archives.
fn first_before(alloc: Global, rows: &AllRows) -> Result<Option<Check>, AllocError>
    ensures { IfOk result (λ found. (db : Trees) → IsFirstOf
        (C1 ∷ C2 ∷ C3 ∷ []) rows.now db found) }
{
    if !accounts_pass(rows) {
        return Ok(Some(Check::C1));
    }
    if !tokens_pass(alloc, rows)? {
        return Ok(Some(Check::C2));
    }
    if !crates_pass(alloc, rows)? {
        return Ok(Some(Check::C3));
    }
    Ok(None)
}

// The checks after that of the archives.
fn first_after(alloc: Global, rows: &AllRows) -> Result<Option<Check>>
    ensures { IfOk result (λ found. (db : Trees) → IsFirstOf
        (C5 ∷ C6 ∷ C7 ∷ C8 ∷ []) rows.now db found) }
{
    if !versions_pass(alloc, rows)? {
        return Ok(Some(Check::C5));
    }
    if !reserved_pass(rows) {
        return Ok(Some(Check::C6));
    }
    if !summaries_pass(alloc, rows)? {
        return Ok(Some(Check::C7));
    }
    if !readers_pass(alloc, rows)? {
        return Ok(Some(Check::C8));
    }
    Ok(None)
}

fn first_failing<S: Alter>(
    alloc: Global,
    work: &mut Work<'_, S>,
    rows: &AllRows,
) -> Result<Option<Check>>
    requires at_work { IsActive S.Store work.old }
    requires goes_on { has_failed work.old ≡ false }
    ensures found { HasCleanDisk (seen S.Store work.new) → IfOk result
        (IsFirst rows.now (seen S.Store work.old).now.trees) }
    ensures looks { Looks S.Store work.old work.new }
{
    let before = first_before(alloc, rows)?;
    if before.is_some() {
        return Ok(before);
    }
    if !archives_pass(work, &rows.versions)? {
        return Ok(Some(Check::C4));
    }
    let after = first_after(alloc, rows)?;
    Ok(after)
}

fn examine<S: Alter>(alloc: Global, work: &mut Work<'_, S>) -> Result<Option<Check>>
    requires { IsActive S.Store work.old }
    ensures found { HasCleanDisk (seen S.Store work.new) → IfOk result
        (λ found. (it : Rows) × AreAllRows it (seen S.Store work.old).now.trees × IsFirst it
        (seen S.Store work.old).now.trees found) }
    ensures looks { Looks S.Store work.old work.new }
{
    let rows = work.all_rows(alloc)?;
    first_failing(alloc, work, &rows)
}

/// The first check that fails; none if all pass. Tables of schema 1 are seen as the schema 2 tables
/// that they become. Nothing is changed, and no archive is kept in memory.
pub fn audit<S: Alter>(alloc: Global, tables: &mut Tables<S>) -> Result<Option<Check>>
    requires { AreOurs S.Store tables.old }
    ensures found { HasCleanDisk (shown S.Store tables.new) → IfOk result
        (λ found. (db : Trees) × AreBegun (edition_in tables.old) (shown S.Store tables.old).now db
        × (it : Rows) × AreAllRows it db × IsFirst it db found) }
    ensures was_open { HasCleanDisk (shown S.Store tables.new) → OnOk result
        (IsTrue (shown S.Store tables.old).is_open) }
    ensures kept { HasCleanDisk (shown S.Store tables.new) → KeepsCommit (shown S.Store tables.old)
        (shown S.Store tables.new) }
    ensures rests { HasCleanDisk (shown S.Store tables.new)
        → (shown S.Store tables.old).in_transaction ≡ false → IsUndone (shown S.Store tables.old)
        (shown S.Store tables.new) }
    ensures ours { AreOurs S.Store tables.new }
    ensures edition { edition_in tables.new ≡ edition_in tables.old }
    ensures open { is_stopped tables.new ≡ is_stopped tables.old }
    ensures stopped { is_stopped tables.old ≡ true → IsErr result }
    ensures survives { Survives (shown S.Store tables.old) (shown S.Store tables.new) (λ _. ⊥) }
{
    let mut work = tables.upgrade()?;
    examine(alloc, &mut work)
}
