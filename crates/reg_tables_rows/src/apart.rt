//! Whether each row of a table has its own rowid, as seen from the rowids, read in order. Those of
//! crates and versions are their ids, which are read with them.

ghost use Rattle.std.specs.Prelude.{◌<◌, ◌∷◌, ◌↔◌, ℕ, length, IsTrue, OnOk};
ghost use Rattle.std.specs.List.{AllAdjacentBelow};
ghost use Rattle.std.specs.List.Sorted.{IsStrictlySortedBy};
ghost use Rattle.std.specs.Ordering.{int_cmp};
ghost use Rattle.sqlite.specs.Held.{state};
ghost use Rattle.sqlite.specs.Tree.{Trees};
ghost use Rattle.reg_tables_schema.specs.Places.{crates_tree, owners_tree, readers_tree, reserved_tree, versions_tree};
ghost use Rattle.reg_tables_schema.specs.States.{IsReady};
ghost use Rattle.reg_tables_schema.specs.Statements.{rows_in};
ghost use Rattle.reg_tables_schema.specs.Steps.{Done, KeepsAll};
ghost use Rattle.reg_tables_sql.specs.Crates.{AreCratesById};
ghost use Rattle.reg_tables_sql.specs.Rowids.{AreRowids};
ghost use Rattle.reg_tables_sql.specs.Versions.{AreVersions};
ghost use Rattle.reg_tables_represent.specs.Stands.{HaveOwnRowids};

use reg_tables_sql::crates::Crate;
use reg_tables_sql::pairs::Relation;
use reg_tables_sql::statements::Result;
use reg_tables_sql::versions::Version;
use reg_tables_sql::{pairs, reserved};
use sqlite::{Alter, Connection, Error};
use std::alloc::Global;

fn rise_from(first: &i64, rest: &[i64]) -> bool
    ensures { IsTrue result ↔ IsStrictlySortedBy int_cmp (first.now ∷ rest.now) }
{
    let mut last = first;
    for id in rest {
        if id <= last {
            return false;
        }
        last = id;
    }
    true
}

// Whether each is greater than the one before it.
fn rise(ids: &[i64]) -> bool
    ensures { IsTrue result ↔ IsStrictlySortedBy int_cmp ids.now }
{
    match ids {
        [] => true,
        [first, rest @ ..] => rise_from(first, rest),
    }
}

fn check_that(holds: bool) -> Result<()>
    ensures { OnOk result (IsTrue holds) }
{
    if !holds {
        return Err(Error::InvalidQuery);
    }
    Ok(())
}

fn check(rowids: &[i64]) -> Result<()>
    ensures { OnOk result ((tree : ℕ) (db : Trees) → AreRowids tree db rowids.now
        → HaveOwnRowids (db tree)) }
{
    check_that(rise(rowids))
}

fn crates_rise(crates: &[Crate]) -> bool
    ensures { IsTrue result ↔ AllAdjacentBelow (λ a b. a.id < b.id) crates.now (length crates.now) }
{
    crates.windows(2).all(|pair| pair[0].id < pair[1].id)
}

fn versions_rise(versions: &[Version]) -> bool
    ensures { IsTrue result
        ↔ AllAdjacentBelow (λ a b. a.id < b.id) versions.now (length versions.now) }
{
    versions.windows(2).all(|pair| pair[0].id < pair[1].id)
}

/// Succeeds only if no two of all crates share a rowid, which is their id.
pub(crate) fn check_crates(crates: &[Crate]) -> Result<()>
    ensures { OnOk result ((db : Trees) → AreCratesById db crates.now
        → HaveOwnRowids (db crates_tree)) }
{
    check_that(crates_rise(crates))
}

/// Succeeds only if no two of all versions share a rowid, which is their id.
pub(crate) fn check_versions(versions: &[Version]) -> Result<()>
    ensures { OnOk result ((db : Trees) → AreVersions db versions.now
        → HaveOwnRowids (db versions_tree)) }
{
    check_that(versions_rise(versions))
}

/// Succeeds only if no two rows of a table share a rowid, in the tables whose rowids are SQL's own.
pub(crate) fn check_rowids<S: Alter>(alloc: Global, conn: &mut Connection<S>) -> Result<()>
    requires { IsReady (state S.Store conn.old) }
    ensures owners { Done S.Store conn.new result
        (HaveOwnRowids (rows_in S.Store conn.old owners_tree)) }
    ensures readers { Done S.Store conn.new result
        (HaveOwnRowids (rows_in S.Store conn.old readers_tree)) }
    ensures reserved { Done S.Store conn.new result
        (HaveOwnRowids (rows_in S.Store conn.old reserved_tree)) }
    ensures same { KeepsAll S.Store conn.old conn.new result }
{
    let owners = pairs::rowids(alloc, conn, Relation::Owners)?;
    check(&owners)?;
    let readers = pairs::rowids(alloc, conn, Relation::Readers)?;
    check(&readers)?;
    let reserved = reserved::rowids(alloc, conn)?;
    check(&reserved)?;
    Ok(())
}
