//! Selections of crates and of their versions.

ghost use Rattle.std.specs.Prelude.{◌≡◌, ◌<◌, ◌-◌, ◌*◌, IfOk, false, nat_le, nat_lt, unwrap_or};
ghost use Rattle.std.specs.Option.{option_map};
ghost use Rattle.reg_line.specs.Shortest.{shortest_line};
ghost use Rattle.sqlite.specs.Held.{state};
ghost use Rattle.reg_tables_schema.specs.Rows.{greatest_number};
ghost use Rattle.reg_tables_schema.specs.States.{IsReady};
ghost use Rattle.reg_tables_schema.specs.Statements.{rows_in};
ghost use Rattle.reg_tables_schema.specs.Steps.{KeepsAll, Told};
ghost use Rattle.reg_tables_represent.specs.Calls.{FindsArchive, FindsCrate, ListsCrates, ListsVersions, ReachesVersions};
ghost use Rattle.reg_tables_sql.specs.Crates.{AreCrates, IsCrateOfCanon};
ghost use Rattle.reg_tables_sql.specs.Versions.{AreVersionsOf};

use reg_line::lacks_room;
use reg_names::{CanonText, CrateName};
use reg_tables_represent::summaries;
use reg_tables_sql::archives;
use reg_tables_sql::crates::{self, Crate};
use reg_tables_sql::statements::Result;
use reg_tables_sql::summaries::Summary;
use reg_tables_sql::versions::{self, Version};
use reg_versions::release_key;
use sqlite::{Alter, Connection, Error};
use std::alloc::Global;

/// The crate with this canonical name, if there is one.
pub fn find<S: Alter>(conn: &mut Connection<S>, text: &CanonText) -> Result<Option<Crate>>
    requires { IsReady (state S.Store conn.old) }
    ensures rows { Told S.Store conn.new result
        (IsCrateOfCanon text.now (rows_in S.Store conn.old)) }
    ensures found { Told S.Store conn.new result (FindsCrate text.now (rows_in S.Store conn.old)) }
    ensures same { KeepsAll S.Store conn.old conn.new result }
{
    crates::by_canon(conn, text.as_str())
}

/// The versions of a crate, oldest first.
pub fn list<S: Alter>(
    alloc: Global,
    conn: &mut Connection<S>,
    crate_id: u32,
) -> Result<Vec<Version>>
    requires { IsReady (state S.Store conn.old) }
    ensures rows { Told S.Store conn.new result
        (λ list. AreVersionsOf crate_id (rows_in S.Store conn.old) list.items) }
    ensures found { Told S.Store conn.new result
        (λ list. ListsVersions crate_id (rows_in S.Store conn.old) list.items) }
    ensures same { KeepsAll S.Store conn.old conn.new result }
{
    versions::of_crate(alloc, conn, crate_id)
}

// SQL counts only up to its greatest number; there, its answer may be too low.
fn reaches(number: u64, count: u64) -> Result<bool>
    ensures { IfOk result (λ is. (is ≡ nat_le number count) × (count < greatest_number)) }
{
    if count < i64::MAX as u64 {
        Ok(number <= count)
    } else {
        Err(Error::InvalidQuery)
    }
}

// The same as `reaches_versions`, by counting them.
fn has_versions<S: Alter>(conn: &mut Connection<S>, crate_id: u32, number: u64) -> Result<bool>
    requires { IsReady (state S.Store conn.old) }
    ensures told { Told S.Store conn.new result
        (λ is. (name : _) → ReachesVersions crate_id name number (rows_in S.Store conn.old) is) }
    ensures same { KeepsAll S.Store conn.old conn.new result }
{
    let count = versions::count_of(conn, crate_id)?;
    reaches(number, count)
}

// Whether the index file of a crate, if there is one, is too short for this number of versions.
fn is_short(summary: Option<Summary>, name: &CrateName, number: u64) -> bool
    ensures { result ≡ unwrap_or
        (option_map (λ m. nat_lt m.index_length (number * shortest_line name.now)) summary) false }
{
    match summary {
        Some(summary) => lacks_room(summary.index_length, name, number),
        None => false,
    }
}

// The same as `reaches_versions`. They are counted only if the crate's index file may have as many
// lines.
fn has_lines<S: Alter>(
    conn: &mut Connection<S>,
    crate_id: u32,
    name: &CrateName,
    number: u64,
) -> Result<bool>
    requires { IsReady (state S.Store conn.old) }
    ensures told { Told S.Store conn.new result
        (ReachesVersions crate_id name.now number (rows_in S.Store conn.old)) }
    ensures same { KeepsAll S.Store conn.old conn.new result }
{
    let summary = summaries::of_crate(conn, crate_id)?;
    if is_short(summary, name, number) {
        return Ok(false);
    }
    has_versions(conn, crate_id, number)
}

// Whether fewer ids were taken, up to the last, than make this number.
fn are_few(last: Option<u64>, number: u64) -> bool
    ensures { result ≡ nat_lt (unwrap_or last 0) (number - 1) }
{
    last.unwrap_or(0) < number.saturating_sub(1)
}

/// Whether the crate with this id and spelling has at least this many versions: no more than ids
/// were taken, and than its index file has room for. They are counted only if both come near the
/// number, and are not read.
pub fn reaches_versions<S: Alter>(
    conn: &mut Connection<S>,
    crate_id: u32,
    name: &CrateName,
    number: u64,
) -> Result<bool>
    requires { IsReady (state S.Store conn.old) }
    ensures told { Told S.Store conn.new result
        (ReachesVersions crate_id name.now number (rows_in S.Store conn.old)) }
    ensures same { KeepsAll S.Store conn.old conn.new result }
{
    let last = versions::last_id(conn)?;
    if are_few(last, number) {
        return Ok(false);
    }
    has_lines(conn, crate_id, name, number)
}

/// The archive of exactly this version of a crate.
pub fn archive<S: Alter>(
    conn: &mut Connection<S>,
    crate_id: u32,
    text: &str,
) -> Result<Option<Vec<u8>>>
    requires { IsReady (state S.Store conn.old) }
    ensures found { Told S.Store conn.new result
        (FindsArchive crate_id text.now (rows_in S.Store conn.old)) }
    ensures same { KeepsAll S.Store conn.old conn.new result }
{
    archives::of_version(conn, crate_id, release_key(text), text)
}

/// All crates, by canonical name.
pub fn all<S: Alter>(alloc: Global, conn: &mut Connection<S>) -> Result<Vec<Crate>>
    requires { IsReady (state S.Store conn.old) }
    ensures rows { Told S.Store conn.new result
        (λ list. AreCrates (rows_in S.Store conn.old) list.items) }
    ensures found { Told S.Store conn.new result
        (λ list. ListsCrates (rows_in S.Store conn.old) list.items) }
    ensures same { KeepsAll S.Store conn.old conn.new result }
{
    crates::all(alloc, conn)
}
