//! The kept summaries of crates: the highest version of each, and its index file's length.
//!
//! A publish and a yank look at no other version than the highest. Only if the highest itself is
//! yanked, the summary is rebuilt from all versions of its crate.

ghost use Rattle.std.specs.Prelude.{◌≡◌, ◌+◌, [], IfOk, IsTrue, length, map, not, slice_get, unwrap_or};
ghost use Rattle.std.specs.Option.{option_map};
ghost use Rattle.reg_line.specs.File.{end_of};
ghost use Rattle.sqlite.specs.Held.{state};
ghost use Rattle.reg_tables_schema.specs.States.{IsReady};
ghost use Rattle.reg_tables_schema.specs.Statements.{rows_in};
ghost use Rattle.reg_tables_schema.specs.Steps.{Done, KeepsAll, Steps, Told};
ghost use Rattle.reg_tables_represent.specs.Calls.{FindsSummary};
ghost use Rattle.reg_tables_represent.specs.Summaries.{higher_by_id, higher_of, highest_in, length_in, line_length, read_mark, shown_mark};
ghost use Rattle.reg_tables_represent.specs.SummaryChanges.{AddsSummary, AreNumbers, ArePushed, AreRemarked, IsHigherMarked, IsKept, IsVersionAt, PushesSummary, RemarksSummary};

use reg_line::line_len;
use reg_tables_sql::statements::Result;
use reg_tables_sql::summaries::{self, Summary};
use reg_tables_sql::versions::{self, VersionMark};
use reg_versions::{Release, VersionFault, highest, takes_over};
use sqlite::{Alter, Connection, Error};
use std::alloc::{AllocError, Global};

/// What a summary says about its crate.
#[derive(Clone, Copy, Debug)]
pub struct Numbers {
    pub highest: u64,
    pub index_length: u64,
}

fn read(alloc: Global, mark: &VersionMark) -> Result<(Release, bool)>
    ensures { IfOk result (λ r. r ≡ read_mark (shown_mark mark.now)) }
{
    match Release::parse(alloc, mark.vers.as_str()) {
        Ok(release) => Ok((release, mark.yanked)),
        Err(VersionFault::Bad) => Err(Error::InvalidQuery),
        Err(VersionFault::Memory) => Err(Error::from(AllocError)),
    }
}

fn read_each(alloc: Global, marks: &[VersionMark]) -> Result<Vec<(Release, bool)>>
    ensures { IfOk result (λ v. v.items ≡ map (λ m. read_mark (shown_mark m)) marks.now) }
{
    let mut releases = Vec::new(alloc);
    for mark in marks {
        releases.push(read(alloc, mark)?)?;
    }
    Ok(releases)
}

fn id_at(marks: &[VersionMark], place: usize) -> u64
    ensures { result ≡ unwrap_or (option_map (λ m. m.id) (slice_get marks.now place)) 0 }
{
    match marks.get(place) {
        Some(mark) => mark.id,
        None => 0,
    }
}

/// The id of the highest of these versions.
fn highest_id(alloc: Global, marks: &[VersionMark]) -> Result<u64>
    ensures { IfOk result (λ id. id ≡ highest_in (map shown_mark marks.now)) }
{
    let releases = read_each(alloc, marks)?;
    match highest(&releases) {
        Some(place) => Ok(id_at(marks, place)),
        None => Ok(0),
    }
}

fn with_line(before: u64, mark: &VersionMark) -> Result<u64>
    ensures { IfOk result (λ n. n ≡ before + line_length (shown_mark mark.now)) }
{
    match line_len(mark.stem_length, mark.yanked) {
        Some(line) => match before.checked_add(line) {
            Some(all) => Ok(all),
            None => Err(Error::InvalidQuery),
        },
        None => Err(Error::InvalidQuery),
    }
}

/// The length of the index file that these versions make.
fn index_length(marks: &[VersionMark]) -> Result<u64>
    ensures { IfOk result (λ n. n ≡ length_in (map shown_mark marks.now)) }
{
    let mut length = 0;
    for mark in marks {
        length = with_line(length, mark)?;
    }
    Ok(length)
}

/// What the versions of a crate yield, in order of publication. A text that is no version is an
/// error.
pub fn numbers_in(alloc: Global, marks: &[VersionMark]) -> Result<Numbers>
    ensures highest { IfOk result (λ n. n.highest ≡ highest_in (map shown_mark marks.now)) }
    ensures length { IfOk result (λ n. n.index_length ≡ length_in (map shown_mark marks.now)) }
{
    let highest = highest_id(alloc, marks)?;
    let index_length = index_length(marks)?;
    Ok(Numbers {
        highest,
        index_length,
    })
}

/// What the summary of a crate says, from its versions' rows.
fn numbers_of<S: Alter>(conn: &mut Connection<S>, crate_id: u32) -> Result<Numbers>
    requires { IsReady (state S.Store conn.old) }
    ensures told { Told S.Store conn.new result
        (λ n. AreNumbers crate_id (rows_in S.Store conn.old) n.highest n.index_length) }
    ensures same { KeepsAll S.Store conn.old conn.new result }
{
    let marks = versions::marks_of(conn, crate_id)?;
    let alloc = *marks.allocator();
    let numbers = numbers_in(alloc, &marks)?;
    Ok(numbers)
}

/// The summary of a crate that has one.
fn find_kept<S: Alter>(conn: &mut Connection<S>, crate_id: u32) -> Result<Summary>
    requires { IsReady (state S.Store conn.old) }
    ensures told { Told S.Store conn.new result (IsKept crate_id (rows_in S.Store conn.old)) }
    ensures same { KeepsAll S.Store conn.old conn.new result }
{
    let found = summaries::of_crate(conn, crate_id)?;
    found.ok_or(Error::InvalidQuery)
}

/// The version with this id.
fn version_at<S: Alter>(conn: &mut Connection<S>, id: u64) -> Result<VersionMark>
    requires { IsReady (state S.Store conn.old) }
    ensures told { Told S.Store conn.new result (IsVersionAt id (rows_in S.Store conn.old)) }
    ensures same { KeepsAll S.Store conn.old conn.new result }
{
    let found = versions::mark_by_id(conn, id)?;
    found.ok_or(Error::InvalidQuery)
}

/// The id of the higher of two versions, the second of them published later.
fn higher(one: &VersionMark, next: &VersionMark) -> Result<u64>
    ensures { IfOk result (λ id. id ≡ (higher_of (shown_mark one.now) (shown_mark next.now)).id) }
{
    let alloc = *one.vers.allocator();
    let first = read(alloc, one)?;
    let second = read(alloc, next)?;
    let is_next = takes_over(&first, &second);
    if is_next { Ok(next.id) } else { Ok(one.id) }
}

/// What the summary of a crate says with one more version, the last.
fn numbers_with<S: Alter>(conn: &mut Connection<S>, crate_id: u32, version: u64) -> Result<Numbers>
    requires { IsReady (state S.Store conn.old) }
    ensures told { Told S.Store conn.new result
        (λ n. ArePushed crate_id version (rows_in S.Store conn.old) n.highest n.index_length) }
    ensures same { KeepsAll S.Store conn.old conn.new result }
{
    let kept = find_kept(conn, crate_id)?;
    let top = version_at(conn, kept.highest)?;
    let next = version_at(conn, version)?;
    let highest = higher(&top, &next)?;
    let index_length = with_line(kept.index_length, &next)?;
    Ok(Numbers {
        highest,
        index_length,
    })
}

/// Adds the summary of a crate that has only this version.
pub(crate) fn insert<S: Alter>(conn: &mut Connection<S>, crate_id: u32, version: u64) -> Result<()>
    requires { IsReady (state S.Store conn.old) }
    ensures added { Done S.Store conn.new result
        (AddsSummary crate_id version (rows_in S.Store conn.old) (rows_in S.Store conn.new)) }
    ensures leaves { Steps S.Store conn.old conn.new result }
{
    let only = version_at(conn, version)?;
    let index_length = with_line(0, &only)?;
    let summary = Summary {
        crate_id,
        highest: version,
        index_length,
    };
    summaries::insert(conn, summary)?;
    Ok(())
}

/// Updates the summary of a crate for one more version, the last.
pub(crate) fn push<S: Alter>(conn: &mut Connection<S>, crate_id: u32, version: u64) -> Result<()>
    requires { IsReady (state S.Store conn.old) }
    ensures pushed { Done S.Store conn.new result
        (PushesSummary crate_id version (rows_in S.Store conn.old) (rows_in S.Store conn.new)) }
    ensures leaves { Steps S.Store conn.old conn.new result }
{
    let numbers = numbers_with(conn, crate_id, version)?;
    let summary = Summary {
        crate_id,
        highest: numbers.highest,
        index_length: numbers.index_length,
    };
    summaries::update(conn, summary)?;
    Ok(())
}

/// The id of the higher of two versions, given in either order.
fn higher_of_two(one: &VersionMark, other: &VersionMark) -> Result<u64>
    ensures { IfOk result
        (λ id. id ≡ (higher_by_id (shown_mark one.now) (shown_mark other.now)).id) }
{
    if one.id < other.id {
        higher(one, other)
    } else {
        higher(other, one)
    }
}

/// The id of the highest version once another has its mark changed, or the highest is unyanked:
/// `highest` was it before, and `now` has the new mark.
fn highest_marked<S: Alter>(
    conn: &mut Connection<S>,
    highest: u64,
    now: &VersionMark,
) -> Result<u64>
    requires { IsReady (state S.Store conn.old) }
    ensures told { Told S.Store conn.new result
        (IsHigherMarked highest (shown_mark now.now) (rows_in S.Store conn.old)) }
    ensures same { KeepsAll S.Store conn.old conn.new result }
{
    if now.yanked || now.id == highest {
        return Ok(highest);
    }
    let top = version_at(conn, highest)?;
    higher_of_two(now, &top)
}

/// The length of an index file once one of its marks is this one: `true` is shorter by a byte.
fn length_marked(before: u64, yanked: bool) -> Result<u64>
    ensures { IfOk result
        (λ n. n + length (end_of (not yanked)) ≡ before + length (end_of yanked)) }
{
    let length = if yanked {
        before.checked_sub(1)
    } else {
        before.checked_add(1)
    };
    length.ok_or(Error::InvalidQuery)
}

/// What the summary of a crate says once the mark of a version has changed.
fn numbers_marked<S: Alter>(
    conn: &mut Connection<S>,
    crate_id: u32,
    version: u64,
) -> Result<Numbers>
    requires { IsReady (state S.Store conn.old) }
    ensures told { Told S.Store conn.new result
        (λ n. AreRemarked crate_id version (rows_in S.Store conn.old) n.highest n.index_length) }
    ensures same { KeepsAll S.Store conn.old conn.new result }
{
    let kept = find_kept(conn, crate_id)?;
    let now = version_at(conn, version)?;
    if now.yanked && now.id == kept.highest {
        return numbers_of(conn, crate_id);
    }
    let highest = highest_marked(conn, kept.highest, &now)?;
    let index_length = length_marked(kept.index_length, now.yanked)?;
    Ok(Numbers {
        highest,
        index_length,
    })
}

/// Updates the summary of a crate once the mark of a version has changed.
pub(crate) fn update_after_yank<S: Alter>(
    conn: &mut Connection<S>,
    crate_id: u32,
    version: u64,
) -> Result<()>
    requires { IsReady (state S.Store conn.old) }
    ensures remarked { Done S.Store conn.new result
        (RemarksSummary crate_id version (rows_in S.Store conn.old) (rows_in S.Store conn.new)) }
    ensures leaves { Steps S.Store conn.old conn.new result }
{
    let numbers = numbers_marked(conn, crate_id, version)?;
    let summary = Summary {
        crate_id,
        highest: numbers.highest,
        index_length: numbers.index_length,
    };
    summaries::update(conn, summary)?;
    Ok(())
}

/// The summary of a crate.
pub fn of_crate<S: Alter>(conn: &mut Connection<S>, crate_id: u32) -> Result<Option<Summary>>
    requires { IsReady (state S.Store conn.old) }
    ensures found { Told S.Store conn.new result
        (FindsSummary crate_id (rows_in S.Store conn.old)) }
    ensures same { KeepsAll S.Store conn.old conn.new result }
{
    summaries::of_crate(conn, crate_id)
}
