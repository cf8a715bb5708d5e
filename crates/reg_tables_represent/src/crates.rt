//! Changes to crates and their versions.

ghost use Rattle.std.specs.Prelude.{◌≡◌, ◌<◌, ◌^◌, IfOk};
ghost use Rattle.sqlite.specs.Held.{state};
ghost use Rattle.reg_tables_schema.specs.States.{IsReady};
ghost use Rattle.reg_tables_schema.specs.Statements.{rows_in};
ghost use Rattle.reg_tables_schema.specs.Steps.{Done, KeepsAll, Steps, Told};
ghost use Rattle.reg_tables_represent.specs.Calls.{AddsFirst, AddsNext, SetsYanked, TellsOtherMark, published};
ghost use Rattle.reg_tables_represent.specs.Additions.{AddsCrate, AddsVersion};
ghost use Rattle.reg_tables_represent.specs.Ids.{IsNext};
ghost use Rattle.reg_tables_represent.specs.Marking.{IsOtherwise, id_unless};

use crate::accounts::next_id;
use crate::summaries;
use reg_line::Digest;
use reg_names::{CrateName, canon};
use reg_tables_sql::pairs::{Pair, Relation};
use reg_tables_sql::statements::Result;
use reg_tables_sql::versions::{self, VersionMark, VersionRow};
use reg_tables_sql::{archives, crates, pairs};
use reg_versions::release_key;
use sqlite::{Alter, Connection, Error};

/// A version of a crate to add.
#[derive(Clone, Copy, Debug)]
pub struct NewVersion<'a> {
    pub text: &'a str,
    pub description: Option<&'a str>,
    pub stem: &'a [u8],
    pub digest: &'a Digest,
    pub archive: &'a [u8],
}

// One more than the greatest id; none if SQL's integers hold no more.
fn next_version(last: Option<u64>) -> Result<u64>
    ensures { IfOk result (λ id. IsNext last id × (id < 2 ^ 63)) }
{
    match last {
        None => Ok(1),
        Some(id) => {
            if id < i64::MAX as u64 {
                Ok(id + 1)
            } else {
                Err(Error::InvalidQuery)
            }
        }
    }
}

fn insert_crate<S: Alter>(conn: &mut Connection<S>, name: &CrateName, owner: u32) -> Result<u32>
    requires { IsReady (state S.Store conn.old) }
    ensures added { Told S.Store conn.new result (λ id.
        AddsCrate id name.now owner (rows_in S.Store conn.old) (rows_in S.Store conn.new)) }
    ensures leaves { Steps S.Store conn.old conn.new result }
{
    let last = crates::last_id(conn)?;
    let id = next_id(last)?;
    crates::insert(conn, id, canon(name).as_str(), name.as_str())?;
    let pair = Pair {
        crate_id: id,
        account: owner,
    };
    pairs::insert(conn, Relation::Owners, pair)?;
    Ok(id)
}

fn insert_version<S: Alter>(
    conn: &mut Connection<S>,
    crate_id: u32,
    version: &NewVersion<'_>,
) -> Result<u64>
    requires { IsReady (state S.Store conn.old) }
    ensures added { Told S.Store conn.new result (λ id. (name : _)
        → AddsVersion id crate_id (published name version.now)
        (rows_in S.Store conn.old) (rows_in S.Store conn.new)) }
    ensures leaves { Steps S.Store conn.old conn.new result }
{
    let last = versions::last_id(conn)?;
    let id = next_version(last)?;
    let release = release_key(version.text);
    let row = VersionRow {
        id,
        crate_id,
        vers: version.text,
        release,
        digest: version.digest,
        stem: version.stem,
        description: version.description,
    };
    versions::insert(conn, &row)?;
    archives::insert(conn, id, version.archive)?;
    Ok(id)
}

/// Adds a crate with its first version and its owner, and returns its id.
pub fn add_new<S: Alter>(
    conn: &mut Connection<S>,
    name: &CrateName,
    owner: u32,
    version: &NewVersion<'_>,
) -> Result<u32>
    requires { IsReady (state S.Store conn.old) }
    ensures stands { Told S.Store conn.new result
        (AddsFirst name.now owner version.now
        (rows_in S.Store conn.old) (rows_in S.Store conn.new)) }
    ensures leaves { Steps S.Store conn.old conn.new result }
{
    let id = insert_crate(conn, name, owner)?;
    let first = insert_version(conn, id, version)?;
    summaries::insert(conn, id, first)?;
    Ok(id)
}

/// Adds a version to an existing crate.
pub fn add_next<S: Alter>(
    conn: &mut Connection<S>,
    crate_id: u32,
    version: &NewVersion<'_>,
) -> Result<()>
    requires { IsReady (state S.Store conn.old) }
    ensures stands { Done S.Store conn.new result
        (AddsNext crate_id version.now (rows_in S.Store conn.old) (rows_in S.Store conn.new)) }
    ensures leaves { Steps S.Store conn.old conn.new result }
{
    let id = insert_version(conn, crate_id, version)?;
    summaries::push(conn, crate_id, id)?;
    Ok(())
}

fn id_unless(found: &VersionMark, yanked: bool) -> Option<u64>
    ensures { result ≡ id_unless found.now.yanked yanked found.now.id }
{
    if found.yanked == yanked {
        None
    } else {
        Some(found.id)
    }
}

/// The id of a version, if it is there and has the other mark.
fn find_other_mark<S: Alter>(
    conn: &mut Connection<S>,
    crate_id: u32,
    text: &str,
    yanked: bool,
) -> Result<Option<u64>>
    requires { IsReady (state S.Store conn.old) }
    ensures told { Told S.Store conn.new result
        (IsOtherwise crate_id text.now yanked (rows_in S.Store conn.old)) }
    ensures same { KeepsAll S.Store conn.old conn.new result }
{
    let found = versions::mark_by_text(conn, crate_id, release_key(text), text)?;
    match found {
        Some(version) => Ok(id_unless(&version, yanked)),
        None => Ok(None),
    }
}

/// Yanks or unyanks a version of a crate that is there, and returns whether it had the other mark.
/// If it had not, nothing is written.
pub fn mark<S: Alter>(
    conn: &mut Connection<S>,
    crate_id: u32,
    text: &str,
    yanked: bool,
) -> Result<bool>
    requires { IsReady (state S.Store conn.old) }
    ensures stands { Done S.Store conn.new result
        (SetsYanked crate_id text.now yanked
        (rows_in S.Store conn.old) (rows_in S.Store conn.new)) }
    ensures tells { Told S.Store conn.new result
        (TellsOtherMark crate_id text.now yanked (rows_in S.Store conn.old)) }
    ensures leaves { Steps S.Store conn.old conn.new result }
{
    let found = find_other_mark(conn, crate_id, text, yanked)?;
    let Some(version) = found else {
        return Ok(false);
    };
    versions::set_yanked(conn, crate_id, release_key(text), text, yanked)?;
    summaries::update_after_yank(conn, crate_id, version)?;
    Ok(true)
}
