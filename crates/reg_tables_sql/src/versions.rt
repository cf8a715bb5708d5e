//! The table of versions, one statement per function.

ghost use Rattle.std.specs.Prelude.{◌≡◌, ◌<◌, ◌^◌, ◌∷◌, [], pos, IfOk, OnOk};
ghost use Rattle.sqlite.specs.Held.{state};
ghost use Rattle.sqlite.specs.Order.{column};
ghost use Rattle.sqlite.specs.declared.types.Value.TheVariants.{Int};
ghost use Rattle.reg_tables_schema.specs.Changes.{Adds};
ghost use Rattle.reg_tables_schema.specs.Places.{version_crate_place, versions_tree};
ghost use Rattle.reg_tables_schema.specs.Rows.{sql_bool};
ghost use Rattle.reg_tables_schema.specs.States.{IsReady};
ghost use Rattle.reg_tables_schema.specs.Statements.{Writes};
ghost use Rattle.reg_tables_sql.specs.Answers.{Finds, Lists};
ghost use Rattle.reg_tables_sql.specs.Counts.{IsCount, IsCountOf, IsLastId};
ghost use Rattle.reg_tables_sql.specs.Stems.{AreEntriesOf};
ghost use Rattle.reg_tables_sql.specs.VersionMarks.{AreMarksOf, IsMarkOf, IsMarkWithId};
ghost use Rattle.reg_tables_sql.specs.Versions.{AreVersions, AreVersionsOf, MarksYanked, columns_of_version, row_added};

use crate::marks::mark_of;
use crate::records::{FromRow, check_width};
use crate::statements::{Result, select_here, select_list, select_one, select_only, write};
use sqlite::{Alter, Connection, Error, Row, params};
use std::alloc::Global;

/// A version of a crate.
#[derive(Debug, Drop)]
pub struct Version {
    pub id: u64,
    pub crate_id: u32,
    pub vers: String,
    pub release: String,
    pub digest: Vec<u8>,
    pub stem: Vec<u8>,
    pub description: Option<String>,
    pub yanked: bool,
}

impl FromRow for Version {
    ghost columns = { columns_of_version };

    fn from_row(row: &Row) -> Result<Version> {
        check_width(row, 8)?;
        with_texts(row, row.get(0)?, row.get(1)?, mark_of(row, 7)?)
    }
}

// The numbers come first: what owns no memory costs the check little if it lives long.
fn with_texts(row: &Row, id: u64, crate_id: u32, yanked: bool) -> Result<Version>
    ensures { IfOk result (λ it. columns_of_version it ≡ Int (pos id) ∷ Int (pos crate_id)
        ∷ column row.now 2 ∷ column row.now 3 ∷ column row.now 4 ∷ column row.now 5
        ∷ column row.now 6 ∷ sql_bool yanked ∷ []) }
{
    Ok(Version {
        id,
        crate_id,
        vers: row.get(2)?,
        release: row.get(3)?,
        digest: row.get(4)?,
        stem: row.get(5)?,
        description: row.get(6)?,
        yanked,
    })
}

/// What a version's line in an index file is made of.
#[derive(Debug, Drop)]
pub struct StemRow {
    pub stem: Vec<u8>,
    pub yanked: bool,
}

/// What a crate's summary is made of: one of its versions, and its stem's length.
#[derive(Debug, Drop)]
pub struct VersionMark {
    pub id: u64,
    pub vers: String,
    pub stem_length: u64,
    pub yanked: bool,
}

/// A version to add.
#[derive(Clone, Copy, Debug)]
pub struct VersionRow<'a> {
    pub id: u64,
    pub crate_id: u32,
    pub vers: &'a str,
    pub release: &'a str,
    pub digest: &'a [u8; 32],
    pub stem: &'a [u8],
    pub description: Option<&'a str>,
}

/// The rows of the index file of a crate, by version id; each is a `StemRow`.
pub const ENTRIES_TEXT: &str = "SELECT stem, yanked FROM versions WHERE crate = ?1 ORDER BY id";

const INSERT_TEXT: &str =
    "INSERT INTO versions (id, crate, vers, release, digest, stem, description, yanked) VALUES \
    (?1, ?2, ?3, ?4, ?5, ?6, ?7, 0)";

/// Adds a version that is not yanked. SQL keeps ids below 2^63.
pub fn insert<S: Alter>(conn: &mut Connection<S>, version: &VersionRow<'_>) -> Result<()>
    requires ready { IsReady (state S.Store conn.old) }
    requires small { version.now.id < 2 ^ 63 }
    ensures { Writes S.Store conn.old conn.new result
        (Adds versions_tree (row_added version.now)) }
{
    write(
        conn,
        INSERT_TEXT,
        params![
            version.id as i64,
            version.crate_id,
            version.vers,
            version.release,
            version.digest.as_slice(),
            version.stem,
            version.description
        ],
    )
}

const SET_YANKED_TEXT: &str =
    "UPDATE versions SET yanked = ?4 WHERE crate = ?1 AND release = ?2 AND vers = ?3";

/// Yanks or unyanks a version.
pub fn set_yanked<S: Alter>(
    conn: &mut Connection<S>,
    crate_id: u32,
    release: &str,
    vers: &str,
    yanked: bool,
) -> Result<()>
    requires { IsReady (state S.Store conn.old) }
    ensures { Writes S.Store conn.old conn.new result
        (MarksYanked crate_id release.now vers.now yanked) }
{
    write(
        conn,
        SET_YANKED_TEXT,
        params![crate_id, release, vers, yanked],
    )
}

const OF_CRATE_TEXT: &str =
    "SELECT id, crate, vers, release, digest, stem, description, yanked FROM versions WHERE crate \
    = ?1 ORDER BY id";

/// The versions of a crate, by id.
pub fn of_crate<S: Alter>(
    alloc: Global,
    conn: &mut Connection<S>,
    crate_id: u32,
) -> Result<Vec<Version>>
    requires { IsReady (state S.Store conn.old) }
    ensures { Lists S.Store conn.old conn.new result (AreVersionsOf crate_id) }
{
    let text = OF_CRATE_TEXT;
    select_list(alloc, conn, text, params![crate_id])
}

const ALL_TEXT: &str =
    "SELECT id, crate, vers, release, digest, stem, description, yanked FROM versions ORDER BY id";

/// All versions, by id.
pub fn all<S: Alter>(alloc: Global, conn: &mut Connection<S>) -> Result<Vec<Version>>
    requires { IsReady (state S.Store conn.old) }
    ensures { Lists S.Store conn.old conn.new result AreVersions }
{
    let text = ALL_TEXT;
    select_list(alloc, conn, text, &[])
}

/// The rows of a crate's index file.
pub fn entries<S: Alter>(
    alloc: Global,
    conn: &mut Connection<S>,
    crate_id: u32,
) -> Result<Vec<StemRow>>
    requires { IsReady (state S.Store conn.old) }
    ensures { Lists S.Store conn.old conn.new result (AreEntriesOf crate_id) }
{
    select_list(alloc, conn, ENTRIES_TEXT, params![crate_id])
}

const MARKS_OF_TEXT: &str =
    "SELECT id, vers, length(stem), yanked FROM versions WHERE crate = ?1 ORDER BY id";

/// The marks of the versions of a crate, by id.
pub fn marks_of<S: Alter>(conn: &mut Connection<S>, crate_id: u32) -> Result<Vec<VersionMark>>
    requires { IsReady (state S.Store conn.old) }
    ensures { Lists S.Store conn.old conn.new result (AreMarksOf crate_id) }
{
    select_here(conn, MARKS_OF_TEXT, params![crate_id])
}

fn check_id(id: u64) -> Result<()>
    ensures { OnOk result (id < 2 ^ 63) }
{
    if id > i64::MAX as u64 {
        return Err(Error::InvalidQuery);
    }
    Ok(())
}

const MARK_BY_ID_TEXT: &str = "SELECT id, vers, length(stem), yanked FROM versions WHERE id = ?1";

/// The mark of the version with this id, if there is one. SQL keeps ids below 2^63.
pub fn mark_by_id<S: Alter>(conn: &mut Connection<S>, id: u64) -> Result<Option<VersionMark>>
    requires { IsReady (state S.Store conn.old) }
    ensures { Finds S.Store conn.old conn.new result (IsMarkWithId id) }
{
    check_id(id)?;
    select_one(conn, MARK_BY_ID_TEXT, params![id as i64])
}

const MARK_BY_TEXT_TEXT: &str =
    "SELECT id, vers, length(stem), yanked FROM versions WHERE crate = ?1 AND release = ?2 AND \
    vers = ?3";

/// The mark of a version of a crate, by its release and its text.
pub fn mark_by_text<S: Alter>(
    conn: &mut Connection<S>,
    crate_id: u32,
    release: &str,
    vers: &str,
) -> Result<Option<VersionMark>>
    requires { IsReady (state S.Store conn.old) }
    ensures { Finds S.Store conn.old conn.new result (IsMarkOf crate_id release.now vers.now) }
{
    let text = MARK_BY_TEXT_TEXT;
    select_one(conn, text, params![crate_id, release, vers])
}

const COUNT_OF_TEXT: &str = "SELECT count(*) FROM versions WHERE crate = ?1";

/// How many versions a crate has, up to SQL's greatest count.
pub fn count_of<S: Alter>(conn: &mut Connection<S>, crate_id: u32) -> Result<u64>
    requires { IsReady (state S.Store conn.old) }
    ensures { Finds S.Store conn.old conn.new result
        (IsCountOf versions_tree version_crate_place crate_id) }
{
    select_only::<u64, S>(conn, COUNT_OF_TEXT, params![crate_id])
}

const COUNT_TEXT: &str = "SELECT count(*) FROM versions";

/// How many versions there are, up to SQL's greatest count.
pub fn count<S: Alter>(conn: &mut Connection<S>) -> Result<u64>
    requires { IsReady (state S.Store conn.old) }
    ensures { Finds S.Store conn.old conn.new result (IsCount versions_tree) }
{
    select_only::<u64, S>(conn, COUNT_TEXT, &[])
}

const LAST_ID_TEXT: &str = "SELECT id FROM versions ORDER BY id DESC LIMIT 1";

/// The greatest version id, if there is one.
pub fn last_id<S: Alter>(conn: &mut Connection<S>) -> Result<Option<u64>>
    requires { IsReady (state S.Store conn.old) }
    ensures { Finds S.Store conn.old conn.new result (IsLastId versions_tree) }
{
    select_one(conn, LAST_ID_TEXT, &[])
}
