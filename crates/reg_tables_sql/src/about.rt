//! The table of the one row that says what the store is.

ghost use Rattle.std.specs.Prelude.{◌≡◌, [], ◌∷◌, IfOk, map, string_bytes};
ghost use Rattle.std.specs.Option.{option_map};
ghost use Rattle.sqlite.specs.Held.{state};
ghost use Rattle.sqlite.specs.declared.types.Value.TheVariants.{Int};
ghost use Rattle.reg_tables_schema.specs.Places.{about_tree, id_place};
ghost use Rattle.reg_tables_schema.specs.States.{IsReady, IsReadyOf};
ghost use Rattle.reg_tables_schema.specs.Statements.{Reads, Writes, rows_in};
ghost use Rattle.reg_tables_schema.specs.Tests.{shows};
ghost use Rattle.reg_tables_sql.specs.Abouts.{BecomesSecond, IsAbout, IsAboutOf, IsBase, IsBaseOf, NumbersSecond};
ghost use Rattle.reg_tables_sql.specs.Answers.{Finds};

use crate::statements::{Result, rows_of, select_only, write};
use reg_tables_schema::SchemaVersion;
use sqlite::{Alter, Connection, Row, params};

/// What the one row says: the schema of the tables, and the base of the registry.
#[derive(Debug, Drop)]
pub struct About {
    pub edition: SchemaVersion,
    pub base: String,
}

fn about_of(rows: &[Row]) -> Result<Option<About>>
    ensures { IfOk result (IsAbout rows.now) }
{
    if rows.len() != 1 || rows[0].column_count() != 2 {
        return Ok(None);
    }
    let edition = match rows[0].get::<i64>(0)? {
        1 => SchemaVersion::First,
        2 => SchemaVersion::Second,
        _ => return Ok(None),
    };
    let base = rows[0].get(1)?;
    Ok(Some(About { edition, base }))
}

const READ_TEXT: &str = "SELECT schema, base FROM about";

/// What the row says; none if it is not alone, or its number belongs to no schema of ours.
pub fn read<S: Alter>(conn: &mut Connection<S>) -> Result<Option<About>>
    requires { (e : SchemaVersion) × IsReadyOf e (state S.Store conn.old) }
    ensures { Finds S.Store conn.old conn.new result IsAboutOf }
{
    let rows = rows_of(conn, READ_TEXT, &[])?;
    about_of(&rows)
}

fn second_base(about: Option<About>) -> Option<String>
    ensures { (rows : _) → IsAbout rows about → IsBase rows (option_map string_bytes result) }
{
    let About { edition, base } = about?;
    match edition {
        SchemaVersion::First => None,
        SchemaVersion::Second => Some(base),
    }
}

/// The base of a registry of schema 2; none if the row is not alone, or is not of that schema.
pub fn base<S: Alter>(conn: &mut Connection<S>) -> Result<Option<String>>
    requires { IsReady (state S.Store conn.old) }
    ensures { Reads S.Store conn.old conn.new result
        (λ base. IsBaseOf (rows_in S.Store conn.old) (option_map string_bytes base)) }
{
    let about = read(conn)?;
    Ok(second_base(about))
}

const THE_ROWID_TEXT: &str = "SELECT rowid FROM about";

fn the_rowid<S: Alter>(conn: &mut Connection<S>) -> Result<i64>
    requires { IsReady (state S.Store conn.old) }
    ensures { Reads S.Store conn.old conn.new result (λ id. map (shows (id_place ∷ []))
        (rows_in S.Store conn.old about_tree) ≡ (Int id ∷ []) ∷ []) }
{
    select_only::<i64, S>(conn, THE_ROWID_TEXT, &[])
}

const NUMBER_SECOND_TEXT: &str = "UPDATE about SET schema = 2 WHERE rowid = ?1";

fn number_second<S: Alter>(conn: &mut Connection<S>, id: i64) -> Result<()>
    requires { IsReady (state S.Store conn.old) }
    ensures { Writes S.Store conn.old conn.new result (NumbersSecond id) }
{
    write(conn, NUMBER_SECOND_TEXT, params![id])
}

/// Gives the row the number of schema 2. This is refused if the row is not alone.
pub fn set_second<S: Alter>(conn: &mut Connection<S>) -> Result<()>
    requires { IsReady (state S.Store conn.old) }
    ensures { Writes S.Store conn.old conn.new result BecomesSecond }
{
    let id = the_rowid(conn)?;
    number_second(conn, id)
}
