//! Any single text that reads or writes.

ghost use Rattle.std.specs.Prelude.{◌≡◌, ◌==◌, [], ◌∷◌, Ok, length, map, not};
ghost use Rattle.sqlite.specs.Held.{state};
ghost use Rattle.sqlite.specs.Listing.{understood};
ghost use Rattle.sqlite.specs.State.{Executes};
ghost use Rattle.sqlite.specs.Values.{bound};
ghost use Rattle.reg_tables_schema.specs.Rows.{number_columns};
ghost use Rattle.reg_tables_schema.specs.Schema.{ours};
ghost use Rattle.reg_tables_schema.specs.Shown.{shown_of};
ghost use Rattle.reg_tables_schema.specs.States.{IsReady};
ghost use Rattle.reg_tables_schema.specs.Statements.{Answers, IsRowWrite, MayRead, Reads, Writes};
ghost use Rattle.reg_tables_schema.specs.Steps.{KeepsAll, Told};

use crate::records::{FromRow, read_all};
use sqlite::types::ValueRef;
use sqlite::{Alter, Connection, Error, Row};
use std::alloc::Global;

/// What a statement answers.
pub type Result<T, E = Error> = std::result::Result<T, E>;

/// The rows of a read-only query.
pub fn rows_of<S: Alter>(
    conn: &mut Connection<S>,
    text: &str,
    params: &[ValueRef<'_>],
) -> Result<Vec<Row>>
    requires { MayRead text.now (state S.Store conn.old) }
    ensures { Reads S.Store conn.old conn.new result
        (λ rows. Answers S.Store conn.old conn.new text.now (bound params.now) rows.items) }
{
    conn.query_all(text, params)
}

/// The only row of a read-only query, as a record; none if there is no row. The record is made of
/// the row where it stands.
pub fn select_one<T: FromRow, S: Alter>(
    conn: &mut Connection<S>,
    text: &str,
    params: &[ValueRef<'_>],
) -> Result<Option<T>>
    requires { MayRead text.now (state S.Store conn.old) }
    ensures { Reads S.Store conn.old conn.new result (λ found.
        Answers S.Store conn.old conn.new text.now (bound params.now)
        (shown_of T.FromRow.columns found)) }
{
    let mut rows = conn.query(text, params)?;
    let Some(row) = rows.next()? else {
        return Ok(None);
    };
    let found = T::from_row(row)?;
    match rows.next()? {
        None => Ok(Some(found)),
        Some(_) => Err(Error::InvalidQuery),
    }
}

fn walk<T: FromRow, S: Alter>(
    alloc: Global,
    conn: &mut Connection<S>,
    text: &str,
    params: &[ValueRef<'_>],
) -> Result<Vec<T>>
    requires { MayRead text.now (state S.Store conn.old) }
    ensures told { Told S.Store conn.new result (λ list. Answers S.Store conn.old conn.new text.now
        (bound params.now) (map T.FromRow.columns list.items)) }
    ensures leaves { KeepsAll S.Store conn.old conn.new result }
{
    let mut list = Vec::new(alloc);
    let mut rows = conn.query(text, params)?;
    'rows: for _ in 0..u64::MAX {
        let Some(row) = rows.next()? else {
            return Ok(list);
        };
        list.push(T::from_row(row)?)?;
    }
    Err(Error::InvalidQuery)
}

/// The rows of a read-only query, as records. They come one at a time, so that none is held beside
/// its record.
pub fn select_list<T: FromRow, S: Alter>(
    alloc: Global,
    conn: &mut Connection<S>,
    text: &str,
    params: &[ValueRef<'_>],
) -> Result<Vec<T>>
    requires { MayRead text.now (state S.Store conn.old) }
    ensures { Reads S.Store conn.old conn.new result (λ list.
        Answers S.Store conn.old conn.new text.now (bound params.now)
        (map T.FromRow.columns list.items)) }
{
    walk(alloc, conn, text, params)
}

/// The same, for a caller with no memory to give: the records are made in the rows' memory.
pub(crate) fn select_here<T: FromRow, S: Alter>(
    conn: &mut Connection<S>,
    text: &str,
    params: &[ValueRef<'_>],
) -> Result<Vec<T>>
    requires { MayRead text.now (state S.Store conn.old) }
    ensures { Reads S.Store conn.old conn.new result (λ list.
        Answers S.Store conn.old conn.new text.now (bound params.now)
        (map T.FromRow.columns list.items)) }
{
    let rows = rows_of(conn, text, params)?;
    let alloc = *rows.allocator();
    read_all(alloc, rows)
}

/// The only row of a read-only query, as a record. It is an error if there is none.
pub(crate) fn select_only<T: FromRow, S: Alter>(
    conn: &mut Connection<S>,
    text: &str,
    params: &[ValueRef<'_>],
) -> Result<T>
    requires { MayRead text.now (state S.Store conn.old) }
    ensures { Reads S.Store conn.old conn.new result (λ it.
        Answers S.Store conn.old conn.new text.now (bound params.now)
        (T.FromRow.columns it ∷ [])) }
{
    let found = select_one::<T, S>(conn, text, params)?;
    found.ok_or(Error::InvalidQuery)
}

/// Whether a read-only query has a row.
pub fn has_row<S: Alter>(
    conn: &mut Connection<S>,
    text: &str,
    params: &[ValueRef<'_>],
) -> Result<bool>
    requires { MayRead text.now (state S.Store conn.old) }
    ensures { Reads S.Store conn.old conn.new result (λ has. (rows : _)
        × Answers S.Store conn.old conn.new text.now (bound params.now) rows
        × (has ≡ not (length rows == 0))) }
{
    let mut rows = conn.query(text, params)?;
    'rows: for count in 0..u64::MAX {
        if rows.next()?.is_none() {
            return Ok(count > 0);
        }
    }
    Err(Error::InvalidQuery)
}

/// Runs a statement that writes rows.
pub(crate) fn write<S: Alter>(
    conn: &mut Connection<S>,
    text: &str,
    params: &[ValueRef<'_>],
) -> Result<()>
    requires ready { IsReady (state S.Store conn.old) }
    requires writes { IsRowWrite (understood ours text.now) }
    ensures { Writes S.Store conn.old conn.new result
        (λ old new. (count : _) × Executes text.now (bound params.now) old new (Ok count)) }
{
    conn.execute(text, params)?;
    Ok(())
}
