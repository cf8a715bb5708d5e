//! The rows of a query, read as records, in no transaction of the reader's own.

ghost use Rattle.std.specs.Prelude.{IfOk, map};
ghost use Rattle.sqlite.specs.Held.{state};
ghost use Rattle.sqlite.specs.State.{HasCleanDisk};
ghost use Rattle.sqlite.specs.Values.{bound};
ghost use Rattle.reg_tables_represent.specs.Walks.{IsRead, MayStream};
ghost use Rattle.reg_search.specs.Reads.{AnswersOf};

use reg_tables::{FromRow, rows_of};
use sqlite::types::ValueRef;
use sqlite::{Alter, Connection, Error};
use std::alloc::Global;

/// The rows of a read-only query, as records.
pub(crate) fn read_all<T: FromRow, S: Alter>(
    alloc: Global,
    conn: &mut Connection<S>,
    text: &str,
    params: &[ValueRef<'_>],
) -> Result<Vec<T>, Error>
    requires { MayStream text.now (state S.Store conn.old) }
    ensures told { HasCleanDisk (state S.Store conn.new) → IfOk result
        (λ list. AnswersOf S.Store conn.old conn.new text.now (bound params.now)
        (map T.FromRow.columns list.items)) }
    ensures reads { IsRead S.Store result conn.old conn.new }
{
    let mut list = Vec::new(alloc);
    let mut rows = rows_of(conn, text, params)?;
    'rows: for _ in 0..u64::MAX {
        let Some(row) = rows.next()? else {
            return Ok(list);
        };
        list.push(T::from_row(row)?)?;
    }
    Err(Error::InvalidQuery)
}
