//! All entries of a crate's index file.

ghost use Rattle.std.specs.Prelude.{IfOk};
ghost use Rattle.sqlite.specs.Held.{state};
ghost use Rattle.sqlite.specs.State.{HasCleanDisk};
ghost use Rattle.reg_tables_schema.specs.States.{IsOurs};
ghost use Rattle.reg_tables_schema.specs.Statements.{rows_in};
ghost use Rattle.reg_tables_sql.specs.Stems.{AreEntriesOf};
ghost use Rattle.reg_tables_represent.specs.Walks.{IsRead};

use reg_tables_represent::entries::index_rows;
use reg_tables_schema::SchemaVersion;
use reg_tables_sql::records::FromRow;
use reg_tables_sql::statements::Result;
use reg_tables_sql::versions::StemRow;
use sqlite::{Alter, Connection, Error};
use std::alloc::Global;

/// All entries of the crate with this id, in order of publication. They are only read.
pub fn index_entries<S: Alter>(
    alloc: Global,
    conn: &mut Connection<S>,
    crate_id: u32,
) -> Result<Vec<StemRow>>
    requires { IsOurs SchemaVersion.Second (state S.Store conn.old) }
    ensures entries { HasCleanDisk (state S.Store conn.new) → IfOk result
        (λ list. AreEntriesOf crate_id (rows_in S.Store conn.old) list.items) }
    ensures reads { IsRead S.Store result conn.old conn.new }
{
    let mut list = Vec::new(alloc);
    let mut rows = index_rows(conn, crate_id)?;
    'rows: for _ in 0..u64::MAX {
        let Some(row) = rows.next()? else {
            return Ok(list);
        };
        list.push(StemRow::from_row(row)?)?;
    }
    Err(Error::InvalidQuery)
}
