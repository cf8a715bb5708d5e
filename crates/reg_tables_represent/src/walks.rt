//! Rows of the tables, one at a time.

ghost use Rattle.std.specs.Prelude.{◌≡◌, [], IfOk};
ghost use Rattle.std.specs.Borrow.{sem, RestsIfErr};
ghost use Rattle.sqlite.specs.Given.{HasGiven};
ghost use Rattle.sqlite.specs.Held.{state};
ghost use Rattle.sqlite.specs.State.{HasCleanDisk, IsUnchanged, Survives};
ghost use Rattle.sqlite.specs.Values.{bound};
ghost use Rattle.sqlite.specs.contracts.connection.Connection as connection;
ghost use Rattle.reg_tables_schema.specs.States.{IsOurs};
ghost use Rattle.reg_tables_represent.specs.Walks.{IsSpared, MayStream};

use reg_tables_schema::SchemaVersion;
use reg_tables_sql::statements::Result;
use sqlite::types::ValueRef;
use sqlite::{Alter, Connection, Rows};

/// The rows of a read-only query, one at a time, from a connection to our tables. They may be
/// dropped at any row. The query is prepared first, since that alone shows that the connection is
/// open.
pub fn rows_of<'c, S: Alter>(
    conn: &'c mut Connection<S>,
    text: &str,
    params: &[ValueRef<'_>],
) -> Result<Rows<'c, S>>
    requires { MayStream text.now (state S.Store conn.old) }
    ensures* refused { sem 𝓛 (RestsIfErr (connection.the_row S.row S.Store) conn.entry
        (λ rows. rows.conn.ghost_name) result (IsSpared S.Store conn.old)) }
    ensures same_reference { IfOk result (λ rows. rows.conn.ghost_name ≡ conn.entry.ghost_name) }
    ensures begun { IfOk result (λ rows. HasCleanDisk (state S.Store rows.conn.now)
        → HasGiven S.Store text.now (bound params.now) rows.conn.now []) }
    ensures same { IfOk result (λ rows. HasCleanDisk (state S.Store rows.conn.now) → IsUnchanged
        (state S.Store conn.old) (state S.Store rows.conn.now)) }
    ensures ours { (e : SchemaVersion) → IsOurs e (state S.Store conn.old) → IfOk result
        (λ rows. IsOurs e (state S.Store rows.conn.now)) }
    ensures survives { IfOk result (λ rows. Survives (state S.Store conn.old)
        (state S.Store rows.conn.now) (λ _. ⊥)) }
{
    let statement = conn.prepare(text)?;
    conn.query_prepared(&statement, params)
}
