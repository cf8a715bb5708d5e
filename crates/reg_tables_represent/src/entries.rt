//! The entries of a crate's index file, one row at a time.

ghost use Rattle.std.specs.Prelude.{◌≡◌, [], ◌∷◌, pos, IfOk};
ghost use Rattle.std.specs.Borrow.{sem, RestsIfErr};
ghost use Rattle.sqlite.specs.Held.{state};
ghost use Rattle.sqlite.specs.Given.{HasGiven};
ghost use Rattle.sqlite.specs.State.{HasCleanDisk, IsUnchanged, Survives};
ghost use Rattle.sqlite.specs.declared.types.Value.TheVariants.{Int};
ghost use Rattle.sqlite.specs.contracts.connection.Connection as connection;
ghost use Rattle.reg_tables_schema.specs.States.{IsOurs};
ghost use Rattle.reg_tables_sql.specs.Stems.{entries_text};
ghost use Rattle.reg_tables_represent.specs.Walks.{IsSpared};

use crate::walks::rows_of;
use reg_tables_schema::SchemaVersion;
use reg_tables_sql::statements::Result;
use reg_tables_sql::versions::ENTRIES_TEXT;
use sqlite::{Alter, Connection, Rows, params};

/// The entries of the crate with this id, in order of publication, one row at a time: each is a
/// `StemRow`. They may be dropped at any row.
pub fn index_rows<'c, S: Alter>(conn: &'c mut Connection<S>, crate_id: u32) -> Result<Rows<'c, S>>
    requires { IsOurs SchemaVersion.Second (state S.Store conn.old) }
    ensures* refused { sem 𝓛 (RestsIfErr (connection.the_row S.row S.Store) conn.entry
        (λ rows. rows.conn.ghost_name) result (IsSpared S.Store conn.old)) }
    ensures same_reference { IfOk result (λ rows. rows.conn.ghost_name ≡ conn.entry.ghost_name) }
    ensures begun { IfOk result (λ rows. HasCleanDisk (state S.Store rows.conn.now)
        → HasGiven S.Store entries_text (Int (pos crate_id) ∷ []) rows.conn.now []) }
    ensures same { IfOk result (λ rows. HasCleanDisk (state S.Store rows.conn.now) → IsUnchanged
        (state S.Store conn.old) (state S.Store rows.conn.now)) }
    ensures ours { (e : SchemaVersion) → IsOurs e (state S.Store conn.old) → IfOk result
        (λ rows. IsOurs e (state S.Store rows.conn.now)) }
    ensures survives { IfOk result (λ rows. Survives (state S.Store conn.old)
        (state S.Store rows.conn.now) (λ _. ⊥)) }
{
    rows_of(conn, ENTRIES_TEXT, params![crate_id])
}
