//! Whether a store still answers.

ghost use Rattle.std.specs.Prelude.{◌≡◌, Err, IsTrue};
ghost use Rattle.sqlite.specs.Held.{state};
ghost use Rattle.sqlite.specs.State.{HasCleanDisk, Survives};
ghost use Rattle.reg_tables_schema.specs.States.{GoesBack, IsOurs, IsUndone};

use reg_tables_schema::laws::rest_law;
use reg_tables_schema::{ROLLBACK, SchemaVersion};
use sqlite::{Alter, Connection, Error, ErrorCode};

/// Whether a statement was refused since no transaction was open.
fn lacks_transaction(said: &Result<usize, Error>) -> bool
    ensures { IsTrue result → said.now
        ≡ Err (Error.SqliteFailure ErrorCode.TransactionState) }
{
    matches!(said, Err(Error::SqliteFailure(ErrorCode::TransactionState)))
}

/// Whether the store still answers. A ROLLBACK outside a transaction tells it: an open store
/// refuses it by name, and one that has closed, or has no memory for it, fails. Nothing is written.
pub(crate) fn is_answering<S: Alter>(conn: &mut Connection<S>) -> bool
    ensures open { HasCleanDisk (state S.Store conn.new) → IsTrue result → IsTrue
        (state S.Store conn.new).is_open }
    ensures undone { HasCleanDisk (state S.Store conn.new) → IsUndone (state S.Store conn.old)
        (state S.Store conn.new) }
    ensures ours { (e : SchemaVersion) → GoesBack e (state S.Store conn.old) → IsOurs e
        (state S.Store conn.new) }
    ensures survives { Survives (state S.Store conn.old) (state S.Store conn.new) (λ _. ⊥) }
{
    let said = conn.execute(ROLLBACK, &[]);
    rest_law(conn);
    lacks_transaction(&said)
}
