//! The ends of a transaction on our tables.

ghost use Rattle.std.specs.Prelude.{◌≡◌, true, false, OnOk, OnErr};
ghost use Rattle.sqlite.specs.State.{HasCleanDisk, Shows, Survives};
ghost use Rattle.sqlite.specs.Held.{state};
ghost use Rattle.reg_tables_schema.specs.States.{GoesBack, IsReadyOf, IsOurs, Refuses, IsUndone, LeavesCommit};

use crate::edition::SchemaVersion;
use crate::laws::rest_law;
use sqlite::{Alter, Connection, Error};

const BEGIN: &str = "BEGIN";

/// Begins a transaction. This is refused inside another.
pub fn begin<S: Alter>(conn: &mut Connection<S>) -> Result<usize, Error>
    ensures begun { HasCleanDisk (state S.Store conn.new) → OnOk result
        (Shows (state S.Store conn.old) (state S.Store conn.new) (state S.Store conn.old).now
        (state S.Store conn.old).committed true) }
    ensures ready { (e : SchemaVersion) → IsOurs e (state S.Store conn.old) → OnOk result
        (IsReadyOf e (state S.Store conn.new)) }
    ensures back { (e : SchemaVersion) → IsOurs e (state S.Store conn.old) → OnOk result
        (GoesBack e (state S.Store conn.new)) }
    ensures refused { HasCleanDisk (state S.Store conn.new) → OnErr result
        (Refuses (state S.Store conn.old) (state S.Store conn.new)) }
    ensures ours { (e : SchemaVersion) → IsOurs e (state S.Store conn.old) → OnErr result
        (IsOurs e (state S.Store conn.new)) }
    ensures survives { Survives (state S.Store conn.old) (state S.Store conn.new) (λ _. ⊥) }
{
    conn.execute(BEGIN, &[])
}

const COMMIT: &str = "COMMIT";

/// Commits the transaction. If that fails, the transaction is undone.
pub fn finish<S: Alter>(conn: &mut Connection<S>) -> Result<usize, Error>
    ensures kept { HasCleanDisk (state S.Store conn.new) → OnOk result
        (Shows (state S.Store conn.old) (state S.Store conn.new) (state S.Store conn.old).now
        (state S.Store conn.old).now false) }
    ensures undone { HasCleanDisk (state S.Store conn.new) → OnErr result
        (IsUndone (state S.Store conn.old) (state S.Store conn.new)) }
    ensures ours { (e : SchemaVersion) → IsReadyOf e (state S.Store conn.old) → OnOk result
        (IsOurs e (state S.Store conn.new)) }
    ensures ours_again { (e : SchemaVersion) → GoesBack e (state S.Store conn.old) → OnErr result
        (IsOurs e (state S.Store conn.new)) }
    ensures alone { HasCleanDisk (state S.Store conn.new) → OnOk result
        (LeavesCommit (state S.Store conn.new)) }
    ensures survives { Survives (state S.Store conn.old) (state S.Store conn.new)
        (λ db. db ≡ (state S.Store conn.old).now.trees) }
{
    let done = conn.execute(COMMIT, &[]);
    rest_law(conn);
    done
}

/// Refused by name where no transaction is open.
pub const ROLLBACK: &str = "ROLLBACK";

/// Undoes the transaction, if there is one.
pub fn undo<S: Alter>(conn: &mut Connection<S>)
    ensures undone { HasCleanDisk (state S.Store conn.new) → IsUndone (state S.Store conn.old)
        (state S.Store conn.new) }
    ensures ours { (e : SchemaVersion) → GoesBack e (state S.Store conn.old) → IsOurs e
        (state S.Store conn.new) }
    ensures survives { Survives (state S.Store conn.old) (state S.Store conn.new) (λ _. ⊥) }
{
    let _ = conn.execute(ROLLBACK, &[]);
    rest_law(conn);
}
