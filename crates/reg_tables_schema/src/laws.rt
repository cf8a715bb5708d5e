//! Laws of the definitions, each as the contract of a function that does nothing.

ghost use Rattle.std.specs.Prelude.{◌≡◌, false, IsTrue};
ghost use Rattle.sqlite.specs.Held.{state};
ghost use Rattle.sqlite.specs.State.{IsLive};
ghost use Rattle.reg_tables_schema.specs.States.{LeavesCommit};

use sqlite::{Alter, Connection};

/// While a connection is open, a crash leaves its last commit and nothing else.
pub fn stop_law<S: Alter>(conn: &Connection<S>)
    ensures { IsTrue (state S.Store conn.now).is_open → LeavesCommit (state S.Store conn.now) }
{
    let _ = conn;
}

/// An open connection outside a transaction shows what was committed.
pub fn rest_law<S: Alter>(conn: &Connection<S>)
    ensures { (state S.Store conn.now).in_transaction ≡ false → IsTrue
        (state S.Store conn.now).is_open → (state S.Store conn.now).now
        ≡ (state S.Store conn.now).committed }
{
    let _ = conn.is_autocommit();
}

/// What an open connection shows, and what was committed, are databases that obey their schemas.
pub fn live_law<S: Alter>(conn: &Connection<S>)
    ensures { IsLive (state S.Store conn.now) }
{
    let _ = conn.schema();
}
