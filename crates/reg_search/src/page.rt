//! The crates that are shown.

ghost use Rattle.std.specs.Prelude.{IfOk, IsTrue};
ghost use Rattle.sqlite.specs.Held.{state};
ghost use Rattle.sqlite.specs.State.{HasCleanDisk};
ghost use Rattle.reg_tables_schema.specs.States.{IsOurs};
ghost use Rattle.reg_tables_schema.specs.Statements.{rows_in};
ghost use Rattle.reg_tables_represent.specs.Walks.{IsRead};
ghost use Rattle.reg_search.specs.Rows.{ShowsCrate, ShowsCrates};

use crate::hit::Hit;
use crate::records::read_all;
use reg_tables::SchemaVersion;
use sqlite::{Alter, Connection, Error, params};
use std::alloc::Global;

/// The crate ?1: its spelling, its highest version and that version's description.
const HIT_TEXT: &str = "SELECT c.name, v.vers, v.description FROM crates c \
    LEFT JOIN summaries s ON s.crate = c.id LEFT JOIN versions v ON v.id = s.highest \
    WHERE c.id = ?1";

fn read_hit<S: Alter>(alloc: Global, conn: &mut Connection<S>, id: u32) -> Result<Hit, Error>
    requires { IsOurs SchemaVersion.Second (state S.Store conn.old) }
    ensures shown { HasCleanDisk (state S.Store conn.new) → IfOk result
        (ShowsCrate id (rows_in S.Store conn.old)) }
    ensures reads { IsRead S.Store result conn.old conn.new }
{
    let mut hits = read_all::<Hit, S>(alloc, conn, HIT_TEXT, params![id])?;
    hits.pop().ok_or(Error::InvalidQuery)
}

/// What is shown of the crates with these ids, in turn.
pub(crate) fn read_page<S: Alter>(
    alloc: Global,
    conn: &mut Connection<S>,
    ids: &[u32],
) -> Result<Vec<Hit>, Error>
    requires ours { IsOurs SchemaVersion.Second (state S.Store conn.old) }
    requires open { HasCleanDisk (state S.Store conn.old)
        → IsTrue (state S.Store conn.old).is_open }
    ensures shown { HasCleanDisk (state S.Store conn.new) → IfOk result
        (λ hits. ShowsCrates ids.now (rows_in S.Store conn.old) hits.items) }
    ensures reads { IsRead S.Store result conn.old conn.new }
{
    let mut hits = Vec::new(alloc);
    for id in ids {
        let hit = read_hit(alloc, conn, *id)?;
        hits.push(hit)?;
    }
    Ok(hits)
}
