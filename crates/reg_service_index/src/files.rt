//! Index files, row by row.

ghost use Rattle.std.specs.Prelude.{◌≡◌, ◌≢◌, ◌⊎◌, ◌+◌, ◌^◌, ◌<◌, Err, MatchOption};
ghost use Rattle.sqlite.specs.declared.types.Value.TheVariants.{Blob};
ghost use Rattle.sqlite_value.specs.Value.{owned};
ghost use Rattle.sqlite.specs.Held.{state};
ghost use Rattle.reg_tables_schema.specs.States.{IsOurs};
ghost use Rattle.reg_body.specs.Sent.{sink};
ghost use Rattle.reg_tables_represent.specs.Entries.{entry_row};
ghost use Rattle.reg_tables_represent.specs.Walks.{IsRead};
ghost use Rattle.reg_tables_schema.specs.Rows.{sql_bool};
ghost use Rattle.reg_service_index.specs.Files.{EndsItself, SendsRows};

use crate::fault::IndexFault;
use crate::lines::put_line;
use reg_api_replies::WriteBuffer;
use reg_body::Counted;
use reg_tables::{SchemaVersion, index_rows};
use sqlite::types::ValueRef;
use sqlite::{Alter, Connection, Row};
use std::io::Write;

/// What a line of an index file is made of, as its row has it.
#[derive(Clone, Copy)]
struct LineRow<'r> {
    stem: &'r [u8],
    yanked: bool,
}

fn stem_of(value: ValueRef<'_>) -> Option<&[u8]>
    ensures { MatchOption result ((stem : _) → owned value.entry ≢ Blob stem)
        (λ stem. owned value.entry ≡ Blob stem.now) }
{
    match value {
        ValueRef::Blob(stem) => Some(stem),
        _ => None,
    }
}

fn mark_of(value: ValueRef<'_>) -> Option<bool>
    ensures { MatchOption result ((yanked : _) → owned value.entry ≢ sql_bool yanked)
        (λ yanked. owned value.entry ≡ sql_bool yanked) }
{
    match value {
        ValueRef::Int(0) => Some(false),
        ValueRef::Int(1) => Some(true),
        _ => None,
    }
}

/// The entry that a row tells, with nothing copied; none if it tells none.
fn entry_of(row: &Row) -> Option<LineRow<'_>>
    ensures { MatchOption result ((it : _) → row.now ≢ entry_row it)
        (λ it. row.now ≡ entry_row (it.stem.now, it.yanked)) }
{
    if row.column_count() != 2 {
        return None;
    }
    Some(LineRow {
        stem: stem_of(row.get_ref(0).ok()?)?,
        yanked: mark_of(row.get_ref(1).ok()?)?,
    })
}

/// Sends a text, and the lines of a crate's index file after it. Nothing is sent before the rows
/// can be read.
pub(crate) fn send_rows<S: Alter, W: Write>(
    conn: &mut Connection<S>,
    crate_id: u32,
    front: &[u8],
    w: &mut Counted<W>,
    writes: u64,
) -> Result<u64, IndexFault>
    requires ours { IsOurs SchemaVersion.Second (state S.Store conn.old) }
    requires room { w.old.calls + writes < 2 ^ 64 }
    ensures rows { SendsRows S.Store crate_id front.now result writes conn.old conn.new
        (sink (W.contents w.old.inner) w.old) (sink (W.contents w.new.inner) w.new) }
    ensures reads { IsRead S.Store result conn.old conn.new }
    ensures ends { result ≡ Err IndexFault.Store → (w.new.calls ≡ w.old.calls)
        ⊎ EndsItself S.Store crate_id conn.new }
{
    let mut pile = WriteBuffer::new();
    let mut rows = index_rows(conn, crate_id)?;
    let mut used = pile.put(w, front, writes)?;
    'rows: for count in 0..u64::MAX {
        let Some(row) = rows.next()? else {
            let last = pile.send(w, writes - used)?;
            return Ok(used + last);
        };
        let Some(entry) = entry_of(row) else {
            return Err(IndexFault::Store);
        };
        let more = put_line(&mut pile, w, entry.stem, entry.yanked, writes - used)?;
        used += more;
    }
    Err(IndexFault::Store)
}
