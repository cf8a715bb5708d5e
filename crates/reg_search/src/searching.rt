//! Walking the crates, and showing those that an account sees.

ghost use Rattle.std.specs.Prelude.{◌≡◌, true, IfOk, IsErr};
ghost use Rattle.std.specs.List.Sorted.{IsSorted};
ghost use Rattle.std.specs.Ordering.{nat_cmp};
ghost use Rattle.sqlite.specs.Held.{state};
ghost use Rattle.sqlite.specs.State.{HasCleanDisk};
ghost use Rattle.reg_tables_schema.specs.States.{IsOurs};
ghost use Rattle.reg_tables_schema.specs.Statements.{rows_in};
ghost use Rattle.reg_tables_represent.specs.Walks.{IsRead};
ghost use Rattle.reg_tables.specs.Works.{AreOurs, edition_in, held, is_stopped, shown};
ghost use Rattle.reg_search.specs.Rows.{FindsCrates, FindsIds, FindsNeedle};

use crate::hidden::read_hidden;
use crate::hit::Found;
use crate::numbered::Hits;
use crate::page::read_page;
use memchr::memmem::Finder;
use reg_names::canon_text;
use reg_tables::{SchemaVersion, StoreFault, Tables, rows_of};
use sqlite::{Alter, Connection, Error};
use std::alloc::Global;

/// Every crate's canonical text and id, by canonical text. The index of the texts has both.
const WALK_TEXT: &str = "SELECT canon, id FROM crates ORDER BY canon";

fn walk<S: Alter>(
    alloc: Global,
    conn: &mut Connection<S>,
    needle: &Finder<'_>,
    hidden: &[u32],
    most: u32,
) -> Result<Hits, Error>
    requires ours { IsOurs SchemaVersion.Second (state S.Store conn.old) }
    requires sorted { IsSorted nat_cmp hidden.now }
    ensures found { HasCleanDisk (state S.Store conn.new) → IfOk result
        (FindsIds needle.now hidden.now most (rows_in S.Store conn.old)) }
    ensures reads { IsRead S.Store result conn.old conn.new }
{
    let mut hits = Hits {
        total: 0,
        ids: Vec::new(alloc),
    };
    let mut rows = rows_of(conn, WALK_TEXT, &[])?;
    'rows: for _ in 0..u64::MAX {
        let Some(row) = rows.next()? else {
            return Ok(hits);
        };
        hits.look_at(needle, hidden, row, most)?;
    }
    Err(Error::InvalidQuery)
}

fn find<S: Alter>(
    alloc: Global,
    conn: &mut Connection<S>,
    viewer: u32,
    needle: &Finder<'_>,
    most: u32,
) -> Result<Found, Error>
    requires { IsOurs SchemaVersion.Second (state S.Store conn.old) }
    ensures found { HasCleanDisk (state S.Store conn.new) → IfOk result
        (FindsNeedle viewer needle.now most (rows_in S.Store conn.old)) }
    ensures reads { IsRead S.Store result conn.old conn.new }
{
    let hidden = read_hidden(alloc, conn, viewer, needle.needle())?;
    let hits = walk(alloc, conn, needle, &hidden, most)?;
    let crates = read_page(alloc, conn, &hits.ids)?;
    Ok(Found {
        total: hits.total,
        crates,
    })
}

/// The crates that the account with id `viewer` sees and whose canonical texts contain that of `q`,
/// which is any text: how many there are, and the first of them by canonical text, at most
/// `per_page`. The tables are only read, and no memory grows with the crates that everyone sees.
pub fn search<S: Alter>(
    alloc: Global,
    tables: &mut Tables<S>,
    viewer: u32,
    q: &str,
    per_page: u32,
) -> Result<Found, StoreFault>
    requires ours { AreOurs S.Store tables.old }
    requires second { edition_in tables.old ≡ SchemaVersion.Second }
    ensures found { HasCleanDisk (shown S.Store tables.new) → IfOk result
        (FindsCrates viewer q.now per_page (shown S.Store tables.old).now.trees) }
    ensures reads { IsRead S.Store result (held tables.old) (held tables.new) }
    ensures shut { is_stopped tables.new ≡ is_stopped tables.old }
    ensures stopped { is_stopped tables.old ≡ true → IsErr result }
    ensures edition { edition_in tables.new ≡ edition_in tables.old }
{
    if tables.is_stopped() {
        return Err(StoreFault);
    }
    let query = canon_text(alloc, q)?;
    let needle = Finder::new(query.as_slice());
    match find(alloc, tables.reading(), viewer, &needle, per_page) {
        Ok(found) => Ok(found),
        Err(_) => Err(StoreFault),
    }
}
