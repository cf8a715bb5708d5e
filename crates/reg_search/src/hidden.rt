//! The crates that a query would find, but the account does not see.

ghost use Rattle.std.specs.Prelude.{IfOk};
ghost use Rattle.std.specs.List.Sorted.{IsSorted};
ghost use Rattle.std.specs.Ordering.{nat_cmp};
ghost use Rattle.sqlite.specs.Held.{state};
ghost use Rattle.sqlite.specs.State.{HasCleanDisk};
ghost use Rattle.reg_tables_schema.specs.States.{IsOurs};
ghost use Rattle.reg_tables_schema.specs.Statements.{rows_in};
ghost use Rattle.reg_tables_represent.specs.Walks.{IsRead};
ghost use Rattle.reg_search.specs.Rows.{HidesFrom};

use crate::records::read_all;
use reg_tables::SchemaVersion;
use sqlite::{Alter, Connection, Error, params};
use std::alloc::Global;

/// The restricted crates with ?2 in their canonical texts that the account ?1 neither owns nor
/// reads. The texts are looked at first, so that no more is asked about most restricted crates.
const HIDDEN_TEXT: &str = "SELECT r.crate FROM restricted r JOIN crates c ON c.id = r.crate \
    WHERE instr(c.canon, ?2) \
    AND NOT EXISTS (SELECT 1 FROM owners o WHERE o.crate = r.crate AND o.account = ?1) \
    AND NOT EXISTS (SELECT 1 FROM readers d WHERE d.crate = r.crate AND d.account = ?1)";

/// The ids of the crates with the needle in their canonical texts that the account does not see, in
/// order. The list grows with the restricted crates alone.
pub(crate) fn read_hidden<S: Alter>(
    alloc: Global,
    conn: &mut Connection<S>,
    viewer: u32,
    needle: &[u8],
) -> Result<Vec<u32>, Error>
    requires { IsOurs SchemaVersion.Second (state S.Store conn.old) }
    ensures hidden { HasCleanDisk (state S.Store conn.new) → IfOk result
        (λ list. HidesFrom viewer needle.now (rows_in S.Store conn.old) list.items) }
    ensures sorted { IfOk result (λ list. IsSorted nat_cmp list.items) }
    ensures reads { IsRead S.Store result conn.old conn.new }
{
    let mut hidden = read_all::<u32, S>(alloc, conn, HIDDEN_TEXT, params![viewer, needle])?;
    hidden.sort_unstable();
    Ok(hidden)
}
