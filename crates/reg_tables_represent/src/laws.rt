//! Laws of the definitions, each as the contract of a function that does nothing.

ghost use Rattle.std.specs.Prelude.{◌≡◌, [], ◌∷◌, ◌++◌, map, pos, IsTrue};
ghost use Rattle.sqlite.specs.Given.{HasGiven};
ghost use Rattle.sqlite.specs.Held.{state};
ghost use Rattle.sqlite.specs.State.{HasCleanDisk};
ghost use Rattle.sqlite.specs.declared.types.Value.TheVariants.{Int};
ghost use Rattle.reg_tables_schema.specs.Schema.{ours};
ghost use Rattle.reg_tables_schema.specs.Statements.{rows_in};
ghost use Rattle.reg_tables_sql.specs.Stems.{AreStemsOf, entries_text};
ghost use Rattle.reg_tables_represent.specs.Changes.{told_of};
ghost use Rattle.reg_tables_represent.specs.Entries.{entries, entry_row};
ghost use Rattle.reg_tables_represent.specs.Stands.{StandsSoundBy, StandsBy, StandsOld, spelling_at};
ghost use Rattle.reg_tables_represent.specs.Upgrades.{IsUpgrade};

use sqlite::{Alter, Connection};

/// The stems and marks that the rows of a crate show are the entries of its index file, in order of
/// publication; a crate that does not exist has none.
pub fn entries_law()
    ensures { (ids : _) (s : _) (db : _) → StandsSoundBy ids s db → (id : _) (rows : _)
        → AreStemsOf id db rows
        → rows ≡ map entry_row (told_of (spelling_at ids id) [] (entries s)) }
{}

/// The registry of the rows is the same before and after a migration, under the same ids.
pub fn migrate_law()
    ensures { (ids : _) (s : _) (old new : _) → StandsOld ids s old.trees → IsUpgrade old new
        → StandsBy ids s new.trees }
{}

/// What `index_rows` has given so far begins the crate's stems and marks; `entries_law` says what
/// they are in the registry.
pub fn walk_law<S: Alter>(conn: &Connection<S>)
    ensures { HasCleanDisk (state S.Store conn.now) → (state S.Store conn.now).now.schema ≡ ours
        → IsTrue (state S.Store conn.now).is_open → (id : _) (rows : _)
        → HasGiven S.Store entries_text (Int (pos id) ∷ []) conn.now rows
        → (tail : _) × AreStemsOf id (rows_in S.Store conn.now) (rows ++ tail) }
{
    let _ = conn;
}
