//! Whether tables state the schema that they have.

ghost use Rattle.std.specs.Prelude.{◌≡◌, ◌≢◌, [], ◌∷◌, false, IfOk, IsTrue, OnOk};
ghost use Rattle.sqlite.specs.Held.{state};
ghost use Rattle.sqlite.specs.State.{HasCleanDisk, KeepsCommit, Survives};
ghost use Rattle.reg_tables_schema.specs.States.{IsOurs, IsUndone, about_columns};
ghost use Rattle.reg_tables_sql.specs.Abouts.{HasBase, IsAbout, LacksBase};

use reg_tables_schema::{SchemaVersion, begin, undo};
use reg_tables_sql::about::{self, About};
use reg_tables_sql::statements::Result;
use sqlite::{Alter, Connection};

fn is_of(about: &Option<About>, edition: SchemaVersion) -> bool
    ensures is { (rows : _) → IsAbout rows about.now → IsTrue result → (base : _)
        × (rows ≡ about_columns edition base ∷ []) }
    ensures is_not { (rows : _) → IsAbout rows about.now → result ≡ false → (base : _)
        → rows ≢ about_columns edition base ∷ [] }
{
    match about {
        Some(about) => about.edition == edition,
        None => false,
    }
}

fn read_base<S: Alter>(conn: &mut Connection<S>, edition: SchemaVersion) -> Result<bool>
    requires ours { IsOurs edition (state S.Store conn.old) }
    ensures found { HasCleanDisk (state S.Store conn.new) → IfOk result
        (λ has. IsTrue has → HasBase edition (state S.Store conn.old).now.trees) }
    ensures lacks { HasCleanDisk (state S.Store conn.new) → IfOk result
        (λ has. has ≡ false → LacksBase edition (state S.Store conn.old).now.trees) }
    ensures was_open { HasCleanDisk (state S.Store conn.new) → OnOk result
        (IsTrue (state S.Store conn.old).is_open) }
    ensures keeps { HasCleanDisk (state S.Store conn.new) → KeepsCommit (state S.Store conn.old)
        (state S.Store conn.new) }
    ensures survives { Survives (state S.Store conn.old) (state S.Store conn.new) (λ _. ⊥) }
{
    begin(conn)?;
    let about = about::read(conn)?;
    Ok(is_of(&about, edition))
}

/// Whether `about` has one row, of this schema. No transaction is left open.
pub fn has_base<S: Alter>(conn: &mut Connection<S>, edition: SchemaVersion) -> Result<bool>
    requires ours { IsOurs edition (state S.Store conn.old) }
    ensures found { HasCleanDisk (state S.Store conn.new) → IfOk result
        (λ has. IsTrue has → HasBase edition (state S.Store conn.old).now.trees) }
    ensures lacks { HasCleanDisk (state S.Store conn.new) → IfOk result
        (λ has. has ≡ false → LacksBase edition (state S.Store conn.old).now.trees) }
    ensures was_open { HasCleanDisk (state S.Store conn.new) → OnOk result
        (IsTrue (state S.Store conn.old).is_open) }
    ensures undone { HasCleanDisk (state S.Store conn.new) → IsUndone (state S.Store conn.old)
        (state S.Store conn.new) }
    ensures ours { IsOurs edition (state S.Store conn.new) }
    ensures survives { Survives (state S.Store conn.old) (state S.Store conn.new) (λ _. ⊥) }
{
    let has = read_base(conn, edition);
    undo(conn);
    has
}
