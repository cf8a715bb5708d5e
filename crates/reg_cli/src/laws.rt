//! What holds of openings, whatever the code.
//! The functions do nothing: the contract of each is a law.

ghost use Rattle.std.specs.Prelude.{◌≡◌, false, IsTrue};
ghost use Rattle.sqlite.specs.Held.{state};
ghost use Rattle.sqlite.specs.State.{HasCleanDisk};
ghost use Rattle.reg_model.specs.Sound.{Sound};
ghost use Rattle.reg_tables.specs.Works.{shown};
ghost use Rattle.reg_service.specs.Registries.{LeavesOpened, tables_of};
ghost use Rattle.reg_service.specs.Sequences.{Ran};
ghost use Rattle.reg_cli_run.specs.Marking.{MarksOpening};
ghost use Rattle.reg_cli.specs.Openings.{FindsLeft, HoldsSame};
ghost use Rattle.reg_cli.specs.Rounds.{GoesOnAs, IsAsFound};

use reg_service::Registry;
use reg_service::laws::left_law;
use reg_tables_schema::laws::{rest_law, stop_law};
use sqlite::{Alter, Connection};

/// Once a registry was opened of what a connection showed, and its opening was marked, a crash
/// leaves what was found or, where that was of schema 1, what is held once it is opened.
pub fn found_law<S: Alter>(conn: &Connection<S>)
    ensures { (state S.Store conn.now).in_transaction ≡ false
        → IsTrue (state S.Store conn.now).is_open → (opened : _) (marked : _) (k0 : _) (k1 : _)
        → LeavesOpened (state S.Store conn.now) (shown S.Store (tables_of opened))
        → MarksOpening S.Store opened marked k0 k1
        → HasCleanDisk (shown S.Store (tables_of marked)) → (db : _)
        → (shown S.Store (tables_of marked)).may_leave db
        → IsAsFound (state S.Store conn.now) (shown S.Store (tables_of opened)) db }
{
    stop_law(conn);
    rest_law(conn);
}

/// A registry ended a run, its files were opened again, and a registry was opened of what was
/// found: the run goes on there, from what a crash may leave of it.
pub fn healing_law<S: Alter>(registry: &Registry<S>)
    ensures { (found : _) (next : _)
        → FindsLeft (shown S.Store (tables_of registry.now)) (state S.Store found)
        → HoldsSame S.Store (state S.Store found).now.trees next
        → HasCleanDisk (state S.Store found) → HasCleanDisk (shown S.Store (tables_of next))
        → (limits : _) (s : _) (entry : _) (es : _) (xs : _) (t : _) → Sound s
        → (run : Ran S.Store limits s entry es xs t (tables_of registry.now))
        → GoesOnAs S.Store limits s entry es xs run.stop found next }
{
    left_law(registry);
}
