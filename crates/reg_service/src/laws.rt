//! What holds of histories, whatever the code.
//! The function does nothing: its contract is the law.

ghost use Rattle.std.specs.Prelude.{◌≡◌, [], ◌∷◌, ◌++◌, false};
ghost use Rattle.sqlite.specs.State.{HasCleanDisk};
ghost use Rattle.reg_model.specs.Sound.{Sound};
ghost use Rattle.reg_model.specs.Steps.{IsFit};
ghost use Rattle.reg_tables.specs.Works.{is_stopped, shown};
ghost use Rattle.reg_tables_represent.specs.Stands.{Stands};
ghost use Rattle.reg_service.specs.Answered.{Answers, HoldsRegistry, LeavesAlone, StandsIn};
ghost use Rattle.reg_service.specs.Looked.{WasTried};
ghost use Rattle.reg_service.specs.Registries.{tables_of};
ghost use Rattle.reg_service.specs.Sequences.{MayBeLeft, Ran};

use crate::registry::Registry;
use reg_model::laws::{growth_law, run_law};
use sqlite::Alter;

/// The empty sequence is a run, and one more event makes another. What a crash may leave at its end
/// follows from what each event leaves. If a crash leaves the registry alone on entry, it leaves
/// what the run allows.
pub fn history_law<S: Alter>()
    ensures begins { (limits : _) (s : _) (t : _) → StandsIn s (shown S.Store t)
        → Ran S.Store limits s t [] [] s t }
    ensures goes_on { (limits : _) (s : _) (entry : _) (es : _) (xs : _) (t : _) (e : _) (a : _)
        (old : _) (new : _) → IsFit e → Ran S.Store limits s entry es xs t old
        → (it : Answers S.Store limits t e a old new)
        → Ran S.Store limits s entry (es ++ e ∷ []) (xs ++ a ∷ []) it.after new }
    ensures alone { (limits : _) (s : _) (entry : _) (es : _) (xs : _) (t : _) (new : _)
        → LeavesAlone s (shown S.Store entry) → (it : Ran S.Store limits s entry es xs t new)
        → (db : _) → (shown S.Store new).may_leave db
        → (m : _) × Stands m db × MayBeLeft limits s es xs it.stop m }
{
    run_law();
    growth_law();
}

/// A run, and one from the registry that it led to, are one run.
pub fn joined_law<S: Alter>()
    ensures { (limits : _) (s t u : _) (entry mid new : _) (es fs : _) (xs ys : _)
        → Ran S.Store limits s entry es xs t mid → Ran S.Store limits t mid fs ys u new
        → Ran S.Store limits s entry (es ++ fs) (xs ++ ys) u new }
{
    run_law();
    growth_law();
}

/// Where it was tried whether the store answers, and it does, a run goes on.
pub fn tried_law<S: Alter>()
    ensures { (limits : _) (s : _) (entry : _) (es : _) (xs : _) (t : _) (mid new : _)
        → Ran S.Store limits s entry es xs t mid → WasTried S.Store mid new
        → HasCleanDisk (shown S.Store new) → is_stopped new ≡ false
        → Ran S.Store limits s entry es xs t new }
{}

/// What a crash may leave of a registry is of our schema. If it has the rows of a sound registry,
/// that is the one that `Registry::open` finds in it.
pub fn left_law<S: Alter>(registry: &Registry<S>)
    ensures { HasCleanDisk (shown S.Store (tables_of registry.now)) → (db : _)
        → (shown S.Store (tables_of registry.now)).may_leave db → (m : _) → Sound m → Stands m db
        → HoldsRegistry m db }
{
    let _ = &registry.tables;
}
