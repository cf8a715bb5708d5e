//! The law of opening and its parts, each the contract of a function that does nothing.

ghost use Rattle.std.specs.Prelude.{IsTrue};
ghost use Rattle.sqlite.specs.Held.{state};
ghost use Rattle.reg_check_sound.specs.Editions.{EditionLaw, FoundLaw, KeepsSchema};
ghost use Rattle.reg_check_sound.specs.Opening.{AuditLaw, HoldingPasses, OpeningLaw, PassingHolds, SchemaKeeps};

use reg_tables_represent::laws::migrate_law;
use sqlite::{Alter, Connection};

/// Rows pass all checks exactly when they are a sound registry, so exactly then no check is found
/// to fail.
pub fn opening_law()
    ensures opening { OpeningLaw }
    ensures audit { AuditLaw }
{}

/// For either schema, what is found is a sound registry exactly when what a transaction begins with
/// is, so exactly then no check is found to fail.
pub fn edition_law()
    ensures same { EditionLaw }
    ensures audit { FoundLaw }
{
    opening_law();
    migrate_law();
}

/// Rows that an open connection shows keep the rules of its schema.
pub fn rows_law<S: Alter>(conn: &Connection<S>)
    ensures { IsTrue (state S.Store conn.now).is_open → KeepsSchema (state S.Store conn.now).now }
{
    let _ = conn.schema();
}

/// Rows that pass all checks are those of the sound registry built from them.
pub fn passing_law()
    ensures { PassingHolds }
{}

/// The rows of a sound registry pass all checks.
pub fn standing_law()
    ensures { HoldingPasses }
{}

/// Rows that pass all checks keep the rules of their tables.
pub fn rules_law()
    ensures { SchemaKeeps }
{}
