//! Making a registry in an empty store, or opening one.

ghost use Rattle.std.specs.Prelude.{◌≡◌, ◌≢◌, ◌↔◌, false, true, IfErr, IfOk, IsTrue, None, Some};
ghost use Rattle.sqlite.specs.Held.{state};
ghost use Rattle.sqlite.specs.State.{HasCleanDisk, Survives};
ghost use Rattle.reg_line.specs.Base.{is_base as is_base_text};
ghost use Rattle.reg_tables_schema.specs.Schema.{blank, schema_of};
ghost use Rattle.reg_tables_schema.specs.States.{IsMade, IsUndone, LeavesOurs};
ghost use Rattle.reg_tables_sql.specs.Abouts.{LacksBase};
ghost use Rattle.reg_service.specs.Answered.{HoldsRegistry, StandsIn, WasClean};
ghost use Rattle.reg_service.specs.Registries.{AreChecked, AreDamaged, AreOne, Brings, HasBegun, IsNew, LeavesOpened, MayBeUpgraded, MayBecome, limits_of, tables_of};
ghost use Rattle.reg_tables.specs.Ends.{LeavesLast};
ghost use Rattle.reg_tables.specs.Works.{AreOurs, edition_in, is_stopped, shown};

use crate::registry::Registry;
use reg_audit::{Check, audit};
use reg_body::Limits;
use reg_check_sound::laws::{edition_law, rows_law};
use reg_line::is_base;
use reg_model::laws::soundness_law;
use reg_tables::{MakeFault, SchemaVersion, Tables};
use reg_tables_schema::laws::live_law;
use sqlite::{Alter, Connection};
use std::alloc::Global;

/// Why a registry could not be made or opened.
#[derive(Clone, Copy, Debug, PartialEq, Eq)]
pub enum OpenFault {
    /// The base is invalid.
    BadBase,
    /// The store to make it in is not empty, or the one to open holds no registry's tables as they
    /// were made.
    UnknownSchema,
    /// The first failing check of the rows.
    Damaged(Check),
    /// The store or memory failed.
    Storage,
}

/// A registry, or why there is none, with the connection that is handed back.
pub type Opened<S> = std::result::Result<Registry<S>, (Connection<S>, OpenFault)>;

/// A registry of tables that passed the checks, upgraded to schema 2.
fn migrate_if_old<S: Alter>(mut tables: Tables<S>, limits: Limits) -> Opened<S>
    requires ours { AreOurs S.Store tables }
    requires left { LeavesOurs (edition_in tables) (shown S.Store tables) }
    ensures begun { IfOk result (HasBegun limits (is_stopped tables)) }
    ensures brought { IfOk result (Brings S.Store tables) }
    ensures clean { IfOk result (λ r. WasClean S.Store tables (tables_of r)) }
    ensures refused { IfErr result (λ e. e.1 ≡ OpenFault.Storage) }
    ensures undone { (shown S.Store tables).in_transaction ≡ false → IfErr result (λ e.
        HasCleanDisk (state S.Store e.0) → IsUndone (shown S.Store tables) (state S.Store e.0)) }
    ensures handed_back { IfErr result (λ e. Survives (shown S.Store tables) (state S.Store e.0)
        (MayBecome (edition_in tables) (shown S.Store tables))) }
{
    match tables.edition() {
        SchemaVersion::Second => Ok(Registry { tables, limits }),
        SchemaVersion::First => match tables.migrate() {
            Ok(_) => Ok(Registry { tables, limits }),
            Err(_) => Err((tables.into_connection(), OpenFault::Storage)),
        },
    }
}

/// A registry of tables that pass the checks.
fn check_then_migrate<S: Alter>(alloc: Global, mut tables: Tables<S>, limits: Limits) -> Opened<S>
    requires ours { AreOurs S.Store tables }
    requires left { LeavesOurs (edition_in tables) (shown S.Store tables) }
    ensures begun { IfOk result (HasBegun limits (is_stopped tables)) }
    ensures brought { IfOk result (Brings S.Store tables) }
    ensures clean { IfOk result (λ r. WasClean S.Store tables (tables_of r)) }
    ensures passed { IfOk result (λ r. HasCleanDisk (shown S.Store (tables_of r))
        → AreChecked (edition_in tables) (shown S.Store tables) None) }
    ensures known { IfErr result
        (λ e. (e.1 ≢ OpenFault.UnknownSchema) × (e.1 ≢ OpenFault.BadBase)) }
    ensures found { IfErr result (λ e. HasCleanDisk (state S.Store e.0) → (check : _)
        → e.1 ≡ OpenFault.Damaged check
        → AreChecked (edition_in tables) (shown S.Store tables) (Some check)) }
    ensures undone { (shown S.Store tables).in_transaction ≡ false → IfErr result (λ e.
        HasCleanDisk (state S.Store e.0) → IsUndone (shown S.Store tables) (state S.Store e.0)) }
    ensures handed_back { IfErr result (λ e. Survives (shown S.Store tables) (state S.Store e.0)
        (λ db. (e.1 ≡ OpenFault.Storage)
        × MayBecome (edition_in tables) (shown S.Store tables) db)) }
{
    match audit(alloc, &mut tables) {
        Err(_) => Err((tables.into_connection(), OpenFault::Storage)),
        Ok(Some(check)) => Err((tables.into_connection(), OpenFault::Damaged(check))),
        Ok(None) => migrate_if_old(tables, limits),
    }
}

impl<S: Alter> Registry<S> {
    /// Opens the registry that a store holds: its tables are taken over, checked, and upgraded to
    /// schema 2. On a fault the connection is handed back.
    pub fn open(alloc: Global, conn: Connection<S>, limits: Limits) -> Opened<S>
        requires { (state S.Store conn).in_transaction ≡ false }
        ensures goes_on { IfOk result (λ r. is_stopped (tables_of r) ≡ false) }
        ensures limited { IfOk result (λ r. limits_of r ≡ limits) }
        ensures clean { IfOk result (λ r. HasCleanDisk (shown S.Store (tables_of r))
            → HasCleanDisk (state S.Store conn)) }
        ensures same { IfOk result (λ r. HasCleanDisk (shown S.Store (tables_of r)) → (s : _)
            → HoldsRegistry s (state S.Store conn).now.trees
            → StandsIn s (shown S.Store (tables_of r))) }
        ensures sound { IfOk result (λ r. HasCleanDisk (shown S.Store (tables_of r))
            → AreOne (state S.Store conn).now (shown S.Store (tables_of r))) }
        ensures left { IfOk result (λ r. HasCleanDisk (shown S.Store (tables_of r))
            → LeavesOpened (state S.Store conn) (shown S.Store (tables_of r))) }
        ensures unknown { IfErr result (λ e. HasCleanDisk (state S.Store e.0)
            → e.1 ≡ OpenFault.UnknownSchema → (edition : SchemaVersion)
            → (state S.Store conn).now.schema ≡ schema_of edition
            → LacksBase edition (state S.Store conn).now.trees) }
        ensures damaged { IfErr result (λ e. HasCleanDisk (state S.Store e.0) → (check : _)
            → e.1 ≡ OpenFault.Damaged check → AreDamaged (state S.Store conn).now check) }
        ensures known { IfErr result (λ e. e.1 ≢ OpenFault.BadBase) }
        ensures refused { IfErr result (λ e. HasCleanDisk (state S.Store e.0)
            → IsTrue (state S.Store conn).is_open → (s : _)
            → HoldsRegistry s (state S.Store conn).now.trees → e.1 ≡ OpenFault.Storage) }
        ensures undone { IfErr result (λ e. HasCleanDisk (state S.Store e.0)
            → IsUndone (state S.Store conn) (state S.Store e.0)) }
        ensures handed_back { IfErr result (λ e. Survives (state S.Store conn) (state S.Store e.0)
            (MayBeUpgraded e.1 (state S.Store conn).now)) }
        ensures last { IfErr result (λ e. HasCleanDisk (state S.Store e.0)
            → LeavesLast (state S.Store conn) (state S.Store e.0)) }
    {
        edition_law();
        rows_law(&conn);
        live_law(&conn);
        match Tables::adopt(alloc, conn) {
            Ok(tables) => check_then_migrate(alloc, tables, limits),
            Err((conn, MakeFault::UnknownSchema)) => Err((conn, OpenFault::UnknownSchema)),
            Err((conn, MakeFault::Storage)) => Err((conn, OpenFault::Storage)),
        }
    }

    /// Makes an empty registry. On a fault the connection is handed back.
    pub fn create(conn: Connection<S>, base: &str, limits: Limits) -> Opened<S>
        requires { (state S.Store conn).in_transaction ≡ false }
        ensures made { IfOk result (IsNew S.Store base.now limits) }
        ensures bad_base { IfErr result
            (λ e. (e.1 ≡ OpenFault.BadBase) ↔ (is_base_text base.now ≡ false)) }
        ensures unknown { IfErr result (λ e. is_base_text base.now ≡ true
            → (e.1 ≡ OpenFault.UnknownSchema) ↔ ((state S.Store conn).now.schema ≢ blank)) }
        ensures blank { IfOk result (λ r. (state S.Store conn).now.schema ≡ blank) }
        ensures known { IfErr result (λ e. (check : _) → e.1 ≢ OpenFault.Damaged check) }
        ensures untouched { IfErr result (λ e. e.1 ≢ OpenFault.Storage → e.0 ≡ conn) }
        ensures undone { IfErr result (λ e. HasCleanDisk (state S.Store e.0)
            → e.1 ≡ OpenFault.Storage → IsUndone (state S.Store conn) (state S.Store e.0)) }
        ensures kept { IfOk result (λ r. Survives (state S.Store conn)
            (shown S.Store (tables_of r))
            (λ trees. (db : _) × IsMade base.now db × (trees ≡ db.trees))) }
        ensures handed_back { IfErr result (λ e. e.1 ≡ OpenFault.Storage
            → Survives (state S.Store conn) (state S.Store e.0)
            (λ trees. (db : _) × IsMade base.now db × (trees ≡ db.trees))) }
        ensures last { IfErr result (λ e. HasCleanDisk (state S.Store e.0)
            → LeavesLast (state S.Store conn) (state S.Store e.0)) }
    {
        soundness_law();
        if !is_base(base) {
            return Err((conn, OpenFault::BadBase));
        }
        match Tables::make(conn, base) {
            Ok(tables) => Ok(Registry { tables, limits }),
            Err((conn, MakeFault::UnknownSchema)) => Err((conn, OpenFault::UnknownSchema)),
            Err((conn, MakeFault::Storage)) => Err((conn, OpenFault::Storage)),
        }
    }
}
