//! The tables on a connection.

ghost use Rattle.std.specs.Prelude.{◌≡◌, ◌≢◌, ◌↔◌, true, false, not, Ok, Err, IfErr, IfOk, IsErr, OnErr, OnOk, IsTrue};
ghost use Rattle.std.specs.Borrow.{sem, RestsIfErr};
ghost use Rattle.sqlite.specs.State.{HasCleanDisk, Survives};
ghost use Rattle.sqlite.specs.Held.{state};
ghost use Rattle.reg_model.specs.Registry.{empty_at};
ghost use Rattle.reg_tables_schema.specs.Schema.{blank, schema_of};
ghost use Rattle.reg_tables_schema.specs.States.{HasSchema, IsAtRest, IsMade, IsUndone, LeavesCommit, LeavesOurs};
ghost use Rattle.reg_tables_sql.specs.Abouts.{HasBase, LacksBase};
ghost use Rattle.reg_tables.specs.contracts.tables.Tables.{the_row};
ghost use Rattle.reg_tables.specs.Lending.{LendsConnection};
ghost use Rattle.reg_tables_represent.specs.Stands.{Stands};
ghost use Rattle.reg_tables.specs.Ends.{Begins, LeavesLast, SeesAll};
ghost use Rattle.reg_tables.specs.Works.{AreOurs, IsKept, IsLeft, IsSame, IsTried, edition_in, held, is_stopped, shown};
ghost use Rattle.reg_tables_represent.specs.Upgrades.{BeginsSecond, IsUpgraded, AreUpgraded};

use crate::answering;
use crate::work::{Result, StoreFault, Work};
use reg_tables_represent::upgrade::begin_second;
use reg_tables_rows::editions::has_base;
use reg_tables_schema::laws::{live_law, rest_law, stop_law};
use reg_tables_schema::{MakeFault, SchemaVersion, begin, edition_of, make_tables};
use sqlite::{Alter, Connection};
use std::alloc::Global;

/// The tables of a registry. After the store fails to commit, or is found closed, they no longer
/// answer; opening it again shows what it then holds.
#[derive(Drop)]
pub struct Tables<S: Alter> {
    pub(crate) conn: Connection<S>,
    pub(crate) edition: SchemaVersion,
    pub(crate) shut: bool,
}

impl<S: Alter> Tables<S> {
    /// Makes the tables of an empty registry. On a fault, hands the connection back.
    pub fn make(
        mut conn: Connection<S>,
        base: &str,
    ) -> Result<Tables<S>, (Connection<S>, MakeFault)>
        requires { (state S.Store conn).in_transaction ≡ false }
        ensures made { IfOk result (λ t. HasCleanDisk (shown S.Store t) → IsMade base.now
            (shown S.Store t).committed × IsAtRest (shown S.Store t)) }
        ensures stands { IfOk result (λ t. HasCleanDisk (shown S.Store t) → Stands
            (empty_at base.now) (shown S.Store t).now.trees) }
        ensures ours { IfOk result (λ t. AreOurs S.Store t × (is_stopped t ≡ false)) }
        ensures leaves { IfOk result (λ t. LeavesOurs SchemaVersion.Second (shown S.Store t)) }
        ensures second { IfOk result (λ t. edition_in t ≡ SchemaVersion.Second) }
        ensures alone { IfOk result (λ t. HasCleanDisk (shown S.Store t) → LeavesCommit
            (shown S.Store t)) }
        ensures unknown { IfErr result (λ e. (e.1 ≡ MakeFault.UnknownSchema) ↔
            ((state S.Store conn).now.schema ≢ blank)) }
        ensures blank { IfOk result (λ t. (state S.Store conn).now.schema ≡ blank) }
        ensures untouched { IfErr result (λ e. e.1 ≡ MakeFault.UnknownSchema → e.0 ≡ conn) }
        ensures undone { IfErr result (λ e. HasCleanDisk (state S.Store e.0) → e.1
            ≡ MakeFault.Storage → IsUndone (state S.Store conn) (state S.Store e.0)) }
        ensures kept { IfOk result (λ t. Survives (state S.Store conn) (shown S.Store t)
            (λ trees. (db : _) × IsMade base.now db × (trees ≡ db.trees))) }
        ensures handed_back { IfErr result (λ e. Survives (state S.Store conn) (state S.Store e.0)
            (λ trees. (db : _) × IsMade base.now db × (trees ≡ db.trees))) }
        ensures last { IfErr result (λ e. HasCleanDisk (state S.Store e.0) → LeavesLast
            (state S.Store conn) (state S.Store e.0)) }
    {
        let made = make_tables(&mut conn, base);
        stop_law(&conn);
        match made {
            Ok(()) => Ok(Tables {
                conn,
                edition: SchemaVersion::Second,
                shut: false,
            }),
            Err(fault) => Err((conn, fault)),
        }
    }

    /// Adopts existing tables, of either schema. A store is unknown if it holds anything else, or
    /// if `about` is not one row with the number of its schema.
    pub fn adopt(
        alloc: Global,
        mut conn: Connection<S>,
    ) -> Result<Tables<S>, (Connection<S>, MakeFault)>
        requires { (state S.Store conn).in_transaction ≡ false }
        ensures found { IfOk result (λ t. HasCleanDisk (shown S.Store t) → IsTrue
            (shown S.Store t).is_open → (shown S.Store t).now ≡ (state S.Store conn).now) }
        ensures rests { IfOk result (λ t. HasCleanDisk (shown S.Store t) → IsUndone
            (state S.Store conn) (shown S.Store t)) }
        ensures about { IfOk result (λ t. HasCleanDisk (shown S.Store t) → HasBase (edition_in t)
            (state S.Store conn).now.trees) }
        ensures edition { IfOk result (λ t. (state S.Store conn).now.schema
            ≡ schema_of (edition_in t)) }
        ensures ours { IfOk result (λ t. AreOurs S.Store t × (is_stopped t ≡ false)) }
        ensures leaves { IfOk result (λ t. LeavesOurs (edition_in t) (shown S.Store t)) }
        ensures unknown { IfErr result (λ e. HasCleanDisk (state S.Store e.0) → e.1
            ≡ MakeFault.UnknownSchema → (edition : SchemaVersion)
            → (state S.Store conn).now.schema ≡ schema_of edition
            → LacksBase edition (state S.Store conn).now.trees) }
        ensures handed_back { IfErr result (λ e. HasCleanDisk (state S.Store e.0) → IsUndone
            (state S.Store conn) (state S.Store e.0)) }
        ensures kept { IfOk result (λ t. Survives (state S.Store conn) (shown S.Store t) (λ _. ⊥)) }
        ensures left { IfErr result (λ e. Survives (state S.Store conn) (state S.Store e.0)
            (λ _. ⊥)) }
    {
        rest_law(&conn);
        live_law(&conn);
        let edition = match edition_of(alloc, conn.schema()) {
            Err(_) => return Err((conn, MakeFault::Storage)),
            Ok(None) => return Err((conn, MakeFault::UnknownSchema)),
            Ok(Some(edition)) => edition,
        };
        match has_base(&mut conn, edition) {
            Err(_) => Err((conn, MakeFault::Storage)),
            Ok(false) => Err((conn, MakeFault::UnknownSchema)),
            Ok(true) => Ok(Tables {
                conn,
                edition,
                shut: false,
            }),
        }
    }

    /// The connection, with the rows as they are.
    pub fn into_connection(self) -> Connection<S>
        ensures { result ≡ held self }
    {
        let Tables { conn, .. } = self;
        conn
    }

    /// The connection on loan, for `rows_of` and `index_rows`: what is left of it after the last
    /// read is what the tables have. After a failed commit it is not lent.
    pub fn reading(&mut self) -> &mut Connection<S>
        requires open { is_stopped self.old ≡ false }
        ensures* lends { sem 𝓛 (LendsConnection S.row S.Store self.entry result) }
        ensures value { result.now ≡ held self.old }
    {
        &mut self.conn
    }

    /// Whether a commit failed, or the store was found closed.
    pub fn is_stopped(&self) -> bool
        ensures { result ≡ is_stopped self.now }
    {
        self.shut
    }

    /// Whether the store still answers. A log that could not be moved into the file closes it,
    /// within any statement. If it does not answer, the tables are shut.
    pub fn are_answering(&mut self) -> bool
        requires { AreOurs S.Store self.old }
        ensures told { result ≡ not (is_stopped self.new) }
        ensures tried { IsTried S.Store self.old self.new }
    {
        if self.shut {
            return false;
        }
        if answering::is_answering(&mut self.conn) {
            return true;
        }
        self.shut = true;
        false
    }

    /// Which schema the tables have.
    pub fn edition(&self) -> SchemaVersion
        ensures { result ≡ edition_in self.now }
    {
        self.edition
    }

    /// Begins a transaction on tables already of schema 2.
    pub fn work(&mut self) -> Result<Work<'_, S>>
        requires ours { AreOurs S.Store self.old }
        requires second { edition_in self.old ≡ SchemaVersion.Second }
        ensures* refused { sem 𝓛 (RestsIfErr (the_row S.row S.Store) self.entry
            (λ w. w.tables.ghost_name) result (IsLeft S.Store self.old)) }
        ensures same_reference { IfOk result (λ w. w.tables.ghost_name ≡ self.entry.ghost_name) }
        ensures begun { IfOk result (Begins S.Store SeesAll self.old) }
    {
        if self.shut {
            return Err(StoreFault);
        }
        if begin(&mut self.conn).is_err() {
            return Err(StoreFault);
        }
        Ok(Work {
            tables: self,
            failed: false,
        })
    }

    /// Begins a transaction that sees schema 2: tables of schema 1 are migrated first. Until it is
    /// committed, the store keeps the schema that it had.
    pub fn upgrade(&mut self) -> Result<Work<'_, S>>
        requires { AreOurs S.Store self.old }
        ensures* refused { sem 𝓛 (RestsIfErr (the_row S.row S.Store) self.entry
            (λ w. w.tables.ghost_name) result (IsKept S.Store self.old)) }
        ensures same_reference { IfOk result (λ w. w.tables.ghost_name ≡ self.entry.ghost_name) }
        ensures begun { IfOk result
            (Begins S.Store (BeginsSecond (edition_in self.old)) self.old) }
    {
        if self.shut || begin_second(&mut self.conn, self.edition).is_err() {
            return Err(StoreFault);
        }
        Ok(Work {
            tables: self,
            failed: false,
        })
    }

    /// Migrates the tables to schema 2 in one transaction; returns whether they had schema 1. After
    /// a failed commit it is refused.
    pub fn migrate(&mut self) -> Result<bool>
        requires { AreOurs S.Store self.old }
        ensures which { IfOk result (λ done. IsTrue done ↔
            (edition_in self.old ≡ SchemaVersion.First)) }
        ensures same { result ≡ Ok false → self.new ≡ self.old }
        ensures upgraded { HasCleanDisk (shown S.Store self.new) → result ≡ Ok true → IsUpgraded
            (shown S.Store self.old) (shown S.Store self.new) }
        ensures alone { HasCleanDisk (shown S.Store self.new) → result ≡ Ok true → LeavesCommit
            (shown S.Store self.new) }
        ensures leaves { result ≡ Ok true → LeavesOurs SchemaVersion.Second
            (shown S.Store self.new) }
        ensures open { OnOk result (is_stopped self.new ≡ is_stopped self.old) }
        ensures refused { HasCleanDisk (shown S.Store self.new) → OnErr result
            (IsSame S.Store self.old self.new) }
        ensures ours { AreOurs S.Store self.new }
        ensures second { OnOk result (edition_in self.new ≡ SchemaVersion.Second) }
        ensures edition { OnErr result (edition_in self.new ≡ edition_in self.old) }
        ensures stopped { is_stopped self.old ≡ true → IsErr result }
        ensures survives { Survives (shown S.Store self.old) (shown S.Store self.new)
            (λ db. IsTrue (shown S.Store self.old).is_open
            × AreUpgraded (shown S.Store self.old).now db × HasSchema SchemaVersion.Second db) }
        ensures last { HasCleanDisk (shown S.Store self.new) → OnErr result (LeavesLast
            (shown S.Store self.old) (shown S.Store self.new)) }
    {
        if self.is_stopped() {
            return Err(StoreFault);
        }
        match self.edition {
            SchemaVersion::First => {}
            SchemaVersion::Second => return Ok(false),
        }
        let work = self.upgrade()?;
        work.commit()?;
        Ok(true)
    }
}
