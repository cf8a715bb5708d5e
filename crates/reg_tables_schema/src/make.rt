//! Making the tables in a store that holds nothing.

ghost use Rattle.std.specs.Prelude.{◌≡◌, ◌≢◌, ◌↔◌, IsTrue, Err, OnOk, OnErr, IfErr};
ghost use Rattle.sqlite.specs.State.{HasCleanDisk, Survives, KeepsCommit};
ghost use Rattle.sqlite.specs.Held.{state};
ghost use Rattle.reg_tables_schema.specs.Schema.{ours, old_schema, blank, first_of_ours};
ghost use Rattle.reg_tables_schema.specs.States.{Extends, IsReady, IsReadyOf, IsOurs, IsAtRest, HasMade, IsMade, Makes, Refuses, IsUndone, LeavesCommit, about_columns};
ghost use Rattle.reg_tables_schema.specs.Changes.{AddsColumns};

use crate::edition::SchemaVersion;
use crate::laws::live_law;
use crate::texts;
use crate::transaction::{begin, finish, undo};
use sqlite::{Alter, Connection, Error, params};
use sqlite_schema::schema::Schema;

/// Why no tables were made.
#[derive(Clone, Copy, Debug, PartialEq, Eq)]
pub enum MakeFault {
    /// The store already holds something or, if tables are adopted, something not ours.
    UnknownSchema,
    /// The store failed, or memory ran out.
    Storage,
}

fn is_blank(schema: &Schema) -> bool
    ensures { IsTrue result ↔ (schema.now ≡ blank) }
{
    schema.tables.is_empty() && schema.indexes.is_empty() && schema.views.is_empty()
}

fn create_token_tables<S: Alter>(conn: &mut Connection<S>) -> Result<(), Error>
    requires { HasCleanDisk (state S.Store conn.old) → HasMade blank (state S.Store conn.old) }
    ensures made { HasCleanDisk (state S.Store conn.new) → OnOk result
        (Makes (first_of_ours 4 3) (state S.Store conn.old) (state S.Store conn.new)) }
    ensures refused { HasCleanDisk (state S.Store conn.new) → OnErr result
        (KeepsCommit (state S.Store conn.old) (state S.Store conn.new)) }
    ensures survives { Survives (state S.Store conn.old) (state S.Store conn.new) (λ _. ⊥) }
{
    texts::create_about(conn)?;
    texts::create_accounts(conn)?;
    texts::create_tokens(conn)?;
    texts::create_scopes(conn)?;
    Ok(())
}

fn create_version_tables<S: Alter>(conn: &mut Connection<S>) -> Result<(), Error>
    requires { HasCleanDisk (state S.Store conn.old) → HasMade (first_of_ours 4 3)
        (state S.Store conn.old) }
    ensures made { HasCleanDisk (state S.Store conn.new) → OnOk result
        (Makes (first_of_ours 7 6) (state S.Store conn.old) (state S.Store conn.new)) }
    ensures refused { HasCleanDisk (state S.Store conn.new) → OnErr result
        (KeepsCommit (state S.Store conn.old) (state S.Store conn.new)) }
    ensures survives { Survives (state S.Store conn.old) (state S.Store conn.new) (λ _. ⊥) }
{
    texts::create_crates(conn)?;
    texts::create_owners(conn)?;
    texts::create_versions(conn)?;
    Ok(())
}

fn create_other_tables<S: Alter>(conn: &mut Connection<S>) -> Result<(), Error>
    requires { HasCleanDisk (state S.Store conn.old) → HasMade (first_of_ours 7 6)
        (state S.Store conn.old) }
    ensures made { HasCleanDisk (state S.Store conn.new) → OnOk result
        (Makes old_schema (state S.Store conn.old) (state S.Store conn.new)) }
    ensures refused { HasCleanDisk (state S.Store conn.new) → OnErr result
        (KeepsCommit (state S.Store conn.old) (state S.Store conn.new)) }
    ensures survives { Survives (state S.Store conn.old) (state S.Store conn.new) (λ _. ⊥) }
{
    texts::create_archives(conn)?;
    texts::create_reserved(conn)?;
    texts::create_summaries(conn)?;
    Ok(())
}

/// Makes the two tables that schema 2 has and schema 1 lacks, in the open transaction.
#[tactic(auto, using(crate::proofs::MakeLemmas::extends))]
pub fn add_tables<S: Alter>(conn: &mut Connection<S>) -> Result<(), Error>
    requires { IsReadyOf SchemaVersion.First (state S.Store conn.old) }
    ensures added { HasCleanDisk (state S.Store conn.new) → OnOk result
        (Extends (state S.Store conn.old) (state S.Store conn.new)) }
    ensures refused { HasCleanDisk (state S.Store conn.new) → OnErr result
        (KeepsCommit (state S.Store conn.old) (state S.Store conn.new)) }
    ensures survives { Survives (state S.Store conn.old) (state S.Store conn.new) (λ _. ⊥) }
{
    texts::create_restricted(conn)?;
    texts::create_readers(conn)?;
    Ok(())
}

/// Makes the tables, in the open transaction.
#[tactic(auto, using(crate::proofs::MakeLemmas::extends_then))]
pub fn create_tables<S: Alter>(conn: &mut Connection<S>) -> Result<(), Error>
    requires { HasCleanDisk (state S.Store conn.old) → HasMade blank (state S.Store conn.old) }
    ensures made { HasCleanDisk (state S.Store conn.new) → OnOk result
        (Makes ours (state S.Store conn.old) (state S.Store conn.new)) }
    ensures refused { HasCleanDisk (state S.Store conn.new) → OnErr result
        (KeepsCommit (state S.Store conn.old) (state S.Store conn.new)) }
    ensures survives { Survives (state S.Store conn.old) (state S.Store conn.new) (λ _. ⊥) }
{
    create_token_tables(conn)?;
    create_version_tables(conn)?;
    create_other_tables(conn)?;
    add_tables(conn)
}

const INSERT_ABOUT_TEXT: &str = "INSERT INTO about (schema, base) VALUES (2, ?1)";

fn insert_about<S: Alter>(conn: &mut Connection<S>, base: &str) -> Result<usize, Error>
    requires { IsReady (state S.Store conn.old) }
    ensures added { HasCleanDisk (state S.Store conn.new) → OnOk result
        (AddsColumns 0 (about_columns SchemaVersion.Second base.now) (state S.Store conn.old)
        (state S.Store conn.new)) }
    ensures refused { HasCleanDisk (state S.Store conn.new) → OnErr result
        (Refuses (state S.Store conn.old) (state S.Store conn.new)) }
    ensures survives { Survives (state S.Store conn.old) (state S.Store conn.new) (λ _. ⊥) }
{
    conn.execute(INSERT_ABOUT_TEXT, params![base])
}

#[tactic(auto, using(crate::proofs::MakeLemmas::is_made))]
fn fill<S: Alter>(conn: &mut Connection<S>, base: &str) -> Result<(), Error>
    requires { HasCleanDisk (state S.Store conn.old) → HasMade blank (state S.Store conn.old) }
    ensures made { HasCleanDisk (state S.Store conn.new) → OnOk result
        (IsMade base.now (state S.Store conn.new).now) }
    ensures kept { HasCleanDisk (state S.Store conn.new) → KeepsCommit (state S.Store conn.old)
        (state S.Store conn.new) }
    ensures survives { Survives (state S.Store conn.old) (state S.Store conn.new) (λ _. ⊥) }
{
    create_tables(conn)?;
    insert_about(conn, base)?;
    live_law(conn);
    Ok(())
}

fn fill_and_commit<S: Alter>(conn: &mut Connection<S>, base: &str) -> Result<(), Error>
    requires { (state S.Store conn.old).now.schema ≡ blank }
    ensures made { HasCleanDisk (state S.Store conn.new) → OnOk result
        (IsMade base.now (state S.Store conn.new).committed × IsAtRest (state S.Store conn.new)) }
    ensures kept { HasCleanDisk (state S.Store conn.new) → OnErr result
        (KeepsCommit (state S.Store conn.old) (state S.Store conn.new)) }
    ensures survives { Survives (state S.Store conn.old) (state S.Store conn.new)
        (λ trees. (db : _) × IsMade base.now db × (trees ≡ db.trees)) }
{
    begin(conn)?;
    fill(conn, base)?;
    finish(conn)?;
    Ok(())
}

/// Makes the tables of an empty registry, all in one transaction.
pub fn make_tables<S: Alter>(conn: &mut Connection<S>, base: &str) -> Result<(), MakeFault>
    ensures made { HasCleanDisk (state S.Store conn.new) → OnOk result
        (IsMade base.now (state S.Store conn.new).committed × IsAtRest (state S.Store conn.new)) }
    ensures ours { OnOk result (IsOurs SchemaVersion.Second (state S.Store conn.new)) }
    ensures unknown { (result ≡ Err MakeFault.UnknownSchema) ↔
        ((state S.Store conn.old).now.schema ≢ blank) }
    ensures blank { result ≢ Err MakeFault.UnknownSchema → (state S.Store conn.old).now.schema
        ≡ blank }
    ensures untouched { result ≡ Err MakeFault.UnknownSchema → conn.new ≡ conn.old }
    ensures undone { HasCleanDisk (state S.Store conn.new) → result ≡ Err MakeFault.Storage
        → IsUndone (state S.Store conn.old) (state S.Store conn.new) }
    ensures survives { Survives (state S.Store conn.old) (state S.Store conn.new)
        (λ trees. (db : _) × IsMade base.now db × (trees ≡ db.trees)) }
{
    if !is_blank(conn.schema()) {
        return Err(MakeFault::UnknownSchema);
    }
    if fill_and_commit(conn, base).is_err() {
        undo(conn);
        return Err(MakeFault::Storage);
    }
    Ok(())
}
