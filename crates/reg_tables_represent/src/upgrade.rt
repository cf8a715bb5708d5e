//! Migrating tables of schema 1 to schema 2, in one transaction.

ghost use Rattle.std.specs.Prelude.{OnErr, OnOk};
ghost use Rattle.sqlite.specs.Held.{state};
ghost use Rattle.sqlite.specs.State.{HasCleanDisk, KeepsCommit, Survives};
ghost use Rattle.reg_tables_schema.specs.States.{GoesBack, IsOurs, IsReady, IsUndone};
ghost use Rattle.reg_tables_represent.specs.Upgrades.{BeginsSecond, Upgrades};

use reg_tables_schema::{SchemaVersion, add_tables, begin, undo};
use reg_tables_sql::about;
use reg_tables_sql::statements::Result;
use sqlite::{Alter, Connection};

fn extend<S: Alter>(conn: &mut Connection<S>) -> Result<()>
    requires { IsOurs SchemaVersion.First (state S.Store conn.old) }
    ensures upgrades { HasCleanDisk (state S.Store conn.new) → OnOk result
        (Upgrades (state S.Store conn.old) (state S.Store conn.new)) }
    ensures kept { HasCleanDisk (state S.Store conn.new) → OnErr result
        (KeepsCommit (state S.Store conn.old) (state S.Store conn.new)) }
    ensures survives { Survives (state S.Store conn.old) (state S.Store conn.new) (λ _. ⊥) }
{
    begin(conn)?;
    add_tables(conn)?;
    about::set_second(conn)?;
    Ok(())
}

fn begin_on<S: Alter>(conn: &mut Connection<S>, edition: SchemaVersion) -> Result<()>
    requires { IsOurs edition (state S.Store conn.old) }
    ensures begun { HasCleanDisk (state S.Store conn.new) → OnOk result
        (BeginsSecond edition (state S.Store conn.old) (state S.Store conn.new)) }
    ensures kept { HasCleanDisk (state S.Store conn.new) → OnErr result
        (KeepsCommit (state S.Store conn.old) (state S.Store conn.new)) }
    ensures survives { Survives (state S.Store conn.old) (state S.Store conn.new) (λ _. ⊥) }
{
    match edition {
        SchemaVersion::First => extend(conn)?,
        SchemaVersion::Second => {
            begin(conn)?;
        }
    }
    Ok(())
}

/// Begins a transaction that sees schema 2. If that fails, none is open.
pub fn begin_second<S: Alter>(conn: &mut Connection<S>, edition: SchemaVersion) -> Result<()>
    requires { IsOurs edition (state S.Store conn.old) }
    ensures begun { HasCleanDisk (state S.Store conn.new) → OnOk result
        (BeginsSecond edition (state S.Store conn.old) (state S.Store conn.new)) }
    ensures back { OnOk result (GoesBack edition (state S.Store conn.new)) }
    ensures ready { OnOk result (IsReady (state S.Store conn.new)) }
    ensures undone { HasCleanDisk (state S.Store conn.new) → OnErr result
        (IsUndone (state S.Store conn.old) (state S.Store conn.new)) }
    ensures ours { OnErr result (IsOurs edition (state S.Store conn.new)) }
    ensures survives { Survives (state S.Store conn.old) (state S.Store conn.new) (λ _. ⊥) }
{
    if let Err(fault) = begin_on(conn, edition) {
        undo(conn);
        return Err(fault);
    }
    Ok(())
}
