//! Reserved names: changes to the registry that the rows stand for, and what they show of it.

ghost use Rattle.std.specs.Prelude.{not};
ghost use Rattle.sqlite.specs.Held.{state};
ghost use Rattle.reg_tables_schema.specs.States.{IsReady};
ghost use Rattle.reg_tables_schema.specs.Statements.{rows_in};
ghost use Rattle.reg_tables_schema.specs.Steps.{Done, KeepsAll, Steps, Told};
ghost use Rattle.reg_tables_represent.specs.Calls.{TellsReserved, Transforms};
ghost use Rattle.reg_model.specs.Changes.{with_reserved, without_reserved};

use reg_tables_sql::reserved;
use reg_tables_sql::statements::Result;
use sqlite::{Alter, Connection};

/// Reserves a canonical name, and returns whether it was not reserved.
pub fn add<S: Alter>(conn: &mut Connection<S>, canon: &str) -> Result<bool>
    requires { IsReady (state S.Store conn.old) }
    ensures stands { Done S.Store conn.new result
        (Transforms (λ ids. with_reserved canon.now)
        (rows_in S.Store conn.old) (rows_in S.Store conn.new)) }
    ensures tells { Told S.Store conn.new result
        (λ added. TellsReserved canon.now (rows_in S.Store conn.old) (not added)) }
    ensures leaves { Steps S.Store conn.old conn.new result }
{
    if reserved::is_there(conn, canon)? {
        return Ok(false);
    }
    reserved::insert(conn, canon)?;
    Ok(true)
}

/// Frees a reserved name, and returns whether it was reserved.
pub fn free<S: Alter>(conn: &mut Connection<S>, canon: &str) -> Result<bool>
    requires { IsReady (state S.Store conn.old) }
    ensures stands { Done S.Store conn.new result
        (Transforms (λ ids. without_reserved canon.now)
        (rows_in S.Store conn.old) (rows_in S.Store conn.new)) }
    ensures tells { Told S.Store conn.new result
        (TellsReserved canon.now (rows_in S.Store conn.old)) }
    ensures leaves { Steps S.Store conn.old conn.new result }
{
    let there = reserved::is_there(conn, canon)?;
    reserved::remove(conn, canon)?;
    Ok(there)
}

/// Whether the administrator reserved the name.
pub fn has<S: Alter>(conn: &mut Connection<S>, canon: &str) -> Result<bool>
    requires { IsReady (state S.Store conn.old) }
    ensures found { Told S.Store conn.new result
        (TellsReserved canon.now (rows_in S.Store conn.old)) }
    ensures same { KeepsAll S.Store conn.old conn.new result }
{
    let there = reserved::is_there(conn, canon)?;
    Ok(there)
}
