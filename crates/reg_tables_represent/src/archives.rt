//! Archives by the ids of their versions.

ghost use Rattle.sqlite.specs.Held.{state};
ghost use Rattle.reg_tables_schema.specs.States.{IsReady};
ghost use Rattle.reg_tables_schema.specs.Statements.{rows_in};
ghost use Rattle.reg_tables_schema.specs.Steps.{KeepsAll, Told};
ghost use Rattle.reg_tables_sql.specs.Archives.{IsArchiveWithId};

use reg_tables_sql::archives::{self, Archive};
use reg_tables_sql::statements::Result;
use sqlite::{Alter, Connection, Error};

/// SQL's greatest integer.
const GREATEST: u64 = i64::MAX as u64;

/// The archive of the version with this id.
pub fn with_id<S: Alter>(conn: &mut Connection<S>, version: u64) -> Result<Option<Archive>>
    requires { IsReady (state S.Store conn.old) }
    ensures found { Told S.Store conn.new result
        (IsArchiveWithId version (rows_in S.Store conn.old)) }
    ensures same { KeepsAll S.Store conn.old conn.new result }
{
    if version > GREATEST {
        return Err(Error::InvalidQuery);
    }
    archives::by_id(conn, version)
}
