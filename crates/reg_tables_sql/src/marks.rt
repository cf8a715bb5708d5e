//! Marks in rows.

ghost use Rattle.std.specs.Prelude.{◌≡◌, IfOk};
ghost use Rattle.sqlite.specs.Order.{column};
ghost use Rattle.reg_tables_schema.specs.Rows.{sql_bool};

use crate::statements::Result;
use sqlite::{Error, Row};

/// The mark in a column; no other number is one.
pub(crate) fn mark_of(row: &Row, at: usize) -> Result<bool>
    ensures { IfOk result (λ b. column row.now at ≡ sql_bool b) }
{
    match row.get::<u32>(at)? {
        0 => Ok(false),
        1 => Ok(true),
        _ => Err(Error::InvalidQuery),
    }
}
