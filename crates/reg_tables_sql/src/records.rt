//! The rows of a result, read as records.

ghost use Rattle.std.specs.Prelude.{◌≡◌, IfOk, OnOk, length, map};
ghost use Rattle.sqlite.specs.Order.{Row as Values};

use crate::statements::Result;
use sqlite::{Error, Row};
use std::alloc::Global;

/// A record made of a row's columns.
pub trait FromRow: Sized + Drop {
    ghost columns: { Self → Values };

    fn from_row(row: &Row) -> Result<Self>
        ensures { IfOk result (λ it. row.now ≡ columns it) };
}

/// Refuses a row with another number of columns.
pub(crate) fn check_width(row: &Row, columns: usize) -> Result<()>
    ensures { OnOk result (length row.now ≡ columns) }
{
    if row.column_count() != columns {
        return Err(Error::InvalidQuery);
    }
    Ok(())
}

/// Reads a row of `$width` columns as a record: each field by `get` from its column, or by the
/// function that is named after `by`.
macro_rules! read_columns {
    (@field $row:ident, $at:literal) => { $row.get($at)? };
    (@field $row:ident, $at:literal by $read:ident) => { $read($row, $at)? };
    ($row:ident, $width:literal => $record:ident {
        $($field:ident: $at:literal $(by $read:ident)?),*
    }) => {{
        crate::records::check_width($row, $width)?;
        Ok($record { $($field: crate::records::read_columns!(@field $row, $at $(by $read)?)),* })
    }};
}

pub(crate) use read_columns;

/// The records of all rows, in order. Each row is dropped as soon as its record is made.
pub(crate) fn read_all<T: FromRow>(alloc: Global, rows: Vec<Row>) -> Result<Vec<T>>
    ensures { IfOk result (λ list. map T.FromRow.columns list.items ≡ rows.items) }
{
    let mut list = Vec::new(alloc);
    for row in rows {
        list.push(T::from_row(&row)?)?;
    }
    Ok(list)
}
