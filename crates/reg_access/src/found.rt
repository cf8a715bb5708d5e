//! A crate as the rows show it to an account.

ghost use Rattle.reg_access.specs.Found.{columns_of_crate};

use reg_names::{CrateName, parse_name};
use reg_tables::FromRow;
use sqlite::{Error, Row};

/// A crate found by its canonical text, and what one account is to it.
#[derive(Drop)]
pub(crate) struct CrateRow {
    pub id: u32,
    pub name: CrateName,
    /// The account, if it owns the crate.
    pub owner: Option<u32>,
    /// The crate, if it is restricted.
    pub restricted: Option<u32>,
    /// The account, if it is a reader of the crate.
    pub reader: Option<u32>,
}

impl FromRow for CrateRow {
    ghost columns = { columns_of_crate };

    fn from_row(row: &Row) -> Result<CrateRow, Error> {
        if row.column_count() != 5 {
            return Err(Error::InvalidQuery);
        }
        let text: String = row.get(1)?;
        let Some(name) = parse_name(&text) else {
            return Err(Error::InvalidQuery);
        };
        Ok(CrateRow {
            id: row.get(0)?,
            name,
            owner: row.get(2)?,
            restricted: row.get(3)?,
            reader: row.get(4)?,
        })
    }
}
