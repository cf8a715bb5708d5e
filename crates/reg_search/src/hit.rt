//! What a search finds.

ghost use Rattle.reg_search.specs.Rows.{columns_of_hit};

use reg_tables::FromRow;
use sqlite::{Error, Row};

/// A crate that a search finds.
#[derive(Debug, Drop)]
pub struct Hit {
    /// Its first spelling.
    pub name: String,
    /// Its highest version.
    pub max_version: String,
    /// The description of that version, if any.
    pub description: Option<String>,
}

/// How many crates a search finds, and the first of them by canonical text.
#[derive(Debug, Drop)]
pub struct Found {
    pub total: u64,
    pub crates: Vec<Hit>,
}

impl FromRow for Hit {
    ghost columns = { columns_of_hit };

    fn from_row(row: &Row) -> Result<Hit, Error> {
        if row.column_count() != 3 {
            return Err(Error::InvalidQuery);
        }
        Ok(Hit {
            name: row.get(0)?,
            max_version: row.get(1)?,
            description: row.get(2)?,
        })
    }
}
