//! Each record, made of the columns of its row.

ghost use Rattle.reg_tables_schema.specs.Rows.{number_columns};
ghost use Rattle.reg_tables_sql.specs.Accounts.{account_columns};
ghost use Rattle.reg_tables_sql.specs.Archives.{columns_of_archive, columns_of_bytes};
ghost use Rattle.reg_tables_sql.specs.Crates.{crate_columns};
ghost use Rattle.reg_tables_sql.specs.Pairs.{columns_of_pair};
ghost use Rattle.reg_tables_sql.specs.Reserved.{columns_of_text};
ghost use Rattle.reg_tables_sql.specs.Rowids.{rowid_columns};
ghost use Rattle.reg_tables_sql.specs.Scopes.{columns_of_scope};
ghost use Rattle.reg_tables_sql.specs.Stems.{columns_of_stem};
ghost use Rattle.reg_tables_sql.specs.Summaries.{columns_of_summary};
ghost use Rattle.reg_tables_sql.specs.Tokens.{columns_of_token, columns_with_account};
ghost use Rattle.reg_tables_sql.specs.VersionMarks.{columns_of_mark};

use crate::accounts::Account;
use crate::archives::Archive;
use crate::crates::Crate;
use crate::marks::mark_of;
use crate::pairs::Pair;
use crate::records::{FromRow, check_width, read_columns};
use crate::scopes::Scope;
use crate::statements::Result;
use crate::summaries::Summary;
use crate::tokens::{Token, TokenRow, endpoints_of};
use crate::versions::{StemRow, VersionMark};
use sqlite::Row;

/// An id of 32 bits.
impl FromRow for u32 {
    ghost columns = { number_columns };

    fn from_row(row: &Row) -> Result<u32> {
        check_width(row, 1)?;
        row.get(0)
    }
}

/// An id of a version, or a count.
impl FromRow for u64 {
    ghost columns = { number_columns };

    fn from_row(row: &Row) -> Result<u64> {
        check_width(row, 1)?;
        row.get(0)
    }
}

/// A rowid.
impl FromRow for i64 {
    ghost columns = { rowid_columns };

    fn from_row(row: &Row) -> Result<i64> {
        check_width(row, 1)?;
        row.get(0)
    }
}

impl FromRow for String {
    ghost columns = { columns_of_text };

    fn from_row(row: &Row) -> Result<String> {
        check_width(row, 1)?;
        row.get(0)
    }
}

impl FromRow for Account {
    ghost columns = { account_columns };

    fn from_row(row: &Row) -> Result<Account> {
        read_columns!(row, 4 => Account { id: 0, login: 1, name: 2, enabled: 3 by mark_of })
    }
}

impl FromRow for Token {
    ghost columns = { columns_of_token };

    fn from_row(row: &Row) -> Result<Token> {
        read_columns!(row, 8 => Token {
            id: 0, digest: 1, account: 2, live: 3 by mark_of, endpoints: 4 by endpoints_of
        })
    }
}

impl FromRow for TokenRow {
    ghost columns = { columns_with_account };

    fn from_row(row: &Row) -> Result<TokenRow> {
        read_columns!(row, 9 => TokenRow {
            id: 0, account: 1, live: 2 by mark_of, endpoints: 3 by endpoints_of,
            login: 7, enabled: 8 by mark_of
        })
    }
}

impl FromRow for Scope {
    ghost columns = { columns_of_scope };

    fn from_row(row: &Row) -> Result<Scope> {
        read_columns!(row, 5 => Scope { token: 0, place: 1, pattern: 2, low: 3, high: 4 })
    }
}

impl FromRow for Crate {
    ghost columns = { crate_columns };

    fn from_row(row: &Row) -> Result<Crate> {
        read_columns!(row, 3 => Crate { id: 0, canon: 1, name: 2 })
    }
}

impl FromRow for Pair {
    ghost columns = { columns_of_pair };

    fn from_row(row: &Row) -> Result<Pair> {
        read_columns!(row, 2 => Pair { crate_id: 0, account: 1 })
    }
}

impl FromRow for StemRow {
    ghost columns = { columns_of_stem };

    fn from_row(row: &Row) -> Result<StemRow> {
        read_columns!(row, 2 => StemRow { stem: 0, yanked: 1 by mark_of })
    }
}

impl FromRow for VersionMark {
    ghost columns = { columns_of_mark };

    fn from_row(row: &Row) -> Result<VersionMark> {
        read_columns!(row, 4 => VersionMark {
            id: 0, vers: 1, stem_length: 2, yanked: 3 by mark_of
        })
    }
}

impl FromRow for Archive {
    ghost columns = { columns_of_archive };

    fn from_row(row: &Row) -> Result<Archive> {
        read_columns!(row, 2 => Archive { version: 0, bytes: 1 })
    }
}

impl FromRow for Vec<u8> {
    ghost columns = { columns_of_bytes };

    fn from_row(row: &Row) -> Result<Vec<u8>> {
        check_width(row, 1)?;
        row.get(0)
    }
}

impl FromRow for Summary {
    ghost columns = { columns_of_summary };

    fn from_row(row: &Row) -> Result<Summary> {
        read_columns!(row, 3 => Summary { crate_id: 0, highest: 1, index_length: 2 })
    }
}
