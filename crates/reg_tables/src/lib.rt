//! The registry kept in tables: a file or store is made or adopted, and calls run on it in
//! transactions. Each call states what it means on the registry that the rows stand for.
//!
//! ```text
//! let mut work = tables.work()?;
//! let ada = work.add_account("ada", Some("Ada"))?;
//! let has_ada = work.has_row("SELECT id FROM accounts WHERE login = ?1", params!["ada"])?;
//! work.commit()?;
//! ```
#![tactic(auto)]

mod accounts;
mod answering;
mod counting;
mod crate_lists;
mod crates;
mod pairs;
mod reserved;
mod restricted;
mod tables;
mod tokens;
mod whole_rows;
mod work;

pub use reg_tables_represent::crates::NewVersion;
pub use reg_tables_represent::entries::index_rows;
pub use reg_tables_represent::tokens::{TokenLists, TokenRows};
pub use reg_tables_represent::walks::rows_of;
pub use reg_tables_rows::all_rows::AllRows;
pub use reg_tables_rows::counts::Counts;
pub use reg_tables_rows::entries::index_entries;
pub use reg_tables_schema::{MakeFault, SchemaVersion};
pub use reg_tables_sql::accounts::Account;
pub use reg_tables_sql::archives::Archive;
pub use reg_tables_sql::crates::Crate;
pub use reg_tables_sql::pairs::Pair;
pub use reg_tables_sql::records::FromRow;
pub use reg_tables_sql::scopes::Scope;
pub use reg_tables_sql::summaries::Summary;
pub use reg_tables_sql::tokens::{Token, TokenRow};
pub use reg_tables_sql::versions::{StemRow, Version};
pub use tables::Tables;
pub use work::{Result, StoreFault, Work};
