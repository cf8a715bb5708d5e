//! The two schemas of the tables.

/// Which schema the tables have. The second has two more tables: which crates are restricted, and
/// who reads them.
#[derive(Clone, Copy, Debug, PartialEq, Eq)]
pub enum SchemaVersion {
    First,
    Second,
}
