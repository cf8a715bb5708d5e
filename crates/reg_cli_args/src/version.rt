//! The version of the program, and the schema of the files that it writes.

/// What follows the program's name.
pub(crate) const VERSION: &str = "1.0.0 (schema 2)";
