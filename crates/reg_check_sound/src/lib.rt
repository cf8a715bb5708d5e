//! The law of opening: rows pass the checks exactly when they stand for a sound registry.
//!
//! Nothing here does anything: a function that calls a law gains it for its own proof.
//!
//! ```
//! edition_law();                                  // for rows of either schema, as found
//! rows_law(&conn);                                // what `conn` shows keeps its schema's rules
//! let tables = Tables::adopt(alloc, conn)?;
//! ```
#![tactic(auto)]

pub mod laws;
