//! Playing the scripts of the tests.

use std::alloc::Global;
use std::process::Abort;
use std::test::Fail;
use test_tables::{check_each, over_a_connection, play};

/// Calls in transactions, over new tables.
pub(crate) fn plays(rt: &impl Abort, alloc: Global, script: &str) -> Result<(), Fail> {
    assert_eq!(rt; play(alloc, script)?, None);
    Ok(())
}

/// Words and statements, over a connection to an empty store.
pub(crate) fn connects(rt: &impl Abort, alloc: Global, script: &str) -> Result<(), Fail> {
    assert_eq!(rt; over_a_connection(alloc, script)?, None);
    Ok(())
}

/// Statements, each with the check that then fails.
pub(crate) fn checks(rt: &impl Abort, alloc: Global, script: &str) -> Result<(), Fail> {
    assert_eq!(rt; check_each(alloc, script)?, None);
    Ok(())
}
