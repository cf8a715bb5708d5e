//! A store of schema 1 over files that stop at some call, and with scarce memory: until the
//! migration it is of schema 1 whole, then of schema 2 whole, and the rows are the same.

use crate::table_stops::fault::Fault;
use crate::table_stops::files::prepare_old_files;
use crate::table_stops::lines::{How, over_files, over_old_files};
use crate::table_stops::playing::schema_words;
use crate::table_stops::tasks::Task;
use crate::table_stops::trials::rows_once_done;
use reg_tables::SchemaVersion;
use std::alloc::Global;
use test_files::Scarce;

/// Each leaves a store of schema 1 as it is.
const SELECTIONS: &str = "adopt -> done
audit -> none
read-logins -> 1:ada:Ada;2:bob:-;";

const MIGRATION: &str = "migrate -> yes";

/// Bytes between two amounts of memory.
const STEP: u32 = 16_000;

/// The rows of tables of this schema.
fn rows_of(found: &Option<String>, edition: SchemaVersion) -> Option<&str> {
    match found {
        Some(text) => text.strip_prefix(schema_words(edition)),
        None => None,
    }
}

/// Whether the tables were of schema 1 and are of schema 2, with the same rows.
fn is_migrated(old: &Option<String>, new: &Option<String>) -> bool {
    match (
        rows_of(old, SchemaVersion::First),
        rows_of(new, SchemaVersion::Second),
    ) {
        (Some(old), Some(new)) => old == new && !old.contains("fault"),
        _ => false,
    }
}

fn keeps_the_rows(alloc: Global) -> Result<bool, Fault> {
    let old = prepare_old_files(alloc)?;
    let new = rows_once_done(alloc, &old, &Task::Migrate, "yes")?;
    Ok(is_migrated(&old.rows, &new))
}

#[test]
fn a_migration(rt: HostRuntime) -> Result<(), Fault> {
    if keeps_the_rows(rt.alloc())? {
        return Ok(());
    }
    Err(Fault::OtherRows)
}

#[test]
fn a_stop_while_tables_are_migrated(rt: HostRuntime) -> Result<(), Fault> {
    over_old_files(rt.alloc(), MIGRATION, How::StoppedChange)
}

#[test]
fn a_stop_while_an_old_store_is_read(rt: HostRuntime) -> Result<(), Fault> {
    over_old_files(rt.alloc(), SELECTIONS, How::StoppedSelection)
}

/// Tables of schema 2 stay as they are.
#[test]
fn a_stop_where_nothing_is_to_be_migrated(rt: HostRuntime) -> Result<(), Fault> {
    over_files(rt.alloc(), "", "migrate -> no", How::StoppedSelection)
}

#[test]
fn tables_migrated(rt: HostRuntime) -> Result<(), Fault> {
    let how = How::ScarceChange(Scarce::Call, STEP, 1);
    over_old_files(rt.alloc(), MIGRATION, how)
}
