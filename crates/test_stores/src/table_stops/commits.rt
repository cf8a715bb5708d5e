//! A commit with each amount of memory: it is done, or the rows found on opening are those before.

use crate::table_stops::calls::{A_CRATE, CHANGES};
use crate::table_stops::fault::Fault;
use crate::table_stops::lines::{How, over_files};
use test_files::Scarce;

/// Bytes between two amounts: for one change, and for each of all changes.
const STEP: u32 = 10_000;

const EACH_STEP: u32 = 40_000;

#[test]
fn a_commit(rt: HostRuntime) -> Result<(), Fault> {
    let how = How::ScarceChange(Scarce::Commit, STEP, 5);
    over_files(rt.alloc(), "", A_CRATE, how)
}

#[test]
fn any_commit(rt: HostRuntime) -> Result<(), Fault> {
    let how = How::ScarceChange(Scarce::Commit, EACH_STEP, 1);
    over_files(rt.alloc(), "", CHANGES, how)
}
