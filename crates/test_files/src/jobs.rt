//! Jobs over any store, done over files.
//!
//! No other function names the store of files, in which each call of one over any store is dear to
//! check.

use crate::files::{MANY_PAGES, closed, left, open};
use sqlite::{Alter, Connection, Files, Options};
use sqlite_disk::Disk;
use std::alloc::Global;

/// What can be done over any store.
pub trait Job {
    /// What comes of it.
    type Came: Drop;

    /// Does it, and gives the connection back.
    fn over<S: Alter + Drop>(
        &self,
        alloc: Global,
        conn: Connection<S>,
    ) -> (Connection<S>, Self::Came);
}

/// The files as a job leaves them, and what came of it; nothing where they are not opened.
pub fn work_in<D: Disk + Drop, J: Job>(
    alloc: Global,
    files: Files<D>,
    options: Options,
    job: &J,
) -> (Files<D>, Option<J::Came>) {
    match open(alloc, files, options) {
        Ok(conn) => {
            let (conn, came) = job.over(alloc, conn);
            (left(conn), Some(came))
        }
        Err(files) => (files, None),
    }
}

/// The files once a job was done and they are closed, and what came of it; none where they are not
/// opened or not closed.
pub fn work_and_close<D: Disk + Drop, J: Job>(
    alloc: Global,
    files: Files<D>,
    job: &J,
) -> Option<(Files<D>, J::Came)> {
    let Ok(conn) = open(alloc, files, MANY_PAGES) else {
        return None;
    };
    let (conn, came) = job.over(alloc, conn);
    Some((closed(conn)?, came))
}
