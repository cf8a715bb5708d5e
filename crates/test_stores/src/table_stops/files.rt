//! A registry in two files that stop after a number of calls, and are opened again.

use crate::table_stops::fault::Fault;
use crate::table_stops::playing::{fill, rows_over};
use sqlite::{Alter, Connection, Files};
use sqlite_disk::Crash;
use std::alloc::Global;
use test_files::{
    Image, Job, MANY_PAGES, NO_LIMITS, files_of, image_of, nothing, revive, work_and_close, work_in,
};
use test_tables::make_old;

/// Its rows are read.
struct Read;

impl Job for Read {
    type Came = Result<Option<String>, Fault>;

    fn over<S: Alter + Drop>(
        &self,
        alloc: Global,
        conn: Connection<S>,
    ) -> (Connection<S>, Result<Option<String>, Fault>) {
        rows_over(alloc, conn)
    }
}

/// The rows of files that a machine finds again after it stopped.
pub(crate) fn rows_after<D: Crash + Drop>(
    alloc: Global,
    mut files: Files<D>,
) -> Result<Option<String>, Fault> {
    revive(&mut files);
    let (_files, rows) = work_in(alloc, files, MANY_PAGES, &Read);
    rows.unwrap_or(Err(Fault::NotOpened))
}

/// Files, and the rows in them.
#[derive(Drop)]
pub(crate) struct Prepared {
    pub(crate) image: Image,
    pub(crate) rows: Option<String>,
}

/// Files with nothing in them.
pub(crate) fn prepare_nothing(alloc: Global) -> Prepared {
    Prepared {
        image: nothing(alloc),
        rows: None,
    }
}

/// It becomes the prepared registry over which this script was played; without a script, a store of
/// schema 1.
#[derive(Clone, Copy)]
struct Fill<'a> {
    script: Option<&'a str>,
}

impl Job for Fill<'_> {
    type Came = Result<(), Fault>;

    fn over<S: Alter + Drop>(
        &self,
        alloc: Global,
        mut conn: Connection<S>,
    ) -> (Connection<S>, Result<(), Fault>) {
        match self.script {
            Some(script) => fill(alloc, conn, script),
            None => {
                let made = make_old(&mut conn).map_err(|_error| Fault::NotMade);
                (conn, made)
            }
        }
    }
}

/// The bytes of new files whose store is filled.
fn image_after(alloc: Global, script: Option<&str>) -> Result<Image, Fault> {
    let files = files_of(alloc, &nothing(alloc), &NO_LIMITS)?;
    let Some((files, filled)) = work_and_close(alloc, files, &Fill { script }) else {
        return Err(Fault::NotClosed);
    };
    filled?;
    Ok(image_of(alloc, &files)?)
}

fn with_its_rows(alloc: Global, image: Image) -> Result<Prepared, Fault> {
    let rows = rows_after(alloc, files_of(alloc, &image, &NO_LIMITS)?)?;
    Ok(Prepared { image, rows })
}

/// The prepared registry once this script was played over it.
pub(crate) fn prepare_files(alloc: Global, script: &str) -> Result<Prepared, Fault> {
    let image = image_after(alloc, Some(script))?;
    with_its_rows(alloc, image)
}

/// A store of schema 1.
pub(crate) fn prepare_old_files(alloc: Global) -> Result<Prepared, Fault> {
    let image = image_after(alloc, None)?;
    with_its_rows(alloc, image)
}
