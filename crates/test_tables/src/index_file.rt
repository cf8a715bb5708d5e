//! The index file of a crate, as a text.

ghost use Rattle.std.specs.Prelude.{◌≡◌};
ghost use Rattle.reg_tables.specs.Works.{AreOurs, IsActive};

use crate::fault::Fault;
use crate::records::{Shown, bytes_text, list};
use reg_line::{Entry, file};
use reg_tables::{SchemaVersion, StemRow, StoreFault, Tables, Version, Work, index_entries};
use sqlite::Alter;
use std::alloc::{AllocError, Global};

fn entry_of(version: Version) -> Entry {
    Entry {
        stem: version.stem,
        yanked: version.yanked,
    }
}

fn index_file(alloc: Global, versions: Vec<Version>) -> Result<Vec<u8>, AllocError> {
    let mut entries = Vec::new(alloc);
    for version in versions {
        entries.push(entry_of(version))?;
    }
    file(alloc, &entries)
}

/// A file: its length, and its lines with a semicolon in place of each line feed.
fn file_text(alloc: Global, bytes: &[u8]) -> Result<String, AllocError> {
    let lines = bytes_text(alloc, bytes)?;
    let lines = lines.replace(alloc, "\n", ";")?;
    format!(in alloc; "{} {lines}", bytes.len())
}

fn index_text(alloc: Global, versions: Vec<Version>) -> Result<String, AllocError> {
    let bytes = index_file(alloc, versions)?;
    file_text(alloc, &bytes)
}

/// The index file of a crate.
pub(crate) fn index_of<S: Alter>(
    alloc: Global,
    work: &mut Work<'_, S>,
    crate_id: u32,
) -> Result<String, AllocError>
    requires { IsActive S.Store work.old }
    ensures at_work { IsActive S.Store work.new }
    ensures same_reference { work.new.tables.ghost_name ≡ work.old.tables.ghost_name }
{
    match work.versions_of(alloc, crate_id) {
        Ok(versions) => index_text(alloc, versions),
        Err(StoreFault) => String::from_str(alloc, "fault"),
    }
}

impl Shown for StemRow {
    fn show(&self, alloc: Global) -> Result<String, AllocError> {
        let stem = bytes_text(alloc, self.stem.as_slice())?;
        format!(in alloc; "{}:{stem};", if self.yanked { "yanked" } else { "kept" })
    }
}

/// The marks and stems of a crate, which are read one row at a time.
pub fn entries_text<S: Alter>(
    alloc: Global,
    tables: &mut Tables<S>,
    crate_id: u32,
) -> Result<String, Fault>
    requires { AreOurs S.Store tables.old }
    ensures { AreOurs S.Store tables.new }
{
    if tables.is_stopped() {
        return Err(Fault::Store);
    }
    match tables.edition() {
        SchemaVersion::First => Err(Fault::NotMade),
        SchemaVersion::Second => Ok(list(
            alloc,
            &index_entries(alloc, tables.reading(), crate_id)?,
        )?),
    }
}
