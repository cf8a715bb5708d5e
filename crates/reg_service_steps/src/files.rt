//! Index files, from the rows of versions.

ghost use Rattle.std.specs.Prelude.{◌≡◌, IfOk, map};
ghost use Rattle.reg_line.specs.File.{entry_view, file_text};
ghost use Rattle.reg_service_steps.specs.Reads.{entry_of_version};

use reg_line::{Entry, file};
use reg_tables::Version;
use std::alloc::{AllocError, Global};

fn entry_of(version: Version) -> Entry
    ensures { entry_view result ≡ entry_of_version version }
{
    Entry {
        stem: version.stem,
        yanked: version.yanked,
    }
}

fn entries_of(alloc: Global, versions: Vec<Version>) -> Result<Vec<Entry>, AllocError>
    ensures { IfOk result
        (λ list. map entry_view list.items ≡ map entry_of_version versions.items) }
{
    let mut entries = Vec::new(alloc);
    for version in versions {
        entries.push(entry_of(version))?;
    }
    Ok(entries)
}

/// The index file of these versions.
pub fn index_file(alloc: Global, versions: Vec<Version>) -> Result<Vec<u8>, AllocError>
    ensures { IfOk result
        (λ text. text.items ≡ file_text (map entry_of_version versions.items)) }
{
    let entries = entries_of(alloc, versions)?;
    file(alloc, &entries)
}
