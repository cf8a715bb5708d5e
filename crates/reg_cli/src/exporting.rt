//! The index as files in a folder of the file system.

use crate::files::is_registry;
use reg_cli_line::Exit;
use reg_cli_run::{Folder, join_path};
use std::alloc::AllocError;
use std::path::Path;
use std::{fs, io};

/// A folder that the index is written into, and the registry's own file, which has to stay.
#[derive(Drop)]
pub(crate) struct IndexFolder<'a> {
    rt: &'a HostRuntime,
    path: &'a str,
    registry: &'a str,
}

impl<'a> IndexFolder<'a> {
    pub(crate) fn new(rt: &'a HostRuntime, path: &'a str, registry: &'a str) -> IndexFolder<'a> {
        IndexFolder { rt, path, registry }
    }
}

/// Whether one of the files is the registry's own, or has a name beside it that the library uses.
fn have_registry(
    rt: &HostRuntime,
    folder: &str,
    files: &[(String, Vec<u8>)],
    registry: &str,
) -> Result<bool, AllocError> {
    for (path, _) in files {
        let whole = join_path(rt.alloc(), folder, path)?;
        if is_registry(rt, &whole, registry)? {
            return Ok(true);
        }
    }
    Ok(false)
}

impl Folder for IndexFolder<'_> {
    /// Makes the folder first, so that it is known where it leads. Existing files are overwritten,
    /// unless one is the registry's own or a name beside it. The empty text names no folder.
    fn prepare(&mut self, files: &[(String, Vec<u8>)]) -> Result<(), Exit> {
        if self.path.is_empty() || fs::create_dir_all(self.rt, self.path).is_err() {
            return Err(Exit::STORAGE);
        }
        match have_registry(self.rt, self.path, files, self.registry) {
            Ok(false) => Ok(()),
            Ok(true) => Err(Exit::STORAGE),
            Err(_) => Err(Exit::MEMORY),
        }
    }

    fn write_file(&mut self, path: &str, bytes: &[u8]) -> io::Result<()> {
        let whole = join_path(self.rt.alloc(), self.path, path)?;
        if let Some(parent) = Path::new(whole.as_str()).parent() {
            fs::create_dir_all(self.rt, parent)?;
        }
        fs::write(self.rt, whole.as_str(), bytes)
    }
}
