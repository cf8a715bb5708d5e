//! Folders that files are written into.

ghost use Rattle.std.specs.Prelude.{◌≡◌, IfErr, IfOk, OnOk, Option, List, None, string_bytes};
ghost use Rattle.reg_model.specs.Registry.{Text};
ghost use Rattle.sqlite.specs.State.{HasCleanDisk};
ghost use Rattle.reg_model.specs.Crates.{exported};
ghost use Rattle.reg_service.specs.Answered.{StandsIn};
ghost use Rattle.reg_service.specs.Looked.{Looked};
ghost use Rattle.reg_service.specs.Registries.{limits_of, tables_of};
ghost use Rattle.reg_tables.specs.Works.{shown};
ghost use Rattle.reg_cli_run.specs.Folders.{EndsExporting, EndsWriting, Gains, IsExported, joined};

use reg_cli_line::Exit;
use reg_service::Registry;
use sqlite::Alter;
use std::alloc::{AllocError, Global};
use std::io;

/// A folder that files are written into.
pub trait Folder {
    // The files that were written, each with its path, if that is known.
    ghost files: { Self → Option (List (Text × Text)) } = { λ _. None };

    /// Makes the folder, and refuses files of which one may not be written. None is written yet.
    fn prepare(&mut self, all: &[(String, Vec<u8>)]) -> Result<(), Exit>
        ensures kept { files self.new ≡ files self.old }
        ensures refused { IfErr result EndsExporting };

    /// Writes a file at a path below the folder, and makes any missing folders.
    fn write_file(&mut self, path: &str, bytes: &[u8]) -> io::Result<()>
        ensures { OnOk result (Gains (files self.old) (files self.new) path.now bytes.now) };
}

/// The path of what is at `path` in the folder.
pub fn join_path(alloc: Global, folder: &str, path: &str) -> Result<String, AllocError>
    ensures { IfOk result (λ whole. string_bytes whole ≡ joined folder.now path.now) }
{
    format!(in alloc; "{folder}/{path}")
}

/// Writes the files, one after another.
pub fn write_files<F: Folder>(folder: &mut F, files: &[(String, Vec<u8>)]) -> Exit
    ensures { EndsWriting (F.files folder.old) (F.files folder.new) files.now result }
{
    for file in files {
        let (path, bytes) = file;
        let fails = folder.write_file(path, bytes).is_err();
        if fails {
            return Exit::STORAGE;
        }
    }
    Exit::DONE
}

/// Writes the files of the index into a folder: all of them, or the run ends with a fault. The
/// registry is only looked at.
pub fn export_into<S: Alter, F: Folder>(
    alloc: Global,
    registry: &mut Registry<S>,
    folder: &mut F,
) -> Exit
    ensures looked { Looked S.Store (tables_of registry.old) (tables_of registry.new) }
    ensures limits { limits_of registry.new ≡ limits_of registry.old }
    ensures exported { HasCleanDisk (shown S.Store (tables_of registry.new)) → (s : _)
        → StandsIn s (shown S.Store (tables_of registry.old))
        → IsExported (F.files folder.old) (F.files folder.new) (exported s) result }
{
    let Ok(files) = registry.export(alloc) else {
        return Exit::STORAGE;
    };
    match folder.prepare(&files) {
        Ok(()) => write_files(folder, &files),
        Err(exit) => exit,
    }
}
