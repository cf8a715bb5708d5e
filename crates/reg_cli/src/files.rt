//! The registry's file and the names beside it, among other files.

use reg_cli_line::Exit;
use std::alloc::AllocError;
use std::fs;
use std::io::{Error, ErrorKind};
use std::os::unix::fs::MetadataExt;
use std::path::Path;

/// What the library keeps beside a file: its log, and names of SQLite that it may come to use.
const BESIDE: [&str; 3] = ["-wal", "-shm", "-journal"];

/// The least length of a log that can hold a page: its header, that of the page, and the page.
const LEAST_LOG: u64 = 32 + 24 + 512;

/// The end of a run that could not look at a file.
fn exit_of(error: &Error) -> Exit {
    match error.kind() {
        ErrorKind::OutOfMemory => Exit::MEMORY,
        _ => Exit::STORAGE,
    }
}

/// A name beside a file.
fn beside(rt: &HostRuntime, file: &str, ending: &str) -> Result<String, AllocError> {
    format!(in rt.alloc(); "{file}{ending}")
}

/// The path of a folder without a link in it, and a name in that folder.
fn in_folder(rt: &HostRuntime, folder: &str, name: &str) -> Result<String, Exit> {
    let folder = if folder.is_empty() { "." } else { folder };
    match fs::canonicalize(rt, folder) {
        Ok(folder) => match folder.join(rt.alloc(), name) {
            Ok(path) => Ok(path.into_string()),
            Err(_) => Err(Exit::MEMORY),
        },
        Err(error) => Err(exit_of(&error)),
    }
}

/// The path that a file which is not there yet will have, without a link in it. A link that leads
/// nowhere has none.
fn new_path(rt: &HostRuntime, file: &str) -> Result<String, Exit> {
    if fs::symlink_metadata(rt, file).is_ok() {
        return Err(Exit::STORAGE);
    }
    let path = Path::new(file);
    match (path.parent(), path.file_name()) {
        (Some(folder), Some(name)) => in_folder(rt, folder.as_os_str(), name),
        _ => Err(Exit::STORAGE),
    }
}

/// The path of the registry's file without a link in it, so that the log beside the path is the log
/// of the file.
pub(crate) fn whole_path(rt: &HostRuntime, file: &str) -> Result<String, Exit> {
    match fs::canonicalize(rt, file) {
        Ok(path) => Ok(path.into_string()),
        Err(error) if error.kind() == ErrorKind::NotFound => new_path(rt, file),
        Err(error) => Err(exit_of(&error)),
    }
}

/// The length of a file; 0 if not found.
fn length(rt: &HostRuntime, path: &str) -> Result<u64, Exit> {
    match fs::metadata(rt, path) {
        Ok(found) => Ok(found.len()),
        Err(error) if error.kind() == ErrorKind::NotFound => Ok(0),
        Err(error) => Err(exit_of(&error)),
    }
}

/// Whether a log has lost its file: the file is empty or not there, and the log can hold a page.
/// What was acknowledged last may be in that log alone. The first run on a file may end before it
/// has written to the file: then the log holds no page yet.
pub(crate) fn is_orphaned(rt: &HostRuntime, file: &str) -> Result<bool, Exit> {
    let Ok(log) = beside(rt, file, "-wal") else {
        return Err(Exit::MEMORY);
    };
    Ok(length(rt, file)? == 0 && length(rt, &log)? >= LEAST_LOG)
}

/// Whether both paths lead to the same existing file.
fn is_same_file(rt: &HostRuntime, first: &str, second: &str) -> bool {
    match (fs::metadata(rt, first), fs::metadata(rt, second)) {
        (Ok(first), Ok(second)) => first.dev() == second.dev() && first.ino() == second.ino(),
        _ => false,
    }
}

/// Whether a link is there that leads nowhere yet.
fn is_loose_link(rt: &HostRuntime, path: &str) -> bool {
    fs::symlink_metadata(rt, path).is_ok() && fs::metadata(rt, path).is_err()
}

/// Whether a path is one of the names beside the registry's file, there or not yet, or may come to
/// lead to one. In a folder that is not there yet, there is none.
fn is_beside(rt: &HostRuntime, path: &str, file: &str) -> Result<bool, AllocError> {
    if is_loose_link(rt, path) {
        return Ok(true);
    }
    let Ok(whole) = whole_path(rt, path) else {
        return Ok(false);
    };
    for ending in BESIDE {
        let name = beside(rt, file, ending)?;
        if whole == name || is_same_file(rt, path, &name) {
            return Ok(true);
        }
    }
    Ok(false)
}

/// Whether a path leads to the registry's file, or to a name beside it that the library may use.
pub(crate) fn is_registry(rt: &HostRuntime, path: &str, file: &str) -> Result<bool, AllocError> {
    Ok(is_same_file(rt, path, file) || is_beside(rt, path, file)?)
}
