//! The index as files, each with its path.

ghost use Rattle.std.specs.Prelude.{◌≡◌, ◌∷◌, [], ◌++◌, codes, false, map, IfOk, OnOk};
ghost use Rattle.reg_line.specs.Config.{config_text};
ghost use Rattle.reg_line.specs.File.{file_text};
ghost use Rattle.reg_names.specs.Names.{path_of};
ghost use Rattle.reg_tables.specs.Works.{IsActive, has_failed};
ghost use Rattle.reg_tables.specs.Calling.{Queries};
ghost use Rattle.reg_service_commands.specs.Exported.{AddsFile, AddsFiles, Exports, HasConfig, texts_of};
ghost use Rattle.reg_service_steps.specs.Reads.{entry_of_version};

use reg_line::config;
use reg_names::{CrateName, index_path, parse_name};
use reg_service_steps::{find_base, index_file};
use reg_tables::{Crate, Result, Version, Work};
use sqlite::Alter;
use std::alloc::{AllocError, Global};

fn config_alone(alloc: Global, base: &str) -> Result<Vec<(String, Vec<u8>)>, AllocError>
    ensures { IfOk result (λ files. map texts_of files.items
        ≡ (codes "config.json", config_text base.now) ∷ []) }
{
    let path = String::from_str(alloc, "config.json")?;
    let text = config(alloc, base)?;
    let mut files = Vec::new(alloc);
    files.push((path, text))?;
    Ok(files)
}

/// The file that comes before those of the crates.
fn first_file<S: Alter>(alloc: Global, work: &mut Work<'_, S>) -> Result<Vec<(String, Vec<u8>)>>
    requires { IsActive S.Store work.old }
    ensures { Queries S.Store work.old work.new result
        (λ db files. HasConfig (map texts_of files.items) db) }
{
    let base = find_base(work)?;
    match config_alone(alloc, &base) {
        Ok(files) => Ok(files),
        Err(_) => work.fail(),
    }
}

fn push_file(
    alloc: Global,
    files: &mut Vec<(String, Vec<u8>)>,
    name: &CrateName,
    versions: Vec<Version>,
) -> Result<(), AllocError>
    ensures { OnOk result (map texts_of files.new.items ≡ map texts_of files.old.items
        ++ (path_of name.now, file_text (map entry_of_version versions.items)) ∷ []) }
{
    let path = String::from_str(alloc, index_path(name).as_str())?;
    let text = index_file(alloc, versions)?;
    files.push((path, text))?;
    Ok(())
}

/// Asks for the versions of a crate and adds its file. A spelling that is no name is a fault.
fn add_file<S: Alter>(
    alloc: Global,
    work: &mut Work<'_, S>,
    files: &mut Vec<(String, Vec<u8>)>,
    listed: &Crate,
) -> Result<()>
    requires { IsActive S.Store work.old }
    ensures { Queries S.Store work.old work.new result (λ db _. AddsFile listed.now
        (map texts_of files.old.items) (map texts_of files.new.items) db) }
{
    let versions = work.versions_of(alloc, listed.id)?;
    let Some(name) = parse_name(listed.name.as_str()) else {
        return work.fail();
    };
    match push_file(alloc, files, &name, versions) {
        Ok(()) => Ok(()),
        Err(_) => work.fail(),
    }
}

fn add_files<S: Alter>(
    alloc: Global,
    work: &mut Work<'_, S>,
    first: Vec<(String, Vec<u8>)>,
    crates: &[Crate],
) -> Result<Vec<(String, Vec<u8>)>>
    requires at_work { IsActive S.Store work.old }
    requires goes_on { has_failed work.old ≡ false }
    ensures { Queries S.Store work.old work.new result (λ db files. AddsFiles crates.now crates.now
        (map texts_of first.items) (map texts_of files.items) db) }
{
    let mut files = first;
    for listed in crates {
        add_file(alloc, work, &mut files, listed)?;
    }
    Ok(files)
}

/// The files of the index, each after its path: the config, then each crate's, ordered by canonical
/// text.
pub fn export_all<S: Alter>(alloc: Global, work: &mut Work<'_, S>) -> Result<Vec<(String, Vec<u8>)>>
    requires { IsActive S.Store work.old }
    ensures { Queries S.Store work.old work.new result (λ db files. Exports files.items db) }
{
    let first = first_file(alloc, work)?;
    let crates = work.all_crates(alloc)?;
    add_files(alloc, work, first, &crates)
}
