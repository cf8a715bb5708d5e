//! The registry's file.

ghost use Rattle.std.specs.Prelude.{◌≡◌, false, IfOk};
ghost use Rattle.sqlite.specs.Files.{IsOpened, file_state};
ghost use Rattle.sqlite.specs.Held.{IsNew, state};
ghost use Rattle.sqlite.specs.Start.{FindsIn};
ghost use Rattle.sqlite.specs.State.{HasCleanDisk};
ghost use Rattle.sqlite_wal.specs.Files.{image_at};
ghost use Rattle.reg_tables.specs.Works.{shown};
ghost use Rattle.reg_service.specs.Registries.{IsNew as IsNewRegistry, LeavesOpened, limits_of, tables_of};
ghost use Rattle.reg_cli.specs.Openings.{FindsLeft, HoldsSame};
ghost use Rattle.reg_cli.specs.Exits.{status_of_opening, words_of_damage, words_of_opening};

use crate::files::is_orphaned;
use reg_body::Limits;
use reg_cli_line::Exit;
use reg_service::{Check, OpenFault, Registry};
use sqlite::{Alter, Connection, FileFrom, FileStore, Options, Start};
use sqlite_disk::Disk;
use std::alloc::Global;
use std::hash::{BuildHasher, RandomState};

pub(crate) fn damage_words(check: Check) -> &'static str
    ensures { result.now ≡ words_of_damage check }
{
    match check {
        Check::C1 => "damaged C1",
        Check::C2 => "damaged C2",
        Check::C3 => "damaged C3",
        Check::C4 => "damaged C4",
        Check::C5 => "damaged C5",
        Check::C6 => "damaged C6",
        Check::C7 => "damaged C7",
        Check::C8 => "damaged C8",
    }
}

/// The end of a run that could not open its registry.
pub(crate) fn exit_of_opening(fault: OpenFault) -> Exit
    ensures status { result.status ≡ status_of_opening fault }
    ensures words { result.message.now ≡ words_of_opening fault }
{
    match fault {
        OpenFault::BadBase => Exit {
            status: 1,
            message: "bad base",
        },
        OpenFault::UnknownSchema => Exit {
            status: 3,
            message: "unknown schema",
        },
        OpenFault::Damaged(check) => Exit {
            status: 3,
            message: damage_words(check),
        },
        OpenFault::Storage => Exit::STORAGE,
    }
}

/// A connection to the file, by its whole path. If its log has lost it, neither is touched. What is
/// found is what the two files held, which `F` stands for.
pub(crate) fn connect<F: Start>(
    rt: &HostRuntime,
    file: &str,
    start: F,
) -> Result<Connection<FileStore<FileFrom<F>>>, Exit>
    ensures new { IfOk result IsNew }
    ensures opened { IfOk result (λ c. HasCleanDisk (file_state c) → IsOpened c) }
    ensures found { IfOk result (λ c. HasCleanDisk (file_state c)
        → FindsIn (image_at F.Start) (file_state c)) }
{
    if is_orphaned(rt, file)? {
        return Err(Exit::STORAGE);
    }
    match Connection::open_from(rt, file, false, start) {
        Ok(conn) => Ok(conn),
        Err(_) => Err(Exit::STORAGE),
    }
}

/// The options of an opening: a new log is told from an old one by a number drawn at random.
fn drawn_options(rt: &HostRuntime) -> Result<Options, Exit> {
    match RandomState::new(rt) {
        Ok(random) => Ok(Options::new(random.hash_one(&0u8))),
        Err(_) => Err(Exit::STORAGE),
    }
}

/// The same files, opened again after their registry has stopped: what is found is what they hold
/// now. After a sync has failed nothing is known of them, and they are left as they are.
pub(crate) fn open_again<D: Disk + Drop>(
    rt: &HostRuntime,
    conn: Connection<FileStore<D>>,
) -> Result<Connection<FileStore<D>>, Exit>
    ensures new { IfOk result IsNew }
    ensures opened { IfOk result (λ c. HasCleanDisk (file_state c) → IsOpened c) }
    ensures found { IfOk result (λ c. FindsLeft (file_state conn) (file_state c)) }
{
    let files = conn.into_store().close();
    if !files.may_be_used() {
        return Err(Exit::STORAGE);
    }
    let options = drawn_options(rt)?;
    match Connection::open_files_with(rt.alloc(), files, options, false) {
        Ok(conn) => Ok(conn),
        Err(_) => Err(Exit::STORAGE),
    }
}

/// Opens a store's registry.
pub(crate) fn open<S: Alter + Drop>(
    alloc: Global,
    conn: Connection<S>,
    limits: Limits,
) -> Result<Registry<S>, Exit>
    requires { (state S.Store conn).in_transaction ≡ false }
    ensures limited { IfOk result (λ r. limits_of r ≡ limits) }
    ensures clean { IfOk result (λ r. HasCleanDisk (shown S.Store (tables_of r))
        → HasCleanDisk (state S.Store conn)) }
    ensures same { IfOk result (HoldsSame S.Store (state S.Store conn).now.trees) }
    ensures left { IfOk result (λ r. HasCleanDisk (shown S.Store (tables_of r))
        → LeavesOpened (state S.Store conn) (shown S.Store (tables_of r))) }
{
    match Registry::open(alloc, conn, limits) {
        Ok(registry) => Ok(registry),
        Err((_, fault)) => Err(exit_of_opening(fault)),
    }
}

/// Makes an empty registry.
pub(crate) fn create<S: Alter + Drop>(conn: Connection<S>, base: &str) -> Result<Registry<S>, Exit>
    requires { (state S.Store conn).in_transaction ≡ false }
    ensures limited { IfOk result (λ r. limits_of r ≡ Limits.STANDARD) }
    ensures clean { IfOk result (λ r. HasCleanDisk (shown S.Store (tables_of r))
        → HasCleanDisk (state S.Store conn)) }
    ensures made { IfOk result (λ r. IsNewRegistry S.Store base.now (limits_of r) r) }
{
    match Registry::create(conn, base, Limits::STANDARD) {
        Ok(registry) => Ok(registry),
        Err((_, fault)) => Err(exit_of_opening(fault)),
    }
}
