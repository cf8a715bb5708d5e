//! Changes and their trail, where a file stops at each of its calls: what is found again holds
//! each change that was told, and one more at most.

use crate::fault::Fault;
use crate::files::prepare;
use reg_body::Limits;
use reg_http::Trail;
use reg_policy::{AdminCommand, AdminReply};
use reg_service::{Registry, TracedOrder};
use sqlite::{Alter, Connection, Files};
use std::alloc::Global;
use test_files::{
    FEW_PAGES, Job, MANY_PAGES, Scarce, Stopping, files_of, have_stopped, revive, work_in,
};

/// More calls of a file than the changes make.
const MOST_CALLS: u32 = 5_000;

const TRAIL: &str = "- admin user-add ada\n- admin user-add bob\n- admin user-add carol\n";

/// Adds an account, and tells of it.
fn add_account<S: Alter>(
    alloc: Global,
    registry: &mut Registry<S>,
    login: &str,
    trail: &mut Trail<Vec<u8>>,
) {
    let command = AdminCommand::UserAdd(login, None);
    let TracedOrder { answer: _, line } = registry.command_traced(alloc, &command, true);
    trail.tell(line);
}

/// The trail of three accounts that are added.
fn trail_of<S: Alter>(alloc: Global, registry: &mut Registry<S>) -> Vec<u8> {
    let mut trail = Trail::new(Vec::new(alloc), u64::MAX);
    add_account(alloc, registry, "ada", &mut trail);
    add_account(alloc, registry, "bob", &mut trail);
    add_account(alloc, registry, "carol", &mut trail);
    trail.into_inner()
}

/// Accounts are added: the trail, if the registry was opened.
struct AddAccounts;

impl Job for AddAccounts {
    type Came = Option<Vec<u8>>;

    fn over<S: Alter + Drop>(
        &self,
        alloc: Global,
        conn: Connection<S>,
    ) -> (Connection<S>, Option<Vec<u8>>) {
        if !conn.is_autocommit() {
            return (conn, None);
        }
        match Registry::open(alloc, conn, Limits::STANDARD) {
            Ok(mut registry) => {
                let trail = trail_of(alloc, &mut registry);
                (registry.into_connection(), Some(trail))
            }
            Err((conn, _fault)) => (conn, None),
        }
    }
}

/// Its accounts are counted, if the registry is opened.
struct CountAccounts;

impl Job for CountAccounts {
    type Came = Option<usize>;

    fn over<S: Alter + Drop>(
        &self,
        alloc: Global,
        conn: Connection<S>,
    ) -> (Connection<S>, Option<usize>) {
        if !conn.is_autocommit() {
            return (conn, None);
        }
        match Registry::open(alloc, conn, Limits::STANDARD) {
            Ok(mut registry) => {
                let found = accounts_of(alloc, &mut registry);
                (registry.into_connection(), found)
            }
            Err((conn, _fault)) => (conn, None),
        }
    }
}

fn accounts_of<S: Alter>(alloc: Global, registry: &mut Registry<S>) -> Option<usize> {
    match registry.command(alloc, &AdminCommand::Users) {
        Ok(AdminReply::Text(text)) => Some(text.lines().count()),
        _ => None,
    }
}

/// How many accounts are found in the files after the stop.
fn accounts_in(alloc: Global, mut files: Files<Stopping>) -> Result<usize, Fault> {
    revive(&mut files);
    let (_files, found) = work_in(alloc, files, MANY_PAGES, &CountAccounts);
    match found {
        Some(Some(count)) => Ok(count),
        _ => Err(Fault::NotOpened),
    }
}

/// Whether the trail is a front of the whole, in lines, and at most one change was not told.
fn is_told(trail: &[u8], found: usize) -> bool {
    let lines = trail.iter().filter(|byte| **byte == b'\n').count();
    TRAIL.as_bytes().starts_with(trail)
        && (trail.is_empty() || trail.ends_with(b"\n"))
        && (found == lines || found == lines.saturating_add(1))
}

/// Stops a file at each of its calls, until it does not stop.
fn over_stops(alloc: Global, scarce: Scarce) -> Result<(), Fault> {
    let before = prepare(alloc, "create -> done\n")?;
    for calls in 0..MOST_CALLS {
        let files = files_of(alloc, &before.image, &scarce.with(calls))?;
        let (mut files, found) = work_in(alloc, files, FEW_PAGES, &AddAccounts);
        let Some(Some(trail)) = found else {
            continue;
        };
        let stopped = have_stopped(&mut files);
        let found = accounts_in(alloc, files)?;
        if !is_told(&trail, found) {
            return Err(Fault::Line(format!(in alloc; "{calls} calls: {found} accounts")?));
        }
        if !stopped {
            return Ok(());
        }
    }
    Err(Fault::Words)
}

#[test]
fn a_stop_of_the_log(rt: HostRuntime) -> Result<(), Fault> {
    over_stops(rt.alloc(), Scarce::Log)
}

#[test]
fn a_stop_of_the_database(rt: HostRuntime) -> Result<(), Fault> {
    over_stops(rt.alloc(), Scarce::Db)
}
