//! Lines of scripts over a connection: the first makes or opens a registry, which the others ask.

ghost use Rattle.std.specs.Prelude.{IfOk};

use crate::limits::limits_of;
use crate::setups::BASE;
use crate::tasks::answered;
use reg_service::{OpenFault, Registry};
use sqlite::{Alter, Connection};
use std::alloc::{AllocError, Global};
use test_files::leave_only;

/// The lines that were played, each with its answer; and the answer of that with a mark, if it was
/// played.
#[derive(Drop)]
pub struct Played {
    pub lines: String,
    pub marked: Option<String>,
}

impl Played {
    pub fn new(alloc: Global) -> Played {
        Played {
            lines: String::new(alloc),
            marked: None,
        }
    }

    /// Adds a line and its answer; of one with a mark the answer alone.
    fn push(
        &mut self,
        alloc: Global,
        line: &str,
        is_marked: bool,
        answer: String,
    ) -> Result<(), AllocError> {
        if is_marked {
            self.marked = Some(answer);
            return Ok(());
        }
        self.lines
            .push_str(&format!(in alloc; "{line} -> {answer}\n")?)
    }
}

/// The call of a line, whether it has a mark, and the amount of memory that it is answered with.
/// Its own answer is left out.
fn call_of(line: &str, amount: Option<u32>) -> (&str, bool, Option<u32>) {
    let (call, _answer) = line.split_once(" -> ").unwrap_or((line, ""));
    match call.strip_prefix("! ") {
        Some(marked) => (marked, true, amount),
        None => (call, false, None),
    }
}

fn play_line<S: Alter>(
    alloc: Global,
    registry: &mut Registry<S>,
    line: &str,
    amount: Option<u32>,
    played: &mut Played,
) -> Result<(), AllocError> {
    let (call, is_marked, amount) = call_of(line, amount);
    let answer = answered(alloc, registry, call, amount)?;
    played.push(alloc, call, is_marked, answer)
}

fn play_lines<S: Alter>(
    alloc: Global,
    registry: &mut Registry<S>,
    lines: &str,
    amount: Option<u32>,
    played: &mut Played,
) -> Result<(), AllocError> {
    for line in lines.lines() {
        play_line(alloc, registry, line, amount, played)?;
    }
    Ok(())
}

/// A registry that a line makes or opens: `create`, `create BASE`, `open`, `open versions=1`; or
/// the connection.
fn begun<S: Alter>(
    alloc: Global,
    conn: Connection<S>,
    call: &str,
    amount: Option<u32>,
) -> Result<Registry<S>, (Connection<S>, OpenFault)> {
    if !conn.is_autocommit() {
        return Err((conn, OpenFault::Storage));
    }
    let limits = limits_of(call);
    let Ok(memory) = leave_only(alloc, amount) else {
        return Err((conn, OpenFault::Storage));
    };
    let registry = if call.starts_with("create") {
        let base = call.strip_prefix("create ").unwrap_or(BASE);
        Registry::create(conn, base, limits)
    } else {
        Registry::open(alloc, conn, limits)
    };
    drop(memory);
    registry
}

/// The connection, and what was played over it.
type Ending<S> = (Connection<S>, Result<Played, AllocError>);

/// Plays the lines behind the first over the registry that this made or opened.
fn play_rest<S: Alter>(
    alloc: Global,
    registry: &mut Registry<S>,
    first: (&str, bool),
    lines: &str,
    amount: Option<u32>,
) -> Result<Played, AllocError> {
    let mut played = Played::new(alloc);
    let done = String::from_str(alloc, "done")?;
    played.push(alloc, first.0, first.1, done)?;
    play_lines(alloc, registry, lines, amount, &mut played)?;
    Ok(played)
}

/// Where the first line was refused no other is played.
fn play_refused(
    alloc: Global,
    first: (&str, bool),
    fault: OpenFault,
) -> Result<Played, AllocError> {
    let mut played = Played::new(alloc);
    let answer = format!(in alloc; "{fault:?}")?;
    played.push(alloc, first.0, first.1, answer)?;
    Ok(played)
}

/// Plays lines over a connection, that with a mark, `! `, with this amount of memory, if there is
/// one. A line may have an answer, which is left out.
pub fn play<S: Alter + Drop>(
    alloc: Global,
    conn: Connection<S>,
    lines: &str,
    amount: Option<u32>,
) -> Ending<S> {
    let (line, rest) = lines.split_once('\n').unwrap_or((lines, ""));
    let (call, is_marked, with) = call_of(line, amount);
    let first = (call, is_marked);
    match begun(alloc, conn, call, with) {
        Ok(mut registry) => {
            let played = play_rest(alloc, &mut registry, first, rest, amount);
            (registry.into_connection(), played)
        }
        Err((conn, fault)) => (conn, play_refused(alloc, first, fault)),
    }
}
