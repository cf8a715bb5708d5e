//! A task with more and more of what is scarce: it is done, or the rows are those before or those
//! after, and those after if it was acknowledged.

use crate::table_stops::fault::Fault;
use crate::table_stops::files::Prepared;
use crate::table_stops::tasks::{Outcome, Task, outcome_of};
use std::alloc::Global;
use test_files::{Came, Limits, NO_LIMITS, Scarce, Seen};

/// More runs than any task needs.
const MOST_RUNS: u32 = 1000;

/// A task over these files, its answer, and the rows after it.
#[derive(Clone, Copy)]
pub(crate) struct Trial<'a> {
    pub(crate) task: &'a Task<'a>,
    pub(crate) answer: &'a str,
    pub(crate) prepared: &'a Prepared,
    pub(crate) after: &'a Option<String>,
}

/// The rows after a task with no limits, where it has this answer.
pub(crate) fn rows_once_done(
    alloc: Global,
    prepared: &Prepared,
    task: &Task<'_>,
    answer: &str,
) -> Result<Option<String>, Fault> {
    let Outcome { reply, rows, .. } = outcome_of(alloc, &prepared.image, task, &NO_LIMITS)?;
    if reply.acknowledged && reply.text.as_str() == answer {
        return Ok(rows);
    }
    Err(Fault::Line(reply.text))
}

/// What came of a run that was not done.
fn undone(trial: Trial<'_>, found: &Outcome) -> Came {
    if found.rows == *trial.after {
        Came::After
    } else if found.reply.acknowledged {
        Came::Broken("acknowledged, and lost")
    } else if found.rows == trial.prepared.rows {
        Came::Before
    } else {
        Came::Broken("other rows")
    }
}

fn came_of(trial: Trial<'_>, found: &Outcome) -> Came {
    let answer = found.reply.text.as_str();
    let acknowledged = found.reply.acknowledged;
    if answer == "fault" && acknowledged {
        return Came::Broken("a fault that was committed");
    }
    if answer != "fault" && answer != trial.answer {
        return Came::Broken("another answer");
    }
    if acknowledged && !found.stopped && found.rows == *trial.after {
        return Came::Done;
    }
    undone(trial, found)
}

fn run(alloc: Global, trial: Trial<'_>, limits: &Limits) -> Result<Came, Fault> {
    let found = outcome_of(alloc, &trial.prepared.image, trial.task, limits)?;
    Ok(came_of(trial, &found))
}

/// Does the task with none, one step, two steps, .. of what is scarce, until it is done.
pub(crate) fn each_amount(
    alloc: Global,
    trial: Trial<'_>,
    scarce: Scarce,
    step: u32,
) -> Result<Seen, Fault> {
    let mut seen = Seen::NOTHING;
    for at in 0..MOST_RUNS {
        let came = run(alloc, trial, &scarce.with(at.saturating_mul(step)))?;
        if !seen.counts(came) {
            return Ok(seen);
        }
    }
    Ok(Seen::broken("never done"))
}
