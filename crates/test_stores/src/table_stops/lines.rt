//! Lines that are tried in turn, each a task and its answer.

use crate::table_stops::fault::Fault;
use crate::table_stops::files::{Prepared, prepare_files, prepare_nothing, prepare_old_files};
use crate::table_stops::tasks::{Task, read_task};
use crate::table_stops::trials::{Trial, each_amount, rows_once_done};
use std::alloc::Global;
use test_files::{Scarce, Seen};

/// What is scarce while a line is tried, and what shall come of it.
#[derive(Clone, Copy)]
pub(crate) enum How {
    /// Each file stops at each of its calls: stops of each leave the rows before, and some stop
    /// those after.
    StoppedChange,
    /// The same of a selection: no stop changes the rows.
    StoppedSelection,
    /// Amounts of memory by this step, for a call or a commit that changes the rows: so many at
    /// least leave those before, and none of too little those after.
    ScarceChange(Scarce, u32, u32),
    /// The same of a selection: so many at least are too little, and none changes the rows.
    ScarceSelection(u32, u32),
}

/// What is seen of what runs out first, and of what runs out then.
type Sweeps = (Seen, Seen);

fn sweeps(alloc: Global, trial: Trial<'_>, how: How) -> Result<Sweeps, Fault> {
    let (first, then, step) = match how {
        How::StoppedChange | How::StoppedSelection => (Scarce::Log, Some(Scarce::Db), 1),
        How::ScarceChange(scarce, step, _) => (scarce, None, step),
        How::ScarceSelection(step, _) => (Scarce::Call, None, step),
    };
    let seen = each_amount(alloc, trial, first, step)?;
    match then {
        Some(scarce) => Ok((seen, each_amount(alloc, trial, scarce, step)?)),
        None => Ok((seen, seen)),
    }
}

fn is_wanted(how: How, (first, then): Sweeps) -> bool {
    match how {
        How::StoppedChange => {
            first.before > 0 && then.before > 0 && (first.after > 0 || then.after > 0)
        }
        How::StoppedSelection => {
            first.after > 0 && then.after > 0 && first.before == 0 && then.before == 0
        }
        How::ScarceChange(_, _, least) => first.before >= least && first.after == 0,
        How::ScarceSelection(_, least) => first.after >= least && first.before == 0,
    }
}

fn try_task(
    alloc: Global,
    prepared: &Prepared,
    task: &Task<'_>,
    answer: &str,
    how: How,
) -> Result<Sweeps, Fault> {
    let after = rows_once_done(alloc, prepared, task, answer)?;
    let trial = Trial {
        task,
        answer,
        prepared,
        after: &after,
    };
    sweeps(alloc, trial, how)
}

fn try_line(alloc: Global, prepared: &Prepared, line: &str, how: How) -> Result<Sweeps, Fault> {
    let Some((text, answer)) = line.split_once(" -> ") else {
        return Err(Fault::Words);
    };
    let task = read_task(alloc, text)?;
    try_task(alloc, prepared, &task, answer, how)
}

fn otherwise(alloc: Global, line: &str, (first, then): Sweeps) -> Fault {
    match format!(in alloc; "{line}: {first:?} {then:?}") {
        Ok(text) => Fault::Line(text),
        Err(_) => Fault::Memory,
    }
}

fn each_line(alloc: Global, prepared: &Prepared, lines: &str, how: How) -> Result<(), Fault> {
    for line in lines.lines() {
        let seen = try_line(alloc, prepared, line, how)?;
        if !is_wanted(how, seen) {
            return Err(otherwise(alloc, line, seen));
        }
    }
    Ok(())
}

/// Tries each line over files with nothing in them.
pub(crate) fn over_nothing(alloc: Global, lines: &str, how: How) -> Result<(), Fault> {
    each_line(alloc, &prepare_nothing(alloc), lines, how)
}

/// Tries each line over the prepared registry, once a script was played over that.
pub(crate) fn over_files(alloc: Global, script: &str, lines: &str, how: How) -> Result<(), Fault> {
    let prepared = prepare_files(alloc, script)?;
    each_line(alloc, &prepared, lines, how)
}

/// Tries each line over a store of schema 1.
pub(crate) fn over_old_files(alloc: Global, lines: &str, how: How) -> Result<(), Fault> {
    let prepared = prepare_old_files(alloc)?;
    each_line(alloc, &prepared, lines, how)
}
