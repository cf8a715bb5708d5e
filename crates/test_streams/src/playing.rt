//! A stream is served, and compared with what a script says.

use crate::ends::{Ends, Sink, Source};
use crate::stream::Stream;
use crate::trials::{Each, Trial, tried_at};
use reg_body::Counted;
use reg_http::{StreamFault, serve_stream};
use reg_service::Registry;
use sqlite::Alter;
use std::alloc::{AllocError, Global};

/// Serves a stream. What it wrote is added to `taken`.
pub(crate) fn serve<S: Alter>(
    alloc: Global,
    registry: &mut Registry<S>,
    asked: &[u8],
    ends: &Ends,
    taken: Vec<u8>,
) -> (Result<u64, StreamFault>, Vec<u8>) {
    let _turns = registry.limits().turns;
    let mut reader = Counted::new(Source::new(asked, ends));
    let mut writer = Counted::new(Sink::new(taken, ends));
    let answer = serve_stream(alloc, registry, &mut reader, &mut writer);
    (answer, writer.into_inner().taken)
}

/// What a stream was answered, as scripts write it.
fn answer_text(alloc: Global, answer: &Result<u64, StreamFault>) -> Result<String, AllocError> {
    match answer {
        Ok(replies) => format!(in alloc; "{replies}"),
        Err(fault) => format!(in alloc; "{fault:?}"),
    }
}

/// What was answered and written.
fn found_text(
    alloc: Global,
    answer: &Result<u64, StreamFault>,
    taken: &[u8],
) -> Result<String, AllocError> {
    let said = answer_text(alloc, answer)?;
    let text = std::str::from_utf8(taken).unwrap_or("no text");
    format!(in alloc; "answer {said}, written {text}")
}

/// What is wrong with the answer and the bytes of a whole stream.
pub(crate) fn stream_fault<S: Alter>(
    alloc: Global,
    registry: &mut Registry<S>,
    stream: &Stream,
    answer: &str,
) -> Result<Option<String>, AllocError> {
    let room = Vec::new(alloc);
    let (found, taken) = serve(alloc, registry, &stream.asked, &stream.ends, room);
    let said = answer_text(alloc, &found)?;
    if said.as_str() == answer && taken.as_slice() == stream.told.as_slice() {
        return Ok(None);
    }
    Ok(Some(found_text(alloc, &found, &taken)?))
}

/// What is wrong with one trial.
fn trial_fault<S: Alter>(
    alloc: Global,
    registry: &mut Registry<S>,
    stream: &Stream,
    trial: &Trial,
) -> Result<Option<String>, AllocError> {
    let (asked, _) = stream.asked.split_at(trial.asked.min(stream.asked.len()));
    let (told, _) = stream.told.split_at(trial.told.min(stream.told.len()));
    let (found, taken) = serve(alloc, registry, asked, &trial.ends, Vec::new(alloc));
    if found == trial.answer && taken.as_slice() == told {
        return Ok(None);
    }
    Ok(Some(found_text(alloc, &found, &taken)?))
}

/// What is wrong at the first place where a trial is answered otherwise than it is to be.
pub(crate) fn each_fault<S: Alter>(
    alloc: Global,
    registry: &mut Registry<S>,
    stream: &Stream,
    each: Each,
) -> Result<Option<String>, AllocError> {
    let places = stream.asked.len().max(stream.told.len()).saturating_add(2);
    for place in 0..places {
        let tried = tried_at(stream, each, place);
        if let Some(fault) = trial_fault(alloc, registry, stream, &tried)? {
            return Ok(Some(format!(in alloc; "at {place}: {fault}")?));
        }
    }
    Ok(None)
}
