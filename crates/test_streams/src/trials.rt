//! Trials of a stream: cut, ended or failing at one place after another.

use crate::ends::Ends;
use crate::stream::Stream;
use reg_http::StreamFault;

/// What is tried at each place of a stream.
#[derive(Clone, Copy)]
pub(crate) enum Each {
    /// The input comes in two reads.
    Cut,
    /// The input ends.
    End,
    /// A read of single bytes fails.
    FailingRead,
    /// A write of single bytes fails.
    FailingWrite,
}

impl Each {
    /// What a line asks to try.
    pub(crate) fn read(line: &str) -> Option<Each> {
        Some(match line {
            "each cut" => Each::Cut,
            "each end" => Each::End,
            "each failing read" => Each::FailingRead,
            "each failing write" => Each::FailingWrite,
            _ => return None,
        })
    }
}

/// How much comes in and goes out, through which ends, and what is answered.
#[derive(Clone, Copy)]
pub(crate) struct Trial {
    pub(crate) ends: Ends,
    pub(crate) asked: usize,
    pub(crate) told: usize,
    pub(crate) answer: Result<u64, StreamFault>,
}

/// The stream as it is written, with its own ends.
pub(crate) fn whole(stream: &Stream) -> Trial {
    let (told, replies) = stream.told_after(stream.asked.len());
    Trial {
        ends: stream.ends,
        asked: stream.asked.len(),
        told,
        answer: Ok(replies),
    }
}

fn ended(stream: &Stream, place: usize) -> Trial {
    let (told, replies) = stream.told_after(place);
    Trial {
        asked: stream.asked.len().min(place),
        told,
        answer: Ok(replies),
        ..whole(stream)
    }
}

fn failing_read(stream: &Stream, place: usize) -> Trial {
    let (told, replies) = stream.told_after(place);
    let fails = place <= stream.asked.len();
    Trial {
        ends: Ends {
            first: 1,
            piece: 1,
            reads: place as u64,
            ..Ends::WHOLE
        },
        told,
        answer: if fails {
            Err(StreamFault::ReadFault)
        } else {
            Ok(replies)
        },
        ..whole(stream)
    }
}

fn failing_write(stream: &Stream, place: usize) -> Trial {
    let all = whole(stream);
    let fails = place < all.told;
    Trial {
        ends: Ends {
            room: 1,
            writes: place as u64,
            ..Ends::WHOLE
        },
        told: all.told.min(place),
        answer: if fails {
            Err(StreamFault::WriteFault)
        } else {
            all.answer
        },
        ..all
    }
}

/// What is tried at a place.
pub(crate) fn tried_at(stream: &Stream, each: Each, place: usize) -> Trial {
    match each {
        Each::Cut => Trial {
            ends: Ends {
                first: place.max(1),
                ..Ends::WHOLE
            },
            ..whole(stream)
        },
        Each::End => ended(stream, place),
        Each::FailingRead => failing_read(stream, place),
        Each::FailingWrite => failing_write(stream, place),
    }
}
