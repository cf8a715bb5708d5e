//! A stream as a script writes it: what comes in, and what goes out.

use crate::ends::Ends;
use std::alloc::{AllocError, Global};

/// Where a reply ends, and the request before it.
#[derive(Clone, Copy)]
struct Mark {
    asked: usize,
    told: usize,
}

/// What comes in, and what has to go out.
#[derive(Drop)]
pub(crate) struct Stream {
    pub(crate) asked: Vec<u8>,
    pub(crate) told: Vec<u8>,
    pub(crate) ends: Ends,
    /// Whether it has lines that were not served yet.
    pub(crate) waits: bool,
    marks: Vec<Mark>,
}

/// Adds a piece of a text between signs of bytes; its own sign stands before `>`, as `0d0a>`.
fn add_piece(alloc: Global, bytes: &mut Vec<u8>, piece: &str) -> Result<(), AllocError> {
    let Some((digits, rest)) = piece.split_once('>') else {
        return bytes.extend_from_slice(piece.as_bytes());
    };
    if let Ok(signed) = hex::decode(alloc, digits) {
        bytes.extend_from_slice(&signed)?;
    }
    bytes.extend_from_slice(rest.as_bytes())
}

/// The bytes that a text writes, in which `<0d0a>` is the bytes with these digits.
fn bytes_of(alloc: Global, text: &str) -> Result<Vec<u8>, AllocError> {
    let mut bytes = Vec::new(alloc);
    for piece in text.split('<') {
        add_piece(alloc, &mut bytes, piece)?;
    }
    Ok(bytes)
}

/// How often a line stands there, and the line: `repeat 64 > x: y`.
fn repeated(line: &str) -> (u32, &str) {
    let Some(behind) = line.strip_prefix("repeat ") else {
        return (1, line);
    };
    match behind.split_once(' ') {
        Some((times, text)) => (times.parse().unwrap_or(0), text),
        None => (0, line),
    }
}

fn add_times(list: &mut Vec<u8>, times: u32, bytes: &[u8]) -> Result<(), AllocError> {
    for _ in 0..times {
        list.extend_from_slice(bytes)?;
    }
    Ok(())
}

impl Stream {
    pub(crate) fn new(alloc: Global, ends: Ends) -> Stream {
        Stream {
            asked: Vec::new(alloc),
            told: Vec::new(alloc),
            ends,
            waits: false,
            marks: Vec::new(alloc),
        }
    }

    /// Marks the end of what goes out.
    fn mark(&mut self) -> Result<(), AllocError> {
        let mark = Mark {
            asked: self.asked.len(),
            told: self.told.len(),
        };
        if let Some(last) = self.marks.last_mut() {
            if last.asked == mark.asked {
                *last = mark;
                return Ok(());
            }
        }
        self.marks.push(mark)?;
        Ok(())
    }

    fn add_asked(&mut self, times: u32, bytes: &[u8]) -> Result<(), AllocError> {
        add_times(&mut self.asked, times, bytes)
    }

    fn add_told(&mut self, times: u32, bytes: &[u8]) -> Result<(), AllocError> {
        add_times(&mut self.told, times, bytes)?;
        self.mark()
    }

    /// Takes a line of the stream, and answers whether it is one: `>` and `<` stand before what
    /// comes in and goes out, each line ended by CR LF, and `>:` and `<:` before bytes with no end.
    pub(crate) fn take(&mut self, alloc: Global, line: &str) -> Result<bool, AllocError> {
        let (times, text) = repeated(line);
        let (word, rest) = text.split_once(' ').unwrap_or((text, ""));
        let mut bytes = bytes_of(alloc, rest)?;
        if word == ">" || word == "<" {
            bytes.extend_from_slice(b"\r\n")?;
        }
        match word {
            ">" => self.add_asked(times, &bytes)?,
            ">:" => self.add_asked(times, &bytes)?,
            "<" => self.add_told(times, &bytes)?,
            "<:" => self.add_told(times, &bytes)?,
            "stream" => *self = Stream::new(alloc, Ends::read(rest)),
            _ => return Ok(false),
        }
        self.waits = true;
        Ok(true)
    }

    /// How many bytes go out where so many came in, and how many replies these are.
    pub(crate) fn told_after(&self, asked: usize) -> (usize, u64) {
        let mut told = 0;
        let mut replies = 0u64;
        for mark in &self.marks {
            if mark.asked <= asked {
                told = mark.told;
                replies = replies.saturating_add(1);
            }
        }
        (told, replies)
    }
}
