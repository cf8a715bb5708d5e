//! Ends of streams in memory: how much a read gives and a write takes, and which of them fails.

use std::io;
use std::io::{Read, Write};

/// How the ends of a stream behave.
#[derive(Clone, Copy)]
pub(crate) struct Ends {
    /// The most bytes of the first read.
    pub(crate) first: usize,
    /// The most bytes of each later read.
    pub(crate) piece: usize,
    /// The number of reads before one fails.
    pub(crate) reads: u64,
    /// The most bytes of a write.
    pub(crate) room: usize,
    /// The number of writes before one fails.
    pub(crate) writes: u64,
}

impl Ends {
    /// Ends that give and take all, and never fail.
    pub(crate) const WHOLE: Ends = Ends {
        first: usize::MAX,
        piece: usize::MAX,
        reads: u64::MAX,
        room: usize::MAX,
        writes: u64::MAX,
    };

    fn set(&mut self, name: &str, number: u32) {
        match name {
            "piece" => {
                self.first = number as usize;
                self.piece = number as usize;
            }
            "room" => self.room = number as usize,
            "reads" => self.reads = u64::from(number),
            "writes" => self.writes = u64::from(number),
            _ => self.reads = 0,
        }
    }

    /// Whole ends, but for what the words say, as `piece=1 writes=10`.
    pub(crate) fn read(words: &str) -> Ends {
        let mut ends = Ends::WHOLE;
        for word in words.split(' ') {
            if let Some((name, number)) = word.split_once('=') {
                ends.set(name, number.parse().unwrap_or(0));
            }
        }
        ends
    }
}

/// A reader over bytes.
#[derive(Drop)]
pub(crate) struct Source<'a> {
    bytes: &'a [u8],
    first: usize,
    piece: usize,
    left: u64,
}

impl<'a> Source<'a> {
    pub(crate) fn new(bytes: &'a [u8], ends: &Ends) -> Source<'a> {
        Source {
            bytes,
            first: ends.first,
            piece: ends.piece,
            left: ends.reads,
        }
    }
}

impl Read for Source<'_> {
    fn read(&mut self, buf: &mut [u8]) -> io::Result<usize> {
        if self.left == 0 {
            return Err(io::Error::other("broken"));
        }
        self.left -= 1;
        let len = buf.len().min(self.first);
        self.first = self.piece;
        (&mut self.bytes).read(&mut buf[..len])
    }
}

/// A writer that keeps what it takes.
#[derive(Drop)]
pub(crate) struct Sink {
    pub(crate) taken: Vec<u8>,
    room: usize,
    left: u64,
}

impl Sink {
    pub(crate) fn new(taken: Vec<u8>, ends: &Ends) -> Sink {
        Sink {
            taken,
            room: ends.room,
            left: ends.writes,
        }
    }
}

impl Write for Sink {
    fn write(&mut self, buf: &[u8]) -> io::Result<usize> {
        if self.left == 0 {
            return Err(io::Error::other("full"));
        }
        self.left -= 1;
        let len = buf.len().min(self.room);
        let (front, _) = buf.split_at(len);
        match self.taken.extend_from_slice(front) {
            Ok(()) => Ok(len),
            Err(_) => Ok(0),
        }
    }

    fn flush(&mut self) -> io::Result<()> {
        Ok(())
    }
}
