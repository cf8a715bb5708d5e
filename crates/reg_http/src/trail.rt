//! Where the lines of changes are written.

ghost use Rattle.std.specs.Prelude.{◌≡◌, ◌+◌, ◌^◌, ◌<◌, None, nat_lt, string_bytes};
ghost use Rattle.std.specs.Option.{option_map};
ghost use Rattle.reg_model.specs.Trail.{or_nothing};
ghost use Rattle.reg_http.specs.Trails.{TrailEnd, Trails, tail};

use reg_body::{Counted, write_bytes};
use std::io::Write;
use std::marker::Model;

/// Where the lines of changes are written, each before its reply, until a write fails or all its
/// write calls are made. After that nothing more is told.
#[derive(Drop)]
pub struct Trail<T> {
    writer: Counted<T>,
    left: u64,
}

impl<T> Model for Trail<T> {
    ghost Value = { TrailEnd T };

    ghost view = { λ t. record { end = t.writer; left = t.left } };

    ghost invariant = { λ t. t.writer.calls + t.left < 2 ^ 64 };
}

impl<T> Trail<T> {
    /// A trail that is written in at most `writes` write calls.
    pub fn new(writer: T, writes: u64) -> Trail<T>
        ensures { result
            ≡ record { end = record { inner = writer; calls = 0; failures = 0 }; left = writes } }
    {
        Trail {
            writer: Counted::new(writer),
            left: writes,
        }
    }

    /// Whether lines are still wanted.
    pub fn is_open(&self) -> bool
        ensures { result ≡ nat_lt 0 self.now.left }
    {
        0 < self.left
    }

    /// The writer, with its calls and failures.
    pub fn writer(&self) -> &Counted<T>
        ensures { result.now ≡ self.now.end }
    {
        &self.writer
    }

    /// The writer itself.
    pub fn into_inner(self) -> T
        ensures { result ≡ self.end.inner }
    {
        let Trail { writer, left: _ } = self;
        writer.into_inner()
    }
}

impl<T: Write> Trail<T> {
    /// Writes the line of a change, if there is one and lines are still wanted.
    pub fn tell(&mut self, line: Option<String>)
        ensures tells { Trails (tail (T.contents self.old.end.inner) self.old)
            (tail (T.contents self.new.end.inner) self.new)
            (or_nothing (option_map string_bytes line)) }
        ensures stays { line ≡ None → self.new ≡ self.old }
    {
        let Some(line) = line else {
            return;
        };
        if self.left == 0 {
            return;
        }
        match write_bytes(&mut self.writer, line.as_bytes(), self.left) {
            Ok(used) => self.left -= used,
            Err(_) => self.left = 0,
        }
    }
}
