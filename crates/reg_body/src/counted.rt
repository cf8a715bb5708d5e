//! A reader or a writer that counts its calls.

mod reading;
mod writing;

ghost use Rattle.std.specs.Prelude.{◌≡◌, ◌≤◌};
ghost use Rattle.reg_body.specs.Counting.{CountedEnd};

use std::marker::Model;

/// A reader or a writer, how often it was called, and how often it failed.
#[derive(Drop)]
pub struct Counted<T> {
    inner: T,
    calls: u64,
    failures: u64,
}

impl<T> Model for Counted<T> {
    ghost Value = { CountedEnd T };

    ghost view = { λ c. record { inner = c.inner; calls = c.calls; failures = c.failures } };

    ghost invariant = { λ c. c.failures ≤ c.calls };
}

impl<T> Counted<T> {
    /// An end that was not yet called.
    pub fn new(inner: T) -> Counted<T>
        ensures { result ≡ record { inner = inner; calls = 0; failures = 0 } }
    {
        Counted {
            inner,
            calls: 0,
            failures: 0,
        }
    }

    /// The end itself, without its counters.
    pub fn into_inner(self) -> T
        ensures { result ≡ self.inner }
    {
        let Counted {
            inner,
            calls: _,
            failures: _,
        } = self;
        inner
    }

    /// The end itself.
    pub fn inner(&self) -> &T
        ensures { result.now ≡ self.now.inner }
    {
        &self.inner
    }

    /// How often the end was called.
    pub fn calls(&self) -> u64
        ensures { result ≡ self.now.calls }
    {
        self.calls
    }

    /// How often a call of the end failed.
    pub fn failures(&self) -> u64
        ensures { result ≡ self.now.failures }
    {
        self.failures
    }
}
