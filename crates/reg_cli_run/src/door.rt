//! Where connections and messages come from.

ghost use Rattle.std.specs.Prelude.{◌≡◌, ◌+◌, ◌^◌, ◌<◌, ◌∷◌, [], codes, IfOk, MatchResult, Option, List, ℕ};
ghost use Rattle.reg_cli_run.specs.Exits.{EndsWith};
ghost use Rattle.reg_cli_run.specs.Visits.{Logs, Passing, arrival};
ghost use Rattle.reg_cli_run.specs.Visits.Passing.{Went};

use reg_cli_line::Exit;
use std::io::{Read, Write};

/// Who comes to a door.
#[derive(Clone, Copy, Debug, PartialEq, Eq)]
pub enum Caller {
    /// A client, with a stream of requests.
    Client,
    /// The administrator, with one message.
    Admin,
}

/// Where callers come from, one after another: each has an end to read from and one to write to.
pub trait Door {
    type Reader: Read + Drop;

    type Writer: Write + Drop;

    /// What has passed it, where that is known.
    ghost log: { Self → Option (List Passing) };

    /// How many callers were accepted, with those that had hung up before.
    ghost accepted: { Self → ℕ };

    /// Waits for a caller: none if it hung up before.
    fn accept(
        &mut self,
        rt: &HostRuntime,
    ) -> Result<Option<(Caller, Self::Reader, Self::Writer)>, Exit>
        requires { accepted self.old + 1 < 2 ^ 64 }
        ensures counts { MatchResult result (λ _. accepted self.new ≡ accepted self.old + 1)
            (λ exit. EndsWith 3 (codes "listen fault") exit
            × (accepted self.new ≡ accepted self.old) × (log self.new ≡ log self.old)) }
        ensures came { IfOk result (λ ends. Logs (log self.old) (log self.new)
            (arrival Self.Reader.remaining Self.Writer.contents ends)) };

    /// Waits until the caller with these ends goes, but not for ever.
    fn hold(&mut self, rt: &HostRuntime, reader: &Self::Reader)
        ensures counts { accepted self.new ≡ accepted self.old }
        ensures stays { log self.new ≡ log self.old };

    /// The caller goes, after so many reads and writes that failed.
    fn leave(
        &mut self,
        reader: Self::Reader,
        writer: Self::Writer,
        failed_reads: u64,
        failed_writes: u64,
    )
        ensures counts { accepted self.new ≡ accepted self.old }
        ensures went { Logs (log self.old) (log self.new)
            (Went (Self.Reader.remaining reader) (Self.Writer.contents writer)
            failed_reads failed_writes ∷ []) };
}
