//! `line`: a publish body becomes an index path and an index line.

ghost use Rattle.std.specs.Prelude.{◌≡◌, ◌+◌, ◌<◌, ◌≤◌, ◌^◌, ◌⊎◌, IfErr, IfOk, IfSome, List, ℕ, []};
ghost use Rattle.std.specs.Io.KnownBytes.{Appends, IsAtEnd};
ghost use Rattle.reg_manifest.specs.Manifests.{manifest_view};
ghost use Rattle.reg_cli_line.specs.Answers.{Breaks, IsAnswer, IsStop, printed, stop_words};
ghost use Rattle.reg_cli_line.specs.Ends.{AppendsFront, NoneFailed};
ghost use Rattle.reg_cli_line.specs.Faults.{memory, words_of};
ghost use Rattle.reg_cli_line.specs.Runs.{IsRun, an_end};
ghost use Rattle.reg_cli_line.specs.declared.fault.LineFault.{LineFault};

use crate::ends::{EndFault, read_all, write_all};
use crate::exit::Exit;
use crate::fault::LineFault;
use reg_body::{Counted, Limits, split};
use reg_line::{digest_of, line};
use reg_manifest::{Manifest, ManifestFault, read_manifest};
use reg_names::{LONGEST_PATH, index_path};
use std::alloc::Global;
use std::io::{Read, Write};

/// The index path and the line of a version that is not yanked, each with a line feed.
fn lines(alloc: Global, manifest: &Manifest, archive: &[u8]) -> Result<Vec<u8>, LineFault>
    ensures printed { IfOk result (λ text. text.items
        ≡ printed (manifest_view manifest.now) archive.now) }
    ensures memory { IfErr result (λ fault. fault ≡ memory) }
{
    let path = index_path(&manifest.name);
    let line = line(alloc, manifest, &digest_of(archive), false)?;
    let mut text = Vec::with_capacity(alloc, LONGEST_PATH + 1 + line.len())?;
    text.extend_from_slice(path.as_str().as_bytes())?;
    text.push(b'\n')?;
    text.extend_from_slice(&line)?;
    Ok(text)
}

/// What is printed for a publish body.
fn answer(alloc: Global, input: &[u8], limits: &Limits) -> Result<Vec<u8>, LineFault>
    ensures answer { IfOk result (λ text. IsAnswer limits.now input.now text.items) }
    ensures broken { IfErr result (λ fault. Breaks limits.now input.now fault) }
{
    let (json, archive) = split(input, limits)?;
    let manifest = read_manifest(alloc, json)?;
    lines(alloc, &manifest, archive)
}

/// The exit of a run whose reader or writer did not finish; `words` is used if it failed.
fn exit_of_stop(fault: EndFault, words: &'static str) -> Exit
    ensures status { result.status ≡ 3 }
    ensures words { result.message.now ≡ stop_words fault words.entry.now }
{
    let words = match fault {
        EndFault::Failed => words,
        EndFault::Spent => "too many turns",
        EndFault::Memory => "memory",
    };
    Exit {
        status: 3,
        message: words,
    }
}

/// The exit of a run whose input has no line.
fn exit_of_fault(fault: LineFault) -> Exit
    ensures words { result.message.now ≡ words_of fault }
    ensures status { (result.status ≡ 1) ⊎ ((result.status ≡ 3) × (fault ≡ memory)) }
    ensures rule { result.status ≡ 1 → ¬ (fault ≡ memory) }
{
    let status = match fault {
        LineFault::Manifest(ManifestFault::Memory) => 3,
        _ => 1,
    };
    Exit {
        status,
        message: fault.words(),
    }
}

/// Reads a publish body to its end and prints its index path and its line. It makes at most `turns`
/// read and write calls in all.
pub fn run_line_within<R: Read, W: Write>(
    alloc: Global,
    reader: &mut Counted<R>,
    writer: &mut Counted<W>,
    limits: &Limits,
) -> Exit
    requires reads { reader.old.calls + limits.now.turns < 2 ^ 64 }
    requires writes { writer.old.calls + limits.now.turns < 2 ^ 64 }

    // Done: the whole answer was printed.
    ensures done { result.status ≡ 0 → (result.message.now ≡ [])
        × IfSome (R.remaining reader.old.inner) (λ input. (text : List ℕ)
        × IsAnswer limits.now input text
        × Appends (W.contents writer.old.inner) (W.contents writer.new.inner) text) }

    // Refused: nothing was printed, and the words are those of the first broken rule.
    ensures refused { result.status ≡ 1 → (writer.new ≡ writer.old)
        × IfSome (R.remaining reader.old.inner) (λ input. (fault : LineFault)
        × Breaks limits.now input fault × ¬ (fault ≡ memory)
        × (result.message.now ≡ words_of fault)) }

    // Done or refused: the input was read to its end, and no call of an end failed.
    ensures whole { ¬ (result.status ≡ 3) → IsAtEnd (R.remaining reader.new.inner)
        × NoneFailed reader.old reader.new × NoneFailed writer.old writer.new }

    // Stopped: nothing was printed, or, once the whole input was read, a prefix of the answer.
    ensures stopped { result.status ≡ 3 → (writer.new ≡ writer.old)
        ⊎ (IsAtEnd (R.remaining reader.new.inner)
        × IfSome (R.remaining reader.old.inner) (λ input. (text : List ℕ)
        × IsAnswer limits.now input text
        × AppendsFront (W.contents writer.old.inner) (W.contents writer.new.inner) text)) }

    // Stopped: the words say why, and nothing else went wrong.
    ensures cause { result.status ≡ 3
        → IsStop result.message.now limits.now.turns reader.old reader.new writer.old writer.new }

    ensures status { (result.status ≡ 0) ⊎ ((result.status ≡ 1) ⊎ (result.status ≡ 3)) }
    ensures turns { reader.new.calls + writer.new.calls
        ≤ reader.old.calls + writer.old.calls + limits.now.turns }
{
    let before = reader.calls();
    let input = match read_all(alloc, reader, limits.turns) {
        Ok(input) => input,
        Err(fault) => return exit_of_stop(fault, "read fault"),
    };
    let text = match answer(alloc, &input, limits) {
        Ok(text) => text,
        Err(fault) => return exit_of_fault(fault),
    };
    let left = limits.turns - (reader.calls() - before);
    match write_all(writer, &text, left) {
        Ok(()) => Exit {
            status: 0,
            message: "",
        },
        Err(fault) => exit_of_stop(fault, "write fault"),
    }
}

/// `run_line` is `run_line_within` with the standard limits.
pub fn run_line<R: Read, W: Write>(
    alloc: Global,
    reader: &mut Counted<R>,
    writer: &mut Counted<W>,
) -> Exit
    requires reads { reader.old.calls + Limits.STANDARD.turns < 2 ^ 64 }
    requires writes { writer.old.calls + Limits.STANDARD.turns < 2 ^ 64 }
    ensures { IsRun Limits.STANDARD result.status result.message.now
        (an_end reader.old reader.new (R.remaining reader.old.inner) (R.remaining reader.new.inner))
        (an_end writer.old writer.new (W.contents writer.old.inner) (W.contents writer.new.inner)) }
{
    run_line_within(alloc, reader, writer, &Limits::STANDARD)
}
