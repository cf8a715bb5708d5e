//! Reads all that a reader has, and writes all bytes to a writer, in so many calls each.

ghost use Rattle.std.specs.Prelude.{◌≡◌, ◌+◌, ◌^◌, ◌<◌, ◌≤◌, IfOk, IfSome, IsErrOf, OnErr, OnOk, vec_len};
ghost use Rattle.std.specs.Io.KnownBytes.{Appends, IsAtEnd};
ghost use Rattle.reg_cli_line.specs.Ends.{AppendsFront, TellsFailure};

use reg_body::Counted;
use std::alloc::{AllocError, Global};
use std::io::{self, Read, Write};

/// How many bytes one read asks for.
const CHUNK: usize = 65_536;

/// Why not all was read or written.
#[derive(Clone, Copy, Debug, PartialEq, Eq)]
pub enum EndFault {
    /// The reader or the writer failed.
    Failed,
    /// The calls were used up.
    Spent,
    /// Out of memory.
    Memory,
}

impl From<io::Error> for EndFault {
    ghost use Rattle.std.specs.Prelude.{◌≡◌};
    ghost use Rattle.reg_cli_line.specs.declared.ends.EndFault.TheVariants.{Failed};

    ghost from_gives = { λ _ fault. fault ≡ Failed };

    fn from(_: io::Error) -> EndFault {
        EndFault::Failed
    }
}

impl From<AllocError> for EndFault {
    ghost use Rattle.std.specs.Prelude.{◌≡◌};
    ghost use Rattle.reg_cli_line.specs.declared.ends.EndFault.TheVariants.{Memory};

    ghost from_gives = { λ _ fault. fault ≡ Memory };

    fn from(_: AllocError) -> EndFault {
        EndFault::Memory
    }
}

/// A buffer of so many bytes.
fn buffer(alloc: Global, len: usize) -> Result<Vec<u8>, AllocError>
    ensures { IfOk result (λ bytes. vec_len bytes ≡ len) }
{
    vec![in alloc; 0; len]
}

/// Reads all that the reader has, in at most so many calls. The last call finds the end.
pub fn read_all<R: Read>(
    alloc: Global,
    reader: &mut Counted<R>,
    turns: u64,
) -> Result<Vec<u8>, EndFault>
    requires { reader.old.calls + turns < 2 ^ 64 }
    ensures all { IfOk result (λ bytes. IfSome (R.remaining reader.old.inner)
        (λ xs. bytes.items ≡ xs)) }
    ensures end { OnOk result (IsAtEnd (R.remaining reader.new.inner)) }
    ensures calls { (reader.old.calls ≤ reader.new.calls)
        × (reader.new.calls ≤ reader.old.calls + turns) }
    ensures failures { TellsFailure result reader.old reader.new }
    ensures spent { IsErrOf result EndFault.Spent → reader.new.calls ≡ reader.old.calls + turns }
{
    let mut chunk = buffer(alloc, CHUNK)?;
    let mut bytes = Vec::new(alloc);
    for _turn in 0..turns {
        let count = reader.read(chunk.as_mut_slice())?;
        if count == 0 {
            return Ok(bytes);
        }
        bytes.extend_from_slice(&chunk[..count])?;
    }
    Err(EndFault::Spent)
}

/// Writes the bytes, in at most so many calls. It takes no memory.
pub fn write_all<W: Write>(
    writer: &mut Counted<W>,
    bytes: &[u8],
    turns: u64,
) -> Result<(), EndFault>
    requires { writer.old.calls + turns < 2 ^ 64 }
    ensures all { OnOk result
        (Appends (W.contents writer.old.inner) (W.contents writer.new.inner) bytes.now) }
    ensures front { OnErr result
        (AppendsFront (W.contents writer.old.inner) (W.contents writer.new.inner) bytes.now) }
    ensures calls { (writer.old.calls ≤ writer.new.calls)
        × (writer.new.calls ≤ writer.old.calls + turns) }
    ensures failures { TellsFailure result writer.old writer.new }
    ensures spent { IsErrOf result EndFault.Spent → writer.new.calls ≡ writer.old.calls + turns }
    ensures no_memory { ¬ (IsErrOf result EndFault.Memory) }
{
    let mut rest = bytes;
    for _turn in 0..turns {
        if rest.is_empty() {
            return Ok(());
        }
        let count = writer.write(rest)?;
        (_, rest) = rest.split_at(count);
    }
    if rest.is_empty() {
        return Ok(());
    }
    Err(EndFault::Spent)
}
