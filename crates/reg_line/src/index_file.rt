//! Index files: a crate's lines, one after another.

ghost use Rattle.std.specs.Prelude.{◌≡◌, ◌+◌, ◌*◌, ◌^◌, ◌<◌, ◌≤◌, ◌↔◌, ◌++◌, IfOk, IfSome, IsNone, OnOk, length, map, nat_lt};
ghost use Rattle.reg_line.specs.File.{end_of, entry_view, file_text, line_of};
ghost use Rattle.reg_line.specs.Shortest.{shortest_line};

use reg_names::CrateName;
use std::alloc::{AllocError, Global};

/// What is stored of a line: its stem and its yanked mark.
#[derive(Drop)]
pub struct Entry {
    pub stem: Vec<u8>,
    pub yanked: bool,
}

/// What follows a stem in its line.
pub fn line_end(yanked: bool) -> &'static [u8]
    ensures { result.now ≡ end_of yanked }
{
    if yanked { b"true}\n" } else { b"false}\n" }
}

/// The length of a line in bytes, from the length of its stem. The line feed counts. `None` if 64
/// bits do not hold the length.
pub fn line_len(stem_len: u64, yanked: bool) -> Option<u64>
    ensures some { IfSome result (λ n. n ≡ stem_len + length (end_of yanked)) }
    ensures none { IsNone result ↔ (2 ^ 64 ≤ stem_len + length (end_of yanked)) }
{
    stem_len.checked_add(line_end(yanked).len() as u64)
}

/// The length of the shortest line of a crate with this name.
fn shortest_line(name: &CrateName) -> u64
    ensures { result ≡ shortest_line name.now }
{
    169 + name.as_str().len() as u64
}

/// Whether an index file of this length is too short for this number of lines of a crate with this
/// name.
pub fn lacks_room(file_len: u64, name: &CrateName, lines: u64) -> bool
    ensures { result ≡ nat_lt file_len (lines * shortest_line name.now) }
{
    file_len / shortest_line(name) < lines
}

fn push_line(text: &mut Vec<u8>, entry: &Entry) -> Result<(), AllocError>
    ensures { OnOk result (text.new.items ≡ text.old.items ++ line_of (entry_view entry.now)) }
{
    text.extend_from_slice(entry.stem.as_slice())?;
    text.extend_from_slice(line_end(entry.yanked))
}

/// The index file of these lines.
pub fn file(alloc: Global, entries: &[Entry]) -> Result<Vec<u8>, AllocError>
    ensures { IfOk result (λ v. v.items ≡ file_text (map entry_view entries.now)) }
{
    let mut text = Vec::new(alloc);
    for entry in entries {
        push_line(&mut text, entry)?;
    }
    Ok(text)
}
