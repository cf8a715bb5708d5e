//! Laws of the definitions, each on a function that does nothing.

ghost use Rattle.std.specs.Prelude.{◌≡◌, ◌≤◌, length};
ghost use Rattle.reg_manifest.specs.Manifests.{manifest_view};
ghost use Rattle.reg_line.specs.File.{line_of};
ghost use Rattle.reg_line.specs.Line.{IsStem, line_text};
ghost use Rattle.reg_line.specs.Shortest.{shortest_line};
ghost use Rattle.reg_line.specs.StemCheck.{IsStemOf};

use crate::digests::Digest;
use reg_manifest::Manifest;
use reg_names::CrateName;

/// A line is its stem, the yanked mark, the end of the object, and a line feed.
pub fn a_line_is_its_stem_and_mark(manifest: &Manifest, digest: &Digest, stem: &[u8], yanked: bool)
    ensures { IsStem (manifest_view manifest.now) digest.now stem.now
        → line_text (manifest_view manifest.now) digest.now yanked ≡ line_of (stem.now, yanked) }
{}

/// No line is shorter than the shortest of its crate.
pub fn no_line_is_shorter(stem: &[u8], name: &CrateName, vers: &str, digest: &Digest, yanked: bool)
    ensures { IsStemOf stem.now name.now vers.now digest.now
        → shortest_line name.now ≤ length (line_of (stem.now, yanked)) }
{}
