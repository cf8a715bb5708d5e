//! Calls on index lines, index files, stems, digests and the config.

use crate::layers::bytes::counted;
use crate::layers::convert_calls::of_conversions;
use crate::layers::name_calls::{shown, yes};
use reg_line::{Digest, Entry, check_stem, config, digest_of, file, is_base, line, line_len, stem};
use reg_manifest::{Manifest, ManifestFault, read_manifest};
use std::alloc::{AllocError, Global};

/// A manifest and a digest: the text has the archive, a `|` and metadata.
#[derive(Drop)]
struct NewLine {
    manifest: Manifest,
    digest: Digest,
}

fn published(alloc: Global, text: &str) -> Result<NewLine, ManifestFault> {
    let (archive, json) = text.split_once('|').unwrap_or(("", text));
    let manifest = read_manifest(alloc, json.as_bytes())?;
    let digest = digest_of(archive.as_bytes());
    Ok(NewLine { manifest, digest })
}

fn digest(alloc: Global, text: &str) -> Result<String, AllocError> {
    hex::encode(alloc, digest_of(text.as_bytes()).as_slice())
}

fn line_of(alloc: Global, text: &str, yanked: bool) -> Result<String, AllocError> {
    match published(alloc, text) {
        Ok(new) => counted(alloc, &line(alloc, &new.manifest, &new.digest, yanked)?),
        Err(fault) => shown(alloc, &fault),
    }
}

fn stem_of(alloc: Global, text: &str) -> Result<String, AllocError> {
    match published(alloc, text) {
        Ok(new) => counted(alloc, &stem(alloc, &new.manifest, &new.digest)?),
        Err(fault) => shown(alloc, &fault),
    }
}

/// An entry of metadata with an empty archive, yanked where the text begins with `yanked:`.
fn entry(alloc: Global, text: &str) -> Result<Entry, ManifestFault> {
    let (json, yanked) = match text.strip_prefix("yanked:") {
        Some(json) => (json, true),
        None => (text, false),
    };
    let new = published(alloc, json)?;
    let stem = stem(alloc, &new.manifest, &new.digest)?;
    Ok(Entry { stem, yanked })
}

fn entries(alloc: Global, texts: &str) -> Result<Vec<Entry>, ManifestFault> {
    let mut entries = Vec::new(alloc);
    for text in texts.split_whitespace() {
        entries.push(entry(alloc, text)?)?;
    }
    Ok(entries)
}

fn file_of(alloc: Global, texts: &str) -> Result<String, AllocError> {
    match entries(alloc, texts) {
        Ok(entries) => counted(alloc, &file(alloc, &entries)?),
        Err(fault) => shown(alloc, &fault),
    }
}

fn config_of(alloc: Global, base: &str) -> Result<String, AllocError> {
    counted(alloc, &config(alloc, base)?)
}

/// What a call is answered that is none on names and on a publish's parts.
pub(crate) fn of_lines(alloc: Global, word: &str, text: &str) -> Result<String, AllocError> {
    match word {
        "digest" => digest(alloc, text),
        "line" => line_of(alloc, text, false),
        "yanked-line" => line_of(alloc, text, true),
        "stem" => stem_of(alloc, text),
        "file" => file_of(alloc, text),
        "config" => config_of(alloc, text),
        _ => of_stems(alloc, word, text),
    }
}

/// The length of a line by that of its stem.
fn length(alloc: Global, text: &str, yanked: bool) -> Result<String, AllocError> {
    match text.parse() {
        Ok(stem) => shown(alloc, &line_len(stem, yanked)),
        Err(_) => String::from_str(alloc, "no number"),
    }
}

/// Whether a stem is one of a crate and a version with an archive: these stand before it.
fn checked(alloc: Global, text: &str) -> Result<String, AllocError> {
    let (name, rest) = text.split_once(' ').unwrap_or((text, ""));
    let (version, rest) = rest.split_once(' ').unwrap_or((rest, ""));
    let (archive, stem) = rest.split_once('|').unwrap_or((rest, ""));
    let digest = digest_of(archive.as_bytes());
    yes(
        alloc,
        check_stem(alloc, stem.as_bytes(), name, version, &digest)?,
    )
}

/// What a call is answered that is none on lines either.
fn of_stems(alloc: Global, word: &str, text: &str) -> Result<String, AllocError> {
    match word {
        "line-length" => length(alloc, text, false),
        "yanked-line-length" => length(alloc, text, true),
        "is-base" => yes(alloc, is_base(text)),
        "check-stem" => checked(alloc, text),
        _ => of_conversions(alloc, word, text),
    }
}
