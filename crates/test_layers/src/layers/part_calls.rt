//! Calls on versions, bodies and metadata.

use crate::layers::bytes::{bytes_of, counted};
use crate::layers::line_calls::of_lines;
use crate::layers::manifest_text::manifest_text;
use crate::layers::name_calls::{shown, yes};
use reg_body::{JoinFault, Limits, join, split};
use reg_manifest::read_manifest;
use reg_versions::{Release, VersionFault, highest, release_key, same_release};
use std::alloc::{AllocError, Global};

fn release(alloc: Global, text: &str) -> Result<String, AllocError> {
    match Release::parse(alloc, text) {
        Ok(_) => String::from_str(alloc, "a release"),
        Err(fault) => shown(alloc, &fault),
    }
}

fn same(alloc: Global, text: &str) -> Result<String, AllocError> {
    let (one, other) = text.split_once(' ').unwrap_or((text, ""));
    yes(alloc, same_release(one, other))
}

/// Releases, each yanked where its text begins with `yanked:`.
fn releases(alloc: Global, texts: &str) -> Result<Vec<(Release, bool)>, VersionFault> {
    let mut releases = Vec::new(alloc);
    for text in texts.split_whitespace() {
        let (version, yanked) = match text.strip_prefix("yanked:") {
            Some(version) => (version, true),
            None => (text, false),
        };
        let release = Release::parse(alloc, version)?;
        if releases.push((release, yanked)).is_err() {
            return Err(VersionFault::Memory);
        }
    }
    Ok(releases)
}

/// The place of the highest, from 0 on.
fn place(alloc: Global, texts: &str) -> Result<String, AllocError> {
    match releases(alloc, texts) {
        Ok(releases) => shown(alloc, &highest(&releases)),
        Err(fault) => shown(alloc, &fault),
    }
}

/// What a call is answered that is none on names and patterns.
pub(crate) fn of_versions(alloc: Global, word: &str, text: &str) -> Result<String, AllocError> {
    match word {
        "parse-version" => release(alloc, text),
        "release-key" => String::from_str(alloc, release_key(text)),
        "same-release" => same(alloc, text),
        "highest" => place(alloc, text),
        _ => of_bodies(alloc, word, text),
    }
}

/// A body of the metadata and the archive that a `|` separates.
fn joined(alloc: Global, text: &str) -> Result<String, AllocError> {
    let (json, archive) = text.split_once('|').unwrap_or((text, ""));
    match join(alloc, json.as_bytes(), archive.as_bytes()) {
        Ok(body) => counted(alloc, &body),
        Err(JoinFault::Memory) => Err(AllocError),
        Err(JoinFault::TooLong) => String::from_str(alloc, "TooLong"),
    }
}

/// The parts of a body, with a `|` between them.
fn parts(alloc: Global, bytes: &[u8], limits: &Limits) -> Result<String, AllocError> {
    match split(bytes, limits) {
        Ok((json, archive)) => {
            let json = counted(alloc, json)?;
            let archive = counted(alloc, archive)?;
            format!(in alloc; "{json}|{archive}")
        }
        Err(fault) => shown(alloc, &fault),
    }
}

fn parts_of(alloc: Global, text: &str, limits: &Limits) -> Result<String, AllocError> {
    parts(alloc, &bytes_of(alloc, text)?, limits)
}

/// The parts of a body within the limits of JSON and archive that stand before it.
fn limited(alloc: Global, text: &str) -> Result<String, AllocError> {
    let (json, rest) = text.split_once(' ').unwrap_or((text, ""));
    let (archive, body) = rest.split_once(' ').unwrap_or((rest, ""));
    let limits = Limits {
        json: json.parse().unwrap_or(0),
        archive: archive.parse().unwrap_or(0),
        ..Limits::STANDARD
    };
    parts_of(alloc, body, &limits)
}

/// What a call is answered that is none on versions either.
fn of_bodies(alloc: Global, word: &str, text: &str) -> Result<String, AllocError> {
    match word {
        "join" => joined(alloc, text),
        "split" => parts_of(alloc, text, &Limits::STANDARD),
        "split-within" => limited(alloc, text),
        _ => of_manifests(alloc, word, text),
    }
}

fn manifest(alloc: Global, json: &[u8]) -> Result<String, AllocError> {
    match read_manifest(alloc, json) {
        Ok(manifest) => manifest_text(alloc, &manifest),
        Err(fault) => shown(alloc, &fault),
    }
}

fn fault(alloc: Global, json: &[u8]) -> Result<String, AllocError> {
    match read_manifest(alloc, json) {
        Ok(_) => String::from_str(alloc, "none"),
        Err(fault) => shown(alloc, &fault),
    }
}

fn manifest_of(alloc: Global, text: &str) -> Result<String, AllocError> {
    manifest(alloc, &bytes_of(alloc, text)?)
}

fn fault_of(alloc: Global, text: &str) -> Result<String, AllocError> {
    fault(alloc, &bytes_of(alloc, text)?)
}

/// Metadata with an unknown field of so many nested lists.
pub(crate) fn nested_json(alloc: Global, levels: &str) -> Result<String, AllocError> {
    let levels = levels.parse().unwrap_or(0);
    let opened = "[".repeat(alloc, levels)?;
    let closed = "]".repeat(alloc, levels)?;
    format!(in alloc; "{{\"name\":\"a\",\"vers\":\"1.0.0\",\"x\":{opened}{closed}}}")
}

fn nested(alloc: Global, levels: &str) -> Result<String, AllocError> {
    fault(alloc, nested_json(alloc, levels)?.as_bytes())
}

/// What a call is answered that is none on bodies either.
fn of_manifests(alloc: Global, word: &str, text: &str) -> Result<String, AllocError> {
    match word {
        "read-manifest" => manifest_of(alloc, text),
        "fault" => fault_of(alloc, text),
        "fault-of-nested" => nested(alloc, text),
        _ => of_lines(alloc, word, text),
    }
}
