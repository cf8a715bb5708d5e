//! Each call that can answer want of memory, with each amount of it.
//!
//! The answer is the one with ample memory, or the want.

use reg_body::{JoinFault, join};
use reg_line::{Entry, check_stem, config, digest_of, file, line, stem};
use reg_manifest::{Manifest, ManifestFault, read_manifest};
use reg_names::{Pattern, compile};
use reg_versions::{Release, VersionFault};
use std::alloc::{AllocError, Global};
use std::process::Abort;
use std::test::Fail;
use test_support::examples::RENAMED_JSON;
use test_support::scarce_memory::Amounts;

const COUNT: u32 = 1500;

/// A call that can answer want of memory.
pub(crate) trait Call {
    /// Whether it answers as it does with ample memory.
    fn answers(&self, alloc: Global) -> Result<bool, AllocError>;
}

/// How often the answer with ample memory came, the want of memory, and another answer.
#[derive(Clone, Copy)]
pub(crate) struct Tally {
    answers: u32,
    wants: u32,
    others: u32,
}

impl Tally {
    fn add(&mut self, outcome: Result<bool, AllocError>) {
        match outcome {
            Ok(true) => self.answers = self.answers.saturating_add(1),
            Ok(false) => self.others = self.others.saturating_add(1),
            Err(AllocError) => self.wants = self.wants.saturating_add(1),
        }
    }

    /// Both the answer and the want came, and nothing else.
    fn is_right(&self) -> bool {
        self.answers > 5 && self.wants > 5 && self.others == 0
    }

    /// The answer came, the want exactly if the call takes memory, and nothing else.
    pub(crate) fn is_right_if(&self, takes: bool) -> bool {
        self.answers > 5 && (self.wants > 0) == takes && self.others == 0
    }
}

/// Runs a call with so many amounts of memory.
fn run<C: Call>(
    alloc: Global,
    count: u32,
    step: u32,
    call: &C,
    tally: &mut Tally,
) -> Result<(), AllocError> {
    let mut amounts = Amounts::new(alloc, count, step)?;
    for _ in 0..count {
        if amounts.advance(alloc) {
            tally.add(call.answers(alloc));
        }
    }
    Ok(())
}

/// Runs a call with each amount of memory, beginning with none.
pub(crate) fn each_amount<C: Call>(
    alloc: Global,
    step: u32,
    call: &C,
) -> Result<Tally, AllocError> {
    let mut tally = Tally {
        answers: 0,
        wants: 0,
        others: 0,
    };
    run(alloc, 1, 0, call, &mut tally)?;
    run(alloc, COUNT, step, call, &mut tally)?;
    Ok(tally)
}

/// Runs a call with each amount of memory: fails where anything but its answer and the want came,
/// or one of these did not.
pub(crate) fn try_each<R: Abort + AllocGlobal, C: Call>(rt: &R, step: u32, call: &C) {
    match each_amount(rt.alloc(), step, call) {
        Ok(tally) => assert!(rt; tally.is_right()),
        Err(_) => panic!(rt; "no memory"),
    }
}

const LONG_VERSION: &str =
    "1.0.0-alpha.beta.gamma.delta.epsilon.zeta.eta+a.build.of.some.length.that.takes.memory";

struct ReadingAVersion;

impl Call for ReadingAVersion {
    fn answers(&self, alloc: Global) -> Result<bool, AllocError> {
        match Release::parse(alloc, LONG_VERSION) {
            Ok(_) => Ok(true),
            Err(VersionFault::Memory) => Err(AllocError),
            Err(VersionFault::Bad) => Ok(false),
        }
    }
}

#[test]
fn reading_a_version(rt: HostRuntime) {
    try_each(&rt, 16, &ReadingAVersion);
}

struct CompilingAPattern;

impl Call for CompilingAPattern {
    fn answers(&self, alloc: Global) -> Result<bool, AllocError> {
        let text = "a-pattern-of-some-length-whose-range-takes-memory-for-two-texts*";
        match Pattern::parse(text) {
            Some(pattern) => Ok(compile(alloc, &pattern)?.high.as_str().len() == 64),
            None => Ok(false),
        }
    }
}

#[test]
fn compiling_a_pattern(rt: HostRuntime) {
    try_each(&rt, 16, &CompilingAPattern);
}

struct JoiningABody;

impl Call for JoiningABody {
    fn answers(&self, alloc: Global) -> Result<bool, AllocError> {
        match join(alloc, RENAMED_JSON.as_bytes(), b"abc") {
            Ok(body) => Ok(body.len() == RENAMED_JSON.len() + 11),
            Err(JoinFault::Memory) => Err(AllocError),
            Err(JoinFault::TooLong) => Ok(false),
        }
    }
}

#[test]
fn joining_a_body(rt: HostRuntime) {
    try_each(&rt, 16, &JoiningABody);
}

struct ReadingMetadata;

impl Call for ReadingMetadata {
    fn answers(&self, alloc: Global) -> Result<bool, AllocError> {
        match read_manifest(alloc, RENAMED_JSON.as_bytes()) {
            Ok(manifest) => Ok(manifest.features.len() == 2 && manifest.deps.len() == 1),
            Err(ManifestFault::Memory) => Err(AllocError),
            Err(_) => Ok(false),
        }
    }
}

#[test]
fn reading_metadata(rt: HostRuntime) {
    try_each(&rt, 16, &ReadingMetadata);
}

/// A manifest, and its line with the archive `abc`.
#[derive(Drop)]
struct Written {
    manifest: Manifest,
    line: Vec<u8>,
}

fn write_line(alloc: Global) -> Result<Written, Fail> {
    let manifest = read_manifest(alloc, RENAMED_JSON.as_bytes())?;
    let line = line(alloc, &manifest, &digest_of(b"abc"), false)?;
    Ok(Written { manifest, line })
}

#[derive(Clone, Copy)]
struct WritingAStem<'a>(&'a Written);

impl Call for WritingAStem<'_> {
    fn answers(&self, alloc: Global) -> Result<bool, AllocError> {
        let found = stem(alloc, &self.0.manifest, &digest_of(b"abc"))?;
        Ok(self.0.line.as_slice().starts_with(found.as_slice()))
    }
}

#[derive(Clone, Copy)]
struct WritingALine<'a>(&'a Written);

impl Call for WritingALine<'_> {
    fn answers(&self, alloc: Global) -> Result<bool, AllocError> {
        let found = line(alloc, &self.0.manifest, &digest_of(b"abc"), false)?;
        Ok(found.as_slice() == self.0.line.as_slice())
    }
}

#[test]
fn writing_a_stem_and_a_line(rt: HostRuntime) -> Result<(), Fail> {
    let written = write_line(rt.alloc())?;
    try_each(&rt, 16, &WritingAStem(&written));
    try_each(&rt, 16, &WritingALine(&written));
    Ok(())
}

fn kept_stem(alloc: Global) -> Result<Vec<u8>, Fail> {
    let manifest = read_manifest(alloc, RENAMED_JSON.as_bytes())?;
    Ok(stem(alloc, &manifest, &digest_of(b"abc"))?)
}

#[derive(Clone, Copy)]
struct CheckingAStem<'a>(&'a [u8]);

impl Call for CheckingAStem<'_> {
    fn answers(&self, alloc: Global) -> Result<bool, AllocError> {
        check_stem(alloc, self.0, "acme-net", "1.0.0-rc.1", &digest_of(b"abc"))
    }
}

#[test]
fn checking_a_stem(rt: HostRuntime) -> Result<(), Fail> {
    let kept = kept_stem(rt.alloc())?;
    try_each(&rt, 32, &CheckingAStem(&kept));
    Ok(())
}

/// The writing of a file of these entries, which has so many bytes.
#[derive(Clone, Copy)]
struct WritingAFile<'a>(&'a [Entry], usize);

impl Call for WritingAFile<'_> {
    fn answers(&self, alloc: Global) -> Result<bool, AllocError> {
        Ok(file(alloc, self.0)?.len() == self.1)
    }
}

struct WritingTheConfig;

impl Call for WritingTheConfig {
    fn answers(&self, alloc: Global) -> Result<bool, AllocError> {
        Ok(config(alloc, "http://127.0.0.1:8080")?.len() == 95)
    }
}

#[test]
fn writing_a_file_and_the_config(rt: HostRuntime) -> Result<(), Fail> {
    let stem = kept_stem(rt.alloc())?;
    let len = stem.len().saturating_add(6);
    let mut entries = Vec::new(rt.alloc());
    entries.push(Entry { stem, yanked: true })?;
    try_each(&rt, 16, &WritingAFile(&entries, len));
    try_each(&rt, 16, &WritingTheConfig);
    Ok(())
}
