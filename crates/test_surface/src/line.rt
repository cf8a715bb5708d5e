//! Lines, files and digests.

use reg_line::{Digest, Entry};
use reg_manifest::Manifest;
use std::alloc::{AllocError, Global};

const _: Digest = [0u8; 32];

const _: fn(&str) -> bool = reg_line::is_base;

const _: fn(&[u8]) -> Digest = reg_line::digest_of;

const _: fn(u64, bool) -> Option<u64> = reg_line::line_len;

const _: fn(bool) -> &'static [u8] = reg_line::line_end;

const _: fn(Global, &Manifest, &Digest) -> Result<Vec<u8>, AllocError> = reg_line::stem;

const _: fn(Global, &Manifest, &Digest, bool) -> Result<Vec<u8>, AllocError> = reg_line::line;

const _: fn(Global, &[Entry]) -> Result<Vec<u8>, AllocError> = reg_line::file;

const _: fn(Global, &str) -> Result<Vec<u8>, AllocError> = reg_line::config;

const _: fn(Global, &[u8], &str, &str, &Digest) -> Result<bool, AllocError> = reg_line::check_stem;

fn fill_fields(alloc: Global) {
    return;
    let _ = Entry {
        stem: Vec::<u8>::new(alloc),
        yanked: false,
    };
}
