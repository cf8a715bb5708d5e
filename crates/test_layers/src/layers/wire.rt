//! Heads of requests with each amount of memory.

use crate::layers::memory::{Call, try_each};
use reg_body::Limits;
use reg_http_read::{HeadRead, read_head};
use std::alloc::{AllocError, Global};

/// A request with some fields.
const ASKED: &[u8] = b"GET /index/config.json HTTP/1.1\r\nhost: r\r\nauthorization: abc\r\n\
    accept: */*\r\naccept-encoding: gzip\r\ncache-control: no-cache\r\npragma: no-cache\r\n\
    accept-language: en\r\nuser-agent: cargo\r\ncargo-protocol: version=1\r\n\r\n";

struct ReadingAHead;

impl Call for ReadingAHead {
    fn answers(&self, alloc: Global) -> Result<bool, AllocError> {
        Ok(match read_head(alloc, ASKED, &Limits::STANDARD)? {
            HeadRead::Head(head) => head.len == ASKED.len()
                && head.token == Some(b"abc".as_slice()),
            _ => false,
        })
    }
}

#[test]
fn reading_a_head(rt: HostRuntime) {
    try_each(&rt, 16, &ReadingAHead);
}
