//! All rows at once, as the checks on opening read them.

use crate::tables::scripts::plays;
use std::test::Fail;

/// A base, accounts, tokens, scopes, crates, owners, versions, reserved names, summaries,
/// restricted crates and readers.
const ALL_ROWS: &str = "fill -> done

all-rows -> https://index.example 1:ada:Ada:on;2:bob:-:on; \
1:#abc:1:live:nuyo;2:#abd:2:live:nuyo; 1:0:a:a:a!;1:1:*::{;2:0:acme-*:acme_:acme_{; \
1:a:a; 1:1; 1:1:0.1.0:0.1.0:#abc:-:kept:{\"cksum\":\
\"ba7816bf8f01cfea414140de5dae2223b00361a396177a9cb410ff61f20015ad\",\"deps\":[],\
\"features\":{},\"links\":null,\"name\":\"a\",\"rust_version\":null,\"vers\":\"0.1.0\",\
\"yanked\":; acme_net; 1:1:175; none none";

#[test]
fn all_rows(rt: HostRuntime) -> Result<(), Fail> {
    plays(&rt, rt.alloc(), ALL_ROWS)
}
