//! The checks on opening, each on a registry with one row out of order.

use crate::tables::scripts::{checks, connects, plays};
use std::test::Fail;

/// Opened again it has the same rows, and the checks find nothing.
const A_REGISTRY_OPENED_AGAIN: &str = "fill -> done

all-rows -> https://index.example 1:ada:Ada:on;2:bob:-:on; \
1:#abc:1:live:nuyo;2:#abd:2:live:nuyo; 1:0:a:a:a!;1:1:*::{;2:0:acme-*:acme_:acme_{; \
1:a:a; 1:1; 1:1:0.1.0:0.1.0:#abc:-:kept:{\"cksum\":\
\"ba7816bf8f01cfea414140de5dae2223b00361a396177a9cb410ff61f20015ad\",\"deps\":[],\
\"features\":{},\"links\":null,\"name\":\"a\",\"rust_version\":null,\"vers\":\"0.1.0\",\
\"yanked\":; acme_net; 1:1:175; none none
archive-id 1 -> 1:abc;

adopt -> done

all-rows -> https://index.example 1:ada:Ada:on;2:bob:-:on; \
1:#abc:1:live:nuyo;2:#abd:2:live:nuyo; 1:0:a:a:a!;1:1:*::{;2:0:acme-*:acme_:acme_{; \
1:a:a; 1:1; 1:1:0.1.0:0.1.0:#abc:-:kept:{\"cksum\":\
\"ba7816bf8f01cfea414140de5dae2223b00361a396177a9cb410ff61f20015ad\",\"deps\":[],\
\"features\":{},\"links\":null,\"name\":\"a\",\"rust_version\":null,\"vers\":\"0.1.0\",\
\"yanked\":; acme_net; 1:1:175; none none
archive-id 1 -> 1:abc;

audit -> none";

#[test]
fn a_registry_opened_again(rt: HostRuntime) -> Result<(), Fail> {
    plays(&rt, rt.alloc(), A_REGISTRY_OPENED_AGAIN)
}

const THE_BASE_OR_AN_ACCOUNT: &str = "UPDATE about SET base = 'r/' -> C1
UPDATE accounts SET login = 'Ada' WHERE id = 1 -> C1
UPDATE accounts SET name = '' WHERE id = 2 -> C1
INSERT INTO accounts (id, login, name, enabled) VALUES (4, 'eve', NULL, 1) -> C1";

#[test]
fn the_base_or_an_account(rt: HostRuntime) -> Result<(), Fail> {
    checks(&rt, rt.alloc(), THE_BASE_OR_AN_ACCOUNT)
}

const A_TOKEN_OR_ITS_PATTERNS: &str =
    "UPDATE tokens SET publish_new = 0, publish_update = 0, yank = 0, \
change_owners = 0 WHERE id = 2 -> C2
DELETE FROM scopes WHERE token = 2 -> C2
DELETE FROM scopes WHERE token = 1 AND place = 0 -> C2
UPDATE scopes SET place = 2 WHERE token = 1 AND place = 1 -> C2
UPDATE scopes SET low = 'acme-' WHERE token = 2 -> C2
UPDATE scopes SET high = 'acme`' WHERE token = 2 -> C2
UPDATE scopes SET pattern = '9*' WHERE token = 2 -> C2";

#[test]
fn a_token_or_its_patterns(rt: HostRuntime) -> Result<(), Fail> {
    checks(&rt, rt.alloc(), A_TOKEN_OR_ITS_PATTERNS)
}

const A_CRATE: &str = "UPDATE crates SET canon = 'b' -> C3
UPDATE crates SET name = '1', canon = '1' -> C3
DELETE FROM owners -> C3
INSERT INTO crates (id, canon, name) VALUES (2, 'b', 'b') -> C3";

#[test]
fn a_crate(rt: HostRuntime) -> Result<(), Fail> {
    checks(&rt, rt.alloc(), A_CRATE)
}

const A_CRATE_WITH_AN_OWNER_AND_NO_VERSION: &str =
    "INSERT INTO crates (id, canon, name) VALUES (2, 'b', 'b'); \
INSERT INTO owners (crate, account) VALUES (2, 1) -> C3";

#[test]
fn a_crate_with_an_owner_and_no_version(rt: HostRuntime) -> Result<(), Fail> {
    checks(&rt, rt.alloc(), A_CRATE_WITH_AN_OWNER_AND_NO_VERSION)
}

const AN_ARCHIVE: &str = "UPDATE archives SET bytes = x'616264' -> C4
DELETE FROM archives -> C4
UPDATE versions SET digest = x'00' -> C4";

#[test]
fn an_archive(rt: HostRuntime) -> Result<(), Fail> {
    checks(&rt, rt.alloc(), AN_ARCHIVE)
}

const A_VERSION_OR_ITS_LINE: &str = "UPDATE versions SET stem = x'7b' -> C5
UPDATE versions SET vers = '0.1' -> C5
UPDATE versions SET release = '0.2.0' -> C5";

#[test]
fn a_version_or_its_line(rt: HostRuntime) -> Result<(), Fail> {
    checks(&rt, rt.alloc(), A_VERSION_OR_ITS_LINE)
}

/// The stem of the line, with a number for its list of dependencies.
const A_STEM_OF_NO_LINE: &str = "stem {\"cksum\":\
\"ba7816bf8f01cfea414140de5dae2223b00361a396177a9cb410ff61f20015ad\",\"deps\":1,\
\"features\":{},\"links\":null,\"name\":\"a\",\"rust_version\":null,\"vers\":\"0.1.0\",\
\"yanked\": -> C5";

#[test]
fn a_stem_of_no_line(rt: HostRuntime) -> Result<(), Fail> {
    checks(&rt, rt.alloc(), A_STEM_OF_NO_LINE)
}

const A_RESERVED_NAME: &str = "INSERT INTO reserved (canon) VALUES ('con') -> C6
INSERT INTO reserved (canon) VALUES ('B') -> C6
INSERT INTO reserved (canon) VALUES ('1') -> C6
UPDATE reserved SET canon = 'acme-net' -> C6";

#[test]
fn a_reserved_name(rt: HostRuntime) -> Result<(), Fail> {
    checks(&rt, rt.alloc(), A_RESERVED_NAME)
}

const A_SUMMARY: &str = "UPDATE summaries SET index_length = 176 -> C7
UPDATE versions SET yanked = 1 -> C7
DELETE FROM summaries -> C7";

#[test]
fn a_summary(rt: HostRuntime) -> Result<(), Fail> {
    checks(&rt, rt.alloc(), A_SUMMARY)
}

/// A second version whose line is as long: the first is not the highest any more.
const THE_HIGHEST_OF_TWO: &str = "INSERT INTO versions (id, crate, vers, release, digest, stem, \
yanked) VALUES (2, 1, '0.2.0', '0.2.0', \
x'ba7816bf8f01cfea414140de5dae2223b00361a396177a9cb410ff61f20015ad', \
x'7b22636b73756d223a226261373831366266386630316366656134313431343064653564616532323233623030\
3336316133393631373761396362343130666636316632303031356164222c2264657073223a5b5d2c22666561\
7475726573223a7b7d2c226c696e6b73223a6e756c6c2c226e616d65223a2261222c22727573745f7665727369\
6f6e223a6e756c6c2c2276657273223a22302e322e30222c2279616e6b6564223a', 0); \
INSERT INTO archives (version, bytes) VALUES (2, x'616263'); \
UPDATE summaries SET index_length = 350 -> C7";

#[test]
fn the_highest_of_two(rt: HostRuntime) -> Result<(), Fail> {
    checks(&rt, rt.alloc(), THE_HIGHEST_OF_TWO)
}

const A_RESTRICTED_CRATE_AND_ITS_READER: &str = "INSERT INTO restricted (crate) VALUES (1); \
INSERT INTO readers (crate, account) VALUES (1, 2) -> none";

#[test]
fn a_restricted_crate_and_its_reader(rt: HostRuntime) -> Result<(), Fail> {
    checks(&rt, rt.alloc(), A_RESTRICTED_CRATE_AND_ITS_READER)
}

/// The store refuses each statement after which C8 would fail.
const RESTRICTED_CRATES_AND_READERS_OF_NONE: &str = "make https://index.example/ -> done
INSERT INTO restricted (crate) VALUES (1) -> fault
INSERT INTO accounts (id, login, name, enabled) VALUES (1, 'ada', NULL, 1) -> done
INSERT INTO readers (crate, account) VALUES (1, 1) -> fault
INSERT INTO crates (id, canon, name) VALUES (1, 'a', 'a') -> done
INSERT INTO readers (crate, account) VALUES (1, 2) -> fault
INSERT INTO readers (crate, account) VALUES (1, 1) -> done
DELETE FROM accounts -> fault
DELETE FROM crates -> fault";

#[test]
fn restricted_crates_and_readers_of_none(rt: HostRuntime) -> Result<(), Fail> {
    connects(&rt, rt.alloc(), RESTRICTED_CRATES_AND_READERS_OF_NONE)
}

const THE_FIRST_OF_TWO: &str =
    "INSERT INTO reserved (canon) VALUES ('con'); UPDATE archives SET bytes = x'616264' -> C4
UPDATE summaries SET index_length = 176; INSERT INTO reserved (canon) VALUES ('con') -> C6
UPDATE summaries SET index_length = 176; DELETE FROM scopes WHERE token = 2 -> C2";

#[test]
fn the_first_of_two(rt: HostRuntime) -> Result<(), Fail> {
    checks(&rt, rt.alloc(), THE_FIRST_OF_TWO)
}

const AN_UNKNOWN_SCHEMA: &str = "UPDATE about SET schema = 2 -> none
DELETE FROM about -> unknown
INSERT INTO about (schema, base) VALUES (1, 'https://index.example') -> unknown
UPDATE about SET schema = 1 -> unknown
UPDATE about SET schema = 3 -> unknown
DROP TABLE about -> unknown
CREATE TABLE more (a INTEGER) -> unknown
CREATE INDEX names ON crates (name) -> unknown";

#[test]
fn an_unknown_schema(rt: HostRuntime) -> Result<(), Fail> {
    checks(&rt, rt.alloc(), AN_UNKNOWN_SCHEMA)
}
