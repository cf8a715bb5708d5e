//! Crates and their versions by typed calls.

use crate::tables::scripts::plays;
use std::test::Fail;

/// The index file of two versions, each with an empty archive, also while the first is yanked.
const GROWING_INDEX_FILE: &str = "add-account ada -> 1
add-crate a 1 0.1.0 - -> 1
add-version 1 a 0.2.0 - -> done
commit -> done

summary 1 -> 1:2:350;
index 1 -> 350 {\"cksum\":\
\"e3b0c44298fc1c149afbf4c8996fb92427ae41e4649b934ca495991b7852b855\",\
\"deps\":[],\"features\":{},\"links\":null,\"name\":\"a\",\"rust_version\":null,\
\"vers\":\"0.1.0\",\"yanked\":false};\
{\"cksum\":\
\"e3b0c44298fc1c149afbf4c8996fb92427ae41e4649b934ca495991b7852b855\",\
\"deps\":[],\"features\":{},\"links\":null,\"name\":\"a\",\"rust_version\":null,\
\"vers\":\"0.2.0\",\"yanked\":false};

yank 1 0.1.0 -> done
commit -> done

summary 1 -> 1:2:349;
index 1 -> 349 {\"cksum\":\
\"e3b0c44298fc1c149afbf4c8996fb92427ae41e4649b934ca495991b7852b855\",\
\"deps\":[],\"features\":{},\"links\":null,\"name\":\"a\",\"rust_version\":null,\
\"vers\":\"0.1.0\",\"yanked\":true};\
{\"cksum\":\
\"e3b0c44298fc1c149afbf4c8996fb92427ae41e4649b934ca495991b7852b855\",\
\"deps\":[],\"features\":{},\"links\":null,\"name\":\"a\",\"rust_version\":null,\
\"vers\":\"0.2.0\",\"yanked\":false};

unyank 1 0.1.0 -> done
commit -> done

summary 1 -> 1:2:350;
index 1 -> 350 {\"cksum\":\
\"e3b0c44298fc1c149afbf4c8996fb92427ae41e4649b934ca495991b7852b855\",\
\"deps\":[],\"features\":{},\"links\":null,\"name\":\"a\",\"rust_version\":null,\
\"vers\":\"0.1.0\",\"yanked\":false};\
{\"cksum\":\
\"e3b0c44298fc1c149afbf4c8996fb92427ae41e4649b934ca495991b7852b855\",\
\"deps\":[],\"features\":{},\"links\":null,\"name\":\"a\",\"rust_version\":null,\
\"vers\":\"0.2.0\",\"yanked\":false};";

#[test]
fn growing_index_file(rt: HostRuntime) -> Result<(), Fail> {
    plays(&rt, rt.alloc(), GROWING_INDEX_FILE)
}

const THE_SPELLING_OF_A_CRATE: &str = "add-account ada -> 1
add-crate Acme-Net 1 1.0.0 - -> 1
crate ACME_net -> 1:acme_net:Acme-Net;
crate acme -> none";

#[test]
fn the_spelling_of_a_crate(rt: HostRuntime) -> Result<(), Fail> {
    plays(&rt, rt.alloc(), THE_SPELLING_OF_A_CRATE)
}

const RESERVED_NAMES: &str = "reserved Acme -> no
reserve Acme -> done
reserve Acme -> done
reserved Acme -> yes
reserved acme2 -> no
unreserve Acme -> done
reserved Acme -> no";

#[test]
fn reserved_names(rt: HostRuntime) -> Result<(), Fail> {
    plays(&rt, rt.alloc(), RESERVED_NAMES)
}

const ARCHIVES_AND_COUNTS: &str = "add-account ada -> 1
add-crate Zed 1 1.0.0+a abc it-nets -> 1
add-crate acme-net 1 1.0.0+a abc it-nets -> 2
archive 1 1.0.0+a -> abc
archive 1 1.0.0 -> none
counts -> 1:0:2:2;
crates -> 2:acme_net:acme-net;1:zed:Zed;";

#[test]
fn archives_and_counts(rt: HostRuntime) -> Result<(), Fail> {
    plays(&rt, rt.alloc(), ARCHIVES_AND_COUNTS)
}

const AN_ARCHIVE_BY_ITS_ID: &str = "add-account ada -> 1
add-crate a 1 1.0.0 abc -> 1
archive-id 1 -> 1:abc;
archive-id 2 -> none";

#[test]
fn an_archive_by_its_id(rt: HostRuntime) -> Result<(), Fail> {
    plays(&rt, rt.alloc(), AN_ARCHIVE_BY_ITS_ID)
}

/// The highest is the greatest that is not yanked, by precedence and not by its place; where all
/// are yanked it is the greatest of all. A crate that is not there has no summary.
const THE_HIGHEST_VERSION: &str = "add-account ada -> 1
add-crate a 1 0.10.0 - -> 1
add-version 1 a 0.9.0 - -> done
summary 1 -> 1:1:351;
yank 1 0.10.0 -> done
summary 1 -> 1:2:350;
yank 1 0.9.0 -> done
summary 1 -> 1:1:349;
yank 1 0.9.0 -> done
summary 1 -> 1:1:349;
unyank 1 0.9.0 -> done
summary 1 -> 1:2:350;
summary 2 -> none
reaches-crates 0 -> yes
reaches-crates 1 -> yes
reaches-crates 2 -> no
reaches-crates 3 -> no
reaches-crates 18446744073709551615 -> no";

#[test]
fn the_highest_version(rt: HostRuntime) -> Result<(), Fail> {
    plays(&rt, rt.alloc(), THE_HIGHEST_VERSION)
}

/// A change of what is not there is none.
const WHAT_IS_NOT_THERE: &str = "add-account ada -> 1
add-crate a 1 0.1.0 - -> 1
disable 0 -> done
disable 7 -> done
disable 4294967295 -> done
revoke 3 -> done
revoke 4294967295 -> done
yank 2 0.1.0 -> done
yank 4294967295 0.1.0 -> done
yank 1 0.2.0 -> done
add-owner 2 1 -> done
remove-owner 2 1 -> done
restrict 2 -> done
add-reader 2 1 -> done
commit -> done

accounts -> 1:ada:-:on;
owners 1 -> 1:ada:-:on;
owners 2 -> none
owners 4294967295 -> none
archive-id 4294967295 -> none
readers 2 -> none
restricted 2 -> no
versions 2 -> none
archive 2 0.1.0 -> none
summary 1 -> 1:1:175;";

#[test]
fn what_is_not_there(rt: HostRuntime) -> Result<(), Fail> {
    plays(&rt, rt.alloc(), WHAT_IS_NOT_THERE)
}

/// Readers may be named of a crate that is open, and opening it keeps them.
const RESTRICT_AND_READERS: &str = "add-account ada Ada -> 1
add-account bob -> 2
add-crate a 1 0.1.0 - -> 1
restricted 1 -> no
restrict 1 -> done
restrict 1 -> done
restricted 1 -> yes
add-reader 1 2 -> done
add-reader 1 2 -> done
readers 1 -> 2:bob:-:on;
owners 1 -> 1:ada:Ada:on;
remove-reader 1 1 -> done
readers 1 -> 2:bob:-:on;
commit -> done

open 1 -> done
restricted 1 -> no
readers 1 -> 2:bob:-:on;
open 1 -> done
remove-reader 1 2 -> done
commit -> done

readers 1 -> none
owners 1 -> 1:ada:Ada:on;";

#[test]
fn restrict_and_readers(rt: HostRuntime) -> Result<(), Fail> {
    plays(&rt, rt.alloc(), RESTRICT_AND_READERS)
}
