//! Searches: who looks, how many crates are shown at most, what is searched for, and what is found.

use crate::tables::scripts::plays;
use std::test::Fail;

const SEARCH: &str = "add-account ada -> 1
add-crate acme-net 1 1.0.0 - -> 1
add-version 1 acme-net 1.1.0-rc.1 - -> done
add-crate Zed 1 0.1.0 - -> 2
yank 2 0.1.0 -> done
commit -> done

search 1 10 [-] -> 1 acme-net:1.1.0-rc.1:-;

search 1 1 [] -> 2 acme-net:1.1.0-rc.1:-;

search 1 10 [ZE] -> 1 Zed:0.1.0:-;

search 1 100 [] -> 2 acme-net:1.1.0-rc.1:-;Zed:0.1.0:-;

search 1 0 [] -> 2 none";

#[test]
fn search(rt: HostRuntime) -> Result<(), Fail> {
    plays(&rt, rt.alloc(), SEARCH)
}

const NOTHING_PUBLISHED: &str = "search 1 10 [] -> 0 none";

#[test]
fn nothing_published(rt: HostRuntime) -> Result<(), Fail> {
    plays(&rt, rt.alloc(), NOTHING_PUBLISHED)
}

/// At the beginning, at the end, in between, as a whole; `_` and `-` as one, and both cases.
const WHERE_A_QUERY_STANDS: &str = "add-account ada -> 1
add-crate zz_net 1 0.1.0 - -> 1
add-crate Acme-Net 1 0.1.0 - -> 2
add-crate ac 1 0.1.0 - -> 3
commit -> done

search 1 10 [ac] -> 2 ac:0.1.0:-;Acme-Net:0.1.0:-;

search 1 10 [net] -> 2 Acme-Net:0.1.0:-;zz_net:0.1.0:-;

search 1 10 [_N] -> 2 Acme-Net:0.1.0:-;zz_net:0.1.0:-;

search 1 10 [acme_net] -> 1 Acme-Net:0.1.0:-;

search 1 10 [ZZ-NET] -> 1 zz_net:0.1.0:-;

search 1 10 [acme-nets] -> 0 none

search 1 10 [nec] -> 0 none

search 1 10 [a c] -> 0 none

search 1 10 [é%] -> 0 none

search 1 10 [a-text-that-is-longer-than-any-name-of-a-crate-is-allowed-to-be-0123456789] -> 0 none";

#[test]
fn where_a_query_stands(rt: HostRuntime) -> Result<(), Fail> {
    plays(&rt, rt.alloc(), WHERE_A_QUERY_STANDS)
}

/// The description is that of the highest version, whichever was published last.
const THE_HIGHEST_VERSION_IS_SHOWN: &str = "add-account ada -> 1
add-crate a 1 2.0.0 - second -> 1
add-version 1 a 1.0.0 - first -> done
commit -> done

search 1 10 [a] -> 1 a:2.0.0:second;

yank 1 2.0.0 -> done
commit -> done

search 1 10 [a] -> 1 a:1.0.0:first;

yank 1 1.0.0 -> done
commit -> done

search 1 10 [a] -> 1 a:2.0.0:second;";

#[test]
fn the_highest_version_is_shown(rt: HostRuntime) -> Result<(), Fail> {
    plays(&rt, rt.alloc(), THE_HIGHEST_VERSION_IS_SHOWN)
}

/// An owner and a reader find a restricted crate; a stranger's total is one less.
const SEARCH_AMONG_RESTRICTED_CRATES: &str = "add-account ada -> 1
add-account bob -> 2
add-account cyd -> 3
add-crate a 1 0.1.0 - -> 1
add-crate ab 1 0.1.0 - -> 2
restrict 1 -> done
add-reader 1 2 -> done
commit -> done

search 1 10 [a] -> 2 a:0.1.0:-;ab:0.1.0:-;

search 2 10 [a] -> 2 a:0.1.0:-;ab:0.1.0:-;

search 3 10 [a] -> 1 ab:0.1.0:-;

search 9 1 [] -> 1 ab:0.1.0:-;

open 1 -> done
commit -> done

search 3 1 [a] -> 2 a:0.1.0:-;";

#[test]
fn search_among_restricted_crates(rt: HostRuntime) -> Result<(), Fail> {
    plays(&rt, rt.alloc(), SEARCH_AMONG_RESTRICTED_CRATES)
}
