//! Tokens by typed calls.

use crate::tables::scripts::plays;
use std::test::Fail;

const A_TOKEN_FOUND: &str = "add-account ada -> 1
add-token abc 1 --y- acme-*,Zed -> 1
token abd -> none
token abc -> 1:1:live:--y-:ada:on; 1:0:acme-*:acme_:acme_{;1:1:Zed:zed:zed!;";

#[test]
fn a_token_found(rt: HostRuntime) -> Result<(), Fail> {
    plays(&rt, rt.alloc(), A_TOKEN_FOUND)
}

/// The first token is revoked, then the account of the second is disabled; no token is lost.
const TOKEN_STATES: &str = "add-account ada Ada -> 1
add-account bob -> 2
add-token abc 1 nuyo * -> 1
add-token second 2 --y- * -> 2
commit -> done

token abd -> none

token abc -> 1:1:live:nuyo:ada:on; 1:0:*::{;
token second -> 2:2:live:--y-:bob:on; 2:0:*::{;

revoke 1 -> done
commit -> done

token abc -> 1:1:revoked:nuyo:ada:on; 1:0:*::{;
token second -> 2:2:live:--y-:bob:on; 2:0:*::{;

disable 2 -> done
commit -> done

token abc -> 1:1:revoked:nuyo:ada:on; 1:0:*::{;
token second -> 2:2:live:--y-:bob:off; 2:0:*::{;

tokens -> 1:#abc:1:revoked:nuyo;2:#second:2:live:--y-; 1:0:*::{;2:0:*::{;";

#[test]
fn token_states(rt: HostRuntime) -> Result<(), Fail> {
    plays(&rt, rt.alloc(), TOKEN_STATES)
}
