//! Typed calls in transactions, each with ample memory.

use crate::tables::scripts::plays;
use std::test::Fail;

const ACCOUNTS: &str = "add-account ada Ada -> 1
add-account bob -> 2
disable 2 -> done
account carol -> none
commit -> done

account bob -> 2:bob:-:off;
accounts -> 1:ada:Ada:on;2:bob:-:off;";

#[test]
fn accounts(rt: HostRuntime) -> Result<(), Fail> {
    plays(&rt, rt.alloc(), ACCOUNTS)
}

const A_TAKEN_LOGIN: &str = "add-account ada -> 1
add-account ada -> fault
add-account bob -> fault
commit -> fault

accounts -> none";

#[test]
fn a_taken_login(rt: HostRuntime) -> Result<(), Fail> {
    plays(&rt, rt.alloc(), A_TAKEN_LOGIN)
}

const A_DROPPED_TRANSACTION: &str = "add-account ada -> 1

accounts -> none";

#[test]
fn a_dropped_transaction(rt: HostRuntime) -> Result<(), Fail> {
    plays(&rt, rt.alloc(), A_DROPPED_TRANSACTION)
}
