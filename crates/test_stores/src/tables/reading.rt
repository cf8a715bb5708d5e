//! Rows one at a time, in no transaction.

use crate::tables::scripts::plays;
use std::test::Fail;

const ROWS_AS_IN_A_TRANSACTION: &str = "add-account ada Ada -> 1
add-account bob -> 2
commit -> done

logins -> 1:ada:Ada;2:bob:-;

read-logins -> 1:ada:Ada;2:bob:-;

adopt -> done

logins -> 1:ada:Ada;2:bob:-;";

#[test]
fn rows_as_in_a_transaction(rt: HostRuntime) -> Result<(), Fail> {
    plays(&rt, rt.alloc(), ROWS_AS_IN_A_TRANSACTION)
}
