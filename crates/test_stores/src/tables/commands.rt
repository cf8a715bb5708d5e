//! What the administrator's commands are refused for, as selections show it.

use crate::tables::scripts::plays;
use std::test::Fail;

/// The login is taken, or is no account's; the digest is taken, the id is no token's, the crate is
/// not there; the count is that of the limit. Then a name that is reserved and set free again.
const COMMAND_REFUSALS: &str = "add-account ada Ada -> 1
add-account bob -> 2
add-token abc 1 nuyo * -> 1
commit -> done

account ada -> 1:ada:Ada:on;
account Ada -> none
account carol -> none
token abc -> 1:1:live:nuyo:ada:on; 1:0:*::{;
tokens -> 1:#abc:1:live:nuyo; 1:0:*::{;
crate a -> none
counts -> 2:1:0:0;
commit -> done

reserve acme -> done
reserve acme -> done
reserved ACME -> yes
unreserve acme -> done
reserved ACME -> no
unreserve acme -> done
commit -> done";

#[test]
fn command_refusals(rt: HostRuntime) -> Result<(), Fail> {
    plays(&rt, rt.alloc(), COMMAND_REFUSALS)
}
