//! Owners by typed calls.

use crate::tables::scripts::plays;
use std::test::Fail;

/// While `bob` is disabled no enabled account has that login, and `ada` is the only owner. One who
/// is an owner already stays one, also while disabled. At last `ada` owns the first crate no more,
/// and the second one still.
const LAST_OWNER: &str = "add-account ada Ada -> 1
add-account bob -> 2
add-crate a 1 0.1.0 - -> 1
add-crate b 1 0.1.0 - -> 2
commit -> done

disable 2 -> done
account bob -> 2:bob:-:off;
commit -> done

owners 1 -> 1:ada:Ada:on;

enable 2 -> done
account bob -> 2:bob:-:on;
commit -> done

add-owner 1 2 -> done
commit -> done

owners 1 -> 1:ada:Ada:on;2:bob:-:on;

add-owner 1 2 -> done
commit -> done

owners 1 -> 1:ada:Ada:on;2:bob:-:on;

disable 2 -> done
account bob -> 2:bob:-:off;
commit -> done

owners 1 -> 1:ada:Ada:on;2:bob:-:off;

enable 2 -> done
account bob -> 2:bob:-:on;
commit -> done

remove-owner 1 1 -> done
commit -> done

owners 1 -> 2:bob:-:on;

owners 2 -> 1:ada:Ada:on;";

#[test]
fn last_owner(rt: HostRuntime) -> Result<(), Fail> {
    plays(&rt, rt.alloc(), LAST_OWNER)
}
