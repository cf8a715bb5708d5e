//! What is allowed, and which rule is broken first.

use crate::access::playing::{TWO_ACCOUNTS_AND_A, plays};
use std::test::Fail;

const DENIED_IN_ORDER: &str = "bob publish b 0.1.0 -> A6
bob publish a 0.2.0 -> A9
bob yank a 0.1.0 -> A9
bob yank b 0.1.0 -> A8
bob owners a -> allowed
abc publish b 0.1.0 -> allowed
abd config -> A2
call revoke 1 -> done
abc config -> A3
call disable 2 -> done
bob config -> A4";

#[test]
fn denied_in_order(rt: HostRuntime) -> Result<(), Fail> {
    plays(&rt, rt.alloc(), TWO_ACCOUNTS_AND_A, DENIED_IN_ORDER)
}

/// What a stranger is told of a restricted crate, then a reader, then anybody of an open one.
const A_STRANGERS_VIEW: &str = "call restrict 1 -> done
bob index 1/a -> A8
bob index 1/z -> A8
bob download a 0.1.0 -> A8
bob owners a -> A8
bob yank a 0.1.0 -> A8
bob unyank a 0.1.0 -> A8
bob add-owners a -> A6
bob publish a 0.2.0 -> A9
bob publish A 0.2.0 -> N3
abc index 1/a -> allowed
abc yank a 0.1.0 -> allowed
call add-reader 1 2 -> done
bob index 1/a -> allowed
bob owners a -> allowed
bob yank a 0.1.0 -> A9
bob publish a 0.2.0 -> A9
call remove-reader 1 2 -> done
bob index 1/a -> A8
bob yank a 0.1.0 -> A8
call open 1 -> done
bob owners a -> allowed
bob download a 0.1.0 -> allowed
bob yank a 0.1.0 -> A9";

#[test]
fn a_strangers_view(rt: HostRuntime) -> Result<(), Fail> {
    plays(&rt, rt.alloc(), TWO_ACCOUNTS_AND_A, A_STRANGERS_VIEW)
}

/// A release is there under another version's text; the text itself is not.
const ONE_RELEASE: &str = "call add-version 1 a 1.0.0+a - -> done
abc publish a 1.0.0+b -> V2
abc publish a 1.0.0 -> V2
abc publish a 1.0.1 -> allowed
abc yank a 1.0.0 -> A10
abc yank a 1.0.0+a -> allowed
abc download a 1.0.0+b -> A10
abc add-owners a -> allowed
abc remove-owners a -> allowed
abc remove-owners b -> A8";

#[test]
fn one_release(rt: HostRuntime) -> Result<(), Fail> {
    plays(&rt, rt.alloc(), TWO_ACCOUNTS_AND_A, ONE_RELEASE)
}
