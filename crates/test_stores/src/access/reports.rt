//! Who may act on a crate, and who reads it.

use crate::access::playing::{TWO_ACCOUNTS_AND_A, plays};
use std::test::Fail;

const GRANTS_ONCE: &str = "call add-token third 1 y a,A,a* -> 3
access a -> 1:PublishUpdate:ada;1:Yank:ada;1:ChangeOwners:ada;3:Yank:ada; read 
call disable 1 -> done
access a ->  read ";

#[test]
fn grants_once(rt: HostRuntime) -> Result<(), Fail> {
    plays(&rt, rt.alloc(), TWO_ACCOUNTS_AND_A, GRANTS_ONCE)
}

/// By token, by endpoint; not what a pattern leaves out, nor a revoked token, nor a new crate under
/// a reserved name.
const WHO_MAY_ACT: &str = "call add-token third 2 no b* -> 3
access b -> 1:PublishNew:ada;3:PublishNew:bob; read 
access c -> 1:PublishNew:ada; read 
call reserve B -> done
access b ->  read 
access con ->  read 
call add-owner 1 2 -> done
access A -> 1:PublishUpdate:ada;1:Yank:ada;1:ChangeOwners:ada;2:PublishUpdate:bob;2:Yank:bob; read 
call revoke 1 -> done
access a -> 2:PublishUpdate:bob;2:Yank:bob; read ";

#[test]
fn who_may_act(rt: HostRuntime) -> Result<(), Fail> {
    plays(&rt, rt.alloc(), TWO_ACCOUNTS_AND_A, WHO_MAY_ACT)
}

const ACCESS_WITH_READERS: &str = "call add-reader 1 2 -> done
access a -> 1:PublishUpdate:ada;1:Yank:ada;1:ChangeOwners:ada; read 
call restrict 1 -> done
access A -> 1:PublishUpdate:ada;1:Yank:ada;1:ChangeOwners:ada; read 2:bob;
access b -> 1:PublishNew:ada; read 
call add-reader 1 1 -> done
call disable 2 -> done
call disable 1 -> done
access a ->  read 1:ada;2:bob;";

#[test]
fn access_with_readers(rt: HostRuntime) -> Result<(), Fail> {
    plays(&rt, rt.alloc(), TWO_ACCOUNTS_AND_A, ACCESS_WITH_READERS)
}
