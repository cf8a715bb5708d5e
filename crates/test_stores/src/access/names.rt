//! Which names a token's patterns cover.

use crate::access::playing::{TWO_ACCOUNTS, TWO_ACCOUNTS_AND_A, plays, plays_turned};
use std::test::Fail;

const PREFIX_PATTERN: &str = "call add-token third 1 nuyo acme-* -> 3
third publish acmex 0.1.0 -> A7
third publish acme 0.1.0 -> A7
third publish acme_io 0.1.0 -> allowed
third publish Acme-Net 0.1.0 -> allowed";

#[test]
fn prefix_pattern(rt: HostRuntime) -> Result<(), Fail> {
    plays(&rt, rt.alloc(), TWO_ACCOUNTS, PREFIX_PATTERN)
}

const WHAT_A_PATTERN_COVERS: &str = "call add-token third 1 nuyo acme -> 3
third publish acme2 0.1.0 -> A7
third publish ACME 0.1.0 -> allowed
third publish nul 0.1.0 -> A7
abc publish nul 0.1.0 -> N2";

#[test]
fn what_a_pattern_covers(rt: HostRuntime) -> Result<(), Fail> {
    plays(&rt, rt.alloc(), TWO_ACCOUNTS, WHAT_A_PATTERN_COVERS)
}

/// `z*` is from `z` to `z{`, `Ac-me` from `ac_me` to `ac_me!`, and `*` from nothing to `{`.
const COMPILED_RANGES: &str = "call add-token third 1 n z*,Ac-me -> 3
third publish z 0.1.0 -> allowed
third publish zz 0.1.0 -> allowed
third publish z9 0.1.0 -> allowed
third publish z_ 0.1.0 -> allowed
third publish yz 0.1.0 -> A7
third publish ac-me 0.1.0 -> allowed
third publish AC_ME 0.1.0 -> allowed
third publish ac-mee 0.1.0 -> A7
third publish ac-m 0.1.0 -> A7
abc publish zzz 0.1.0 -> allowed
abc publish A 0.1.0 -> allowed";

#[test]
fn compiled_ranges(rt: HostRuntime) -> Result<(), Fail> {
    plays(&rt, rt.alloc(), TWO_ACCOUNTS, COMPILED_RANGES)
}

const TWO_SPELLINGS: &str = "call add-crate acme-net 1 1.0.0 - -> 2
abc publish Acme_Net 1.1.0 -> N3
abc index ac/me/acme-net -> allowed
abc index ac/me/acme_net -> A8
abc index ac/me/Acme-Net -> A8
abc download ACME_NET 1.0.0 -> allowed
abc download acme-net 1.1.0 -> A10
abc download acme/net 1.0.0 -> A8";

#[test]
fn two_spellings(rt: HostRuntime) -> Result<(), Fail> {
    plays(&rt, rt.alloc(), TWO_ACCOUNTS_AND_A, TWO_SPELLINGS)
}

/// The policy itself reads patterns, so that its opinion is the other one.
#[test]
fn ranges_decide(rt: HostRuntime) -> Result<(), Fail> {
    plays_turned(
        &rt,
        rt.alloc(),
        TWO_ACCOUNTS_AND_A,
        "UPDATE scopes SET pattern = 'zzz' WHERE token = 1",
        "abc yank a 0.1.0 -> Allowed, and the policy says Denied(A7)
abc publish b 0.1.0 -> Allowed, and the policy says Denied(A7)
abc publish zzz 0.1.0 -> allowed
access b -> 1:PublishNew:ada; read ",
    )
}

#[test]
fn a_range_with_its_pattern_kept(rt: HostRuntime) -> Result<(), Fail> {
    plays_turned(
        &rt,
        rt.alloc(),
        TWO_ACCOUNTS_AND_A,
        "UPDATE scopes SET low = 'zzz', high = 'zzz!' WHERE token = 1",
        "abc yank a 0.1.0 -> Denied(A7), and the policy says Allowed
abc publish b 0.1.0 -> Denied(A7), and the policy says Allowed
abc publish zzz 0.1.0 -> allowed
access b ->  read ",
    )
}
