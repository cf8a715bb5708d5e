//! What commands are refused, and in which order.

use crate::service::script::play;

#[test]
fn unknown_and_bad_names(rt: HostRuntime) {
    let script = "given two-accounts
user-enable carol -> G3
token-revoke 0 -> G6
owner-add|a b|bob -> G8
reserve 1a -> G4
unreserve 1a -> G4";
    play(&rt, script);
}

#[test]
fn token_refusals(rt: HostRuntime) {
    // Nothing of the refused ones was kept.
    let script = "given two-accounts
token-add ada publish-new,publish-update,yank,change-owners a,,b third -> G4
token-add ada - - third -> G9
token-add ada yank, - third -> G9
token-add ada yank,read - third -> G9
token-add ada publish-new,publish-update,yank,change-owners - ada -> G5
token-add carol publish-new,publish-update,yank,change-owners - third -> G3
token-add ada publish-new,publish-update,yank,change-owners - third -> 3";
    play(&rt, script);
}

#[test]
fn names_of_accounts(rt: HostRuntime) {
    // Of 101 characters, and of 100.
    let script = "given two-accounts
user-add carol  -> G1
user-add|carol|0123456789 123456789 123456789 123456789 123456789 123456789
     123456789 123456789 123456789 123456789~ -> G1
user-add carol a\tb -> G1
user-add carol \u{7f} -> G1
user-add carol é -> G1
user-add|carol|0123456789 123456789 123456789 123456789 123456789 123456789
     123456789 123456789 123456789 123456789 -> done
user-add carol ~ -> G2";
    play(&rt, script);
}

#[test]
fn limits_of_accounts_tokens_and_patterns(rt: HostRuntime) {
    let script = "given two-accounts accounts=2 tokens=3 patterns=2
user-add carol -> G7
token-add ada publish-new,publish-update,yank,change-owners a,b,c third -> G7
token-add ada publish-new,publish-update,yank,change-owners a,b third -> 3
token-add ada publish-new,publish-update,yank,change-owners - fourth -> G7";
    play(&rt, script);
}

#[test]
fn first_refusal_of_a_token(rt: HostRuntime) {
    // Every two of the five refusals at once, and each alone, in their order: G3, G9, G4, G7, G5.
    let script = "given two-accounts patterns=2
token-add carol publish-new,publish-update,yank,change-owners a,b third -> G3
token-add carol read a,b third -> G3
token-add carol publish-new,publish-update,yank,change-owners a,9* third -> G3
token-add carol publish-new,publish-update,yank,change-owners a,b,c third -> G3
token-add carol publish-new,publish-update,yank,change-owners a,b ada -> G3
token-add ada read a,b third -> G9
token-add ada read a,9* third -> G9
token-add ada read a,b,c third -> G9
token-add ada read a,b ada -> G9
token-add ada publish-new,publish-update,yank,change-owners a,9* third -> G4
token-add ada publish-new,publish-update,yank,change-owners a,b,9* third -> G4
token-add ada publish-new,publish-update,yank,change-owners a,9* ada -> G4
token-add ada publish-new,publish-update,yank,change-owners a,b,c third -> G7
token-add ada publish-new,publish-update,yank,change-owners a,b,c ada -> G7
token-add ada publish-new,publish-update,yank,change-owners a,b ada -> G5";
    play(&rt, script);
}

#[test]
fn first_refusal_of_an_account_and_an_owner(rt: HostRuntime) {
    let script = "given two-accounts-and-a accounts=2
user-add ada  -> G1
user-add Carol -> G1
user-add bob -> G2
user-add carol -> G7
owner-add b carol -> G8
owner-add a carol -> G3";
    play(&rt, script);
}

#[test]
fn first_refusal_of_a_restriction(rt: HostRuntime) {
    let script = "given two-accounts-and-a
crate-restrict|a b -> G8
crate-open b -> G8
crate-open|a b -> G8
reader-add b carol -> G8
reader-add|a b|carol -> G8
reader-add a Carol -> G3
reader-remove b carol -> G8
reader-remove  bob -> G8
reader-remove a carol -> G3";
    play(&rt, script);
}

#[test]
fn each_command_and_its_reply(rt: HostRuntime) {
    let script = "given two-accounts-and-a
user-add|carol|Carol C. -> done
user-disable carol -> done
user-enable carol -> done
token-add carol yank,yank a,b-* third -> 3
token-revoke 3 -> done
reserve con -> done
unreserve b -> done
owner-add a carol -> done";
    play(&rt, script);
}
