//! Commands and reports, by their worked examples.

use crate::service::script::play;

#[test]
fn command_refusals(rt: HostRuntime) {
    let script = r#"given two-accounts
user-add ada -> G2
user-add Ada -> G1
user-disable carol -> G3
token-add ada yank a,,b third -> G4
token-add ada - a third -> G9
token-add ada yank a ada -> G5
token-revoke 3 -> G6
owner-add a bob -> G8
reserve acme -> done
ada release ACME 0.1.0 -> N2
unreserve acme -> done
ada release ACME 0.1.0 -> Json
     {"warnings":{"invalid_badges":[],"invalid_categories":[],"other":[]}}
owner-add acme bob -> done
owner-add acme carol -> G3
reserve con -> done
unreserve con -> done
ada release con 0.1.0 -> N2"#;
    play(&rt, script);
}

#[test]
fn limit_of_accounts(rt: HostRuntime) {
    let script = "given two-accounts accounts=2
user-add carol -> G7";
    play(&rt, script);
}

#[test]
fn users_report(rt: HostRuntime) {
    let script = "given two-accounts-and-a
users ->        1  ada                               enabled   Ada<0a>
           2  bob                               enabled   -<0a>";
    play(&rt, script);
}

#[test]
fn grants_once(rt: HostRuntime) {
    let script = "given two-accounts-and-a
token-add ada yank a,A,a* third -> 3
access a ->        1  publish-update  ada<0a>       1  yank            ada<0a>
           1  change-owners   ada<0a>       3  yank            ada<0a>
user-disable ada -> done
access a -> ";
    play(&rt, script);
}
