//! The reports of accounts, tokens, crates and access.

use crate::service::script::play;

#[test]
fn users_in_two_states(rt: HostRuntime) {
    let script = "given two-accounts-and-a
users ->        1  ada                               enabled   Ada<0a>
           2  bob                               enabled   -<0a>
user-disable bob -> done
user-add|abcdefghijklmnopqrstuvwxyz-01234|Two  Words -> done
users ->        1  ada                               enabled   Ada<0a>
           2  bob                               disabled  -<0a>
           3  abcdefghijklmnopqrstuvwxyz-01234  enabled   Two  Words<0a>";
    play(&rt, script);
}

#[test]
fn tokens_report(rt: HostRuntime) {
    let script = "given two-accounts
token-revoke 2 -> done
token-add bob change-owners,yank,yank,publish-new b-*,A,a third -> 3
tokens ->        1  ada                               live     publish-new,publish-update,
    yank,change-owners  *<0a>
           2  bob                               revoked  publish-update,yank  *<0a>
           3  bob                               live     publish-new,yank,
    change-owners  b-*,A,a<0a>";
    play(&rt, script);
}

#[test]
fn crates_report(rt: HostRuntime) {
    // By canonical text, whatever the spelling.
    let script = r#"given two-accounts
crates -> 
ada release Zed 0.1.0 -> Json
     {"warnings":{"invalid_badges":[],"invalid_categories":[],"other":[]}}
ada release acme-net 1.0.0 -> Json
     {"warnings":{"invalid_badges":[],"invalid_categories":[],"other":[]}}
ada release acme-net 1.1.0-rc.1 -> Json
     {"warnings":{"invalid_badges":[],"invalid_categories":[],"other":[]}}
ada release Acme 0.9.0 -> Json
     {"warnings":{"invalid_badges":[],"invalid_categories":[],"other":[]}}
ada release Acme 0.10.0 -> Json
     {"warnings":{"invalid_badges":[],"invalid_categories":[],"other":[]}}
ada yank Zed 0.1.0 -> Json {"ok":true}
crate-restrict Zed -> done
crates -> Acme                                                                   2  0.10.0<0a>
    acme-net                                                               2  1.1.0-rc.1<0a>
    Zed                                                                    1  0.1.0<0a>
ada yank acme-net 1.1.0-rc.1 -> Json {"ok":true}
ada yank Acme 0.9.0 -> Json {"ok":true}
ada yank Acme 0.10.0 -> Json {"ok":true}
crates -> Acme                                                                   2  0.10.0<0a>
    acme-net                                                               2  1.0.0<0a>
    Zed                                                                    1  0.1.0<0a>"#;
    play(&rt, script);
}

#[test]
fn who_may_act(rt: HostRuntime) {
    // By token, by endpoint; not what a pattern leaves out, nor a revoked token, nor a new crate
    // under a reserved name.
    let script = r#"given two-accounts-and-a
token-add bob change-owners,publish-new b* third -> 3
access b ->        1  publish-new     ada<0a>
           3  publish-new     bob<0a>
access c ->        1  publish-new     ada<0a>
reserve B -> done
access b -> 
access con -> 
access 9a -> G4
access|a b -> G4
ada add-owners a {"users":["bob"]} -> Json {"msg":"owners added","ok":true}
access A ->        1  publish-update  ada<0a>
           1  yank            ada<0a>
           1  change-owners   ada<0a>
           2  publish-update  bob<0a>
           2  yank            bob<0a>
token-revoke 1 -> done
access a ->        2  publish-update  bob<0a>
           2  yank            bob<0a>"#;
    play(&rt, script);
}
