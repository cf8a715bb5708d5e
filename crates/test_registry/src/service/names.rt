//! Crate names, reserved names and patterns: which stop a request.

use crate::service::script::play;

#[test]
fn names_that_are_always_reserved(rt: HostRuntime) {
    let script = r#"given two-accounts
ada release NUL 0.1.0 -> N2
ada release lpt9 0.1.0 -> N2
ada release abcdefghijklmnopqrstuvwxyzabcdefghijklmnopqrstuvwxyzabcdefghijkl 0.1.0 -> Json
     {"warnings":{"invalid_badges":[],"invalid_categories":[],"other":[]}}"#;
    play(&rt, script);
}

#[test]
fn download_by_another_spelling(rt: HostRuntime) {
    let script = r#"given two-accounts
ada release acme-net 1.0.0 abc -> Json
     {"warnings":{"invalid_badges":[],"invalid_categories":[],"other":[]}}
bob download ACME_NET 1.0.0 -> Archive(3) abc
bob download acme-net 1.1.0 -> A10
bob download acme-net 1.0.0+a -> A10
bob download acme-io 1.0.0 -> A8
bob download acme/net 1.0.0 -> A8"#;
    play(&rt, script);
}

#[test]
fn what_a_pattern_covers(rt: HostRuntime) {
    let script = r#"given two-accounts
token-add ada publish-new,publish-update,yank,change-owners *a third -> G4
token-add ada publish-new,publish-update,yank,change-owners  third -> G4
token-add ada publish-new,publish-update,yank,change-owners 9* third -> G4
token-add ada publish-new,publish-update,yank,change-owners acme third -> 3
third release acme2 0.1.0 -> A7
third release ACME 0.1.0 -> Json
     {"warnings":{"invalid_badges":[],"invalid_categories":[],"other":[]}}"#;
    play(&rt, script);
}

#[test]
fn reserving(rt: HostRuntime) {
    // Reserved twice, and taken back once. A crate that is there goes on.
    let script = r#"given two-accounts
reserve acme -> done
reserve ACME -> done
reserve acme-net -> done
ada release ACME 0.1.0 -> N2
unreserve acme -> done
unreserve acme -> done
unreserve con -> done
ada release ACME 0.1.0 -> Json
     {"warnings":{"invalid_badges":[],"invalid_categories":[],"other":[]}}
ada release Acme_Net 0.1.0 -> N2
ada release con 0.1.0 -> N2
reserve acme -> done
ada release ACME 0.2.0 -> Json
     {"warnings":{"invalid_badges":[],"invalid_categories":[],"other":[]}}"#;
    play(&rt, script);
}
