//! What is read, by its worked examples.

use crate::service::script::play;

#[test]
fn answers_and_export(rt: HostRuntime) {
    let script = r#"given two-accounts-and-a
ada config -> Json {"api":"http://127.0.0.1:8080","auth-required":true,
    "dl":"http://127.0.0.1:8080/api/v1/crates"}
ada owners a -> Json {"users":[{"id":1,"login":"ada","name":"Ada"}]}
access a ->        1  publish-update  ada<0a>       1  yank            ada<0a>
           1  change-owners   ada<0a>
access b ->        1  publish-new     ada<0a>"#;
    play(&rt, script);
}

#[test]
fn search(rt: HostRuntime) {
    let script = r#"given two-accounts
ada search  -> Json {"crates":[],"meta":{"total":0}}
ada release acme-net 1.0.0 -> Json
     {"warnings":{"invalid_badges":[],"invalid_categories":[],"other":[]}}
ada release acme-net 1.1.0-rc.1 -> Json
     {"warnings":{"invalid_badges":[],"invalid_categories":[],"other":[]}}
ada release Zed 0.1.0 -> Json
     {"warnings":{"invalid_badges":[],"invalid_categories":[],"other":[]}}
ada yank Zed 0.1.0 -> Json {"ok":true}
ada search q=- -> Json {"crates":[{"description":null,"max_version":"1.1.0-rc.1",
    "name":"acme-net"}],"meta":{"total":1}}
ada search per_page=1 -> Json {"crates":[{"description":null,"max_version":"1.1.0-rc.1",
    "name":"acme-net"}],"meta":{"total":2}}
ada search q=ZE -> Json {"crates":[{"description":null,"max_version":"0.1.0","name":"Zed"}],
    "meta":{"total":1}}
ada search per_page=0 -> Q1
ada search per_page= -> Q1
ada search per_page=-1 -> Q1
ada search per_page=500 -> Json {"crates":[{"description":null,"max_version":"1.1.0-rc.1",
    "name":"acme-net"},{"description":null,"max_version":"0.1.0","name":"Zed"}],
    "meta":{"total":2}}
no-token search q=- -> A1"#;
    play(&rt, script);
}

#[test]
fn no_such_things(rt: HostRuntime) {
    let script = r#"given two-accounts-and-a
ada index 1/b -> A8
ada index a -> A8
ada index  -> A8
ada owners b -> A8
ada download b 0.1.0 -> A8
ada download a 0.2.0 -> A10
ada download a 0.1.0 -> Archive(0) "#;
    play(&rt, script);
}
