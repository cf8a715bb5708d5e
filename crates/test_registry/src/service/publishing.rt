//! Publishes and yanks, by their worked examples.

use crate::service::script::play;

#[test]
fn name_faults(rt: HostRuntime) {
    let script = r#"given two-accounts
ada release aaaaaaaaaaaaaaaaaaaaaaaaaaaaaaaaaaaaaaaaaaaaaaaaaaaaaaaaaaaaaaaa 0.1.0 -> Json
     {"warnings":{"invalid_badges":[],"invalid_categories":[],"other":[]}}
ada release aaaaaaaaaaaaaaaaaaaaaaaaaaaaaaaaaaaaaaaaaaaaaaaaaaaaaaaaaaaaaaaaa 0.1.0 -> N1
ada release 1abc 0.1.0 -> N1
ada release  0.1.0 -> N1
ada release nul 0.1.0 -> N2
bob release nul 0.1.0 -> A6"#;
    play(&rt, script);
}

#[test]
fn two_spellings(rt: HostRuntime) {
    let script = r#"given two-accounts
ada release acme-net 1.0.0 abc -> Json
     {"warnings":{"invalid_badges":[],"invalid_categories":[],"other":[]}}
ada release Acme_Net 1.1.0 -> N3
ada index ac/me/acme-net -> Text(182)
     {"cksum":"ba7816bf8f01cfea414140de5dae2223b00361a396177a9cb410ff61f20015ad",
    "deps":[],"features":{},"links":null,"name":"acme-net","rust_version":null,
    "vers":"1.0.0","yanked":false}<0a>
ada index ac/me/acme_net -> A8
ada index ac/me/Acme-Net -> A8
ada download ACME_NET 1.0.0 -> Archive(3) abc"#;
    play(&rt, script);
}

#[test]
fn prefix_pattern(rt: HostRuntime) {
    let script = r#"given two-accounts
token-add ada publish-new,publish-update,yank,change-owners acme-* third -> 3
third release acme_io 0.1.0 -> Json
     {"warnings":{"invalid_badges":[],"invalid_categories":[],"other":[]}}
third release acmex 0.1.0 -> A7
third release acme 0.1.0 -> A7"#;
    play(&rt, script);
}

#[test]
fn denied_in_order(rt: HostRuntime) {
    let script = r#"given two-accounts-and-a
bob release b 0.1.0 -> A6
bob release a 0.2.0 -> A9
bob yank a 0.1.0 -> A9
bob yank b 0.1.0 -> A8
bob owners a -> Json {"users":[{"id":1,"login":"ada","name":"Ada"}]}"#;
    play(&rt, script);
}

#[test]
fn limit_of_crates(rt: HostRuntime) {
    let script = r#"given two-accounts-and-a crates=1
ada release b 0.1.0 -> L2
ada release a 0.2.0 -> Json
     {"warnings":{"invalid_badges":[],"invalid_categories":[],"other":[]}}"#;
    play(&rt, script);
}

#[test]
fn limit_of_versions(rt: HostRuntime) {
    let script = r#"given two-accounts-and-a versions=2
ada release a 0.2.0 -> Json
     {"warnings":{"invalid_badges":[],"invalid_categories":[],"other":[]}}
ada release a 0.3.0 -> L1
ada release a 0.2.0 -> V2
ada yank a 0.1.0 -> Json {"ok":true}"#;
    play(&rt, script);
}

#[test]
fn one_release(rt: HostRuntime) {
    let script = r#"given two-accounts
ada release a 1.0.0+a -> Json
     {"warnings":{"invalid_badges":[],"invalid_categories":[],"other":[]}}
ada release a 1.0.0+b -> V2
ada release a 1.0.0 -> V2
ada release a 1.0 -> V1
ada yank a 1.0.0 -> A10
ada yank a 1.0.0+a -> Json {"ok":true}
ada yank a 1.0.0+a -> Json {"ok":true}"#;
    play(&rt, script);
}

#[test]
fn growing_index_file(rt: HostRuntime) {
    let script = r#"given two-accounts-and-a
ada release a 0.2.0 -> Json
     {"warnings":{"invalid_badges":[],"invalid_categories":[],"other":[]}}
ada index 1/a -> Text(350)
     {"cksum":"e3b0c44298fc1c149afbf4c8996fb92427ae41e4649b934ca495991b7852b855",
    "deps":[],"features":{},"links":null,"name":"a","rust_version":null,
    "vers":"0.1.0","yanked":false}<0a>
    {"cksum":"e3b0c44298fc1c149afbf4c8996fb92427ae41e4649b934ca495991b7852b855",
    "deps":[],"features":{},"links":null,"name":"a","rust_version":null,
    "vers":"0.2.0","yanked":false}<0a>
ada yank a 0.1.0 -> Json {"ok":true}
ada index 1/a -> Text(349)
     {"cksum":"e3b0c44298fc1c149afbf4c8996fb92427ae41e4649b934ca495991b7852b855",
    "deps":[],"features":{},"links":null,"name":"a","rust_version":null,
    "vers":"0.1.0","yanked":true}<0a>
    {"cksum":"e3b0c44298fc1c149afbf4c8996fb92427ae41e4649b934ca495991b7852b855",
    "deps":[],"features":{},"links":null,"name":"a","rust_version":null,
    "vers":"0.2.0","yanked":false}<0a>
ada unyank a 0.1.0 -> Json {"ok":true}
ada index 1/a -> Text(350)
     {"cksum":"e3b0c44298fc1c149afbf4c8996fb92427ae41e4649b934ca495991b7852b855",
    "deps":[],"features":{},"links":null,"name":"a","rust_version":null,
    "vers":"0.1.0","yanked":false}<0a>
    {"cksum":"e3b0c44298fc1c149afbf4c8996fb92427ae41e4649b934ca495991b7852b855",
    "deps":[],"features":{},"links":null,"name":"a","rust_version":null,
    "vers":"0.2.0","yanked":false}<0a>"#;
    play(&rt, script);
}

#[test]
fn renamed_dependency(rt: HostRuntime) {
    let script = r#"given two-accounts
ada publish {"name":"acme-net","vers":"1.0.0-rc.1","deps":[{"name":"serde","version_req":"^1.0",
    "features":["derive"],"optional":true,"default_features":false,"target":null,"kind":"normal",
    "registry":null,"explicit_name_in_toml":"codec"}],"features":{"std":[],"wire":["dep:codec"]},
    "rust_version":"1.70"} abc -> Json
     {"warnings":{"invalid_badges":[],"invalid_categories":[],"other":[]}}
ada index ac/me/acme-net -> Text(394)
     {"cksum":"ba7816bf8f01cfea414140de5dae2223b00361a396177a9cb410ff61f20015ad",
    "deps":[{"default_features":false,"features":["derive"],"kind":"normal","name":"codec",
    "optional":true,"package":"serde","registry":null,"req":"^1.0","target":null}],
    "features":{"std":[]},"features2":{"wire":["dep:codec"]},"links":null,"name":"acme-net",
    "rust_version":"1.70","v":2,"vers":"1.0.0-rc.1","yanked":false}<0a>
ada publish {"name":"b","vers":"1.0.0","deps":[{"name":"serde","version_req":"^1.0",
    "kind":"test"}]} -> M1
ada publish {"name":"b","vers":"1.0.0","deps":{}} -> B5
ada publish { -> B4
ada publish [] -> B5"#;
    play(&rt, script);
}

#[test]
fn frame_faults(rt: HostRuntime) {
    let script = "given two-accounts
ada publish-bytes 1c0000007b226e616d65223a2261222c2276657273223a22302e312e30227d00000000 -> B1
ada publish-bytes  -> B1
ada publish-bytes 1b0000 -> B1
ada publish-bytes 1b0000007b226e616d65223a2261222c2276657273223a22302e312e30227d0000000000 -> B2
no-token publish-bytes 1b0000 -> A1
ada index 1/a -> A8";
    play(&rt, script);
}
