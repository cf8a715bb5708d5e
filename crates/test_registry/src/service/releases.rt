//! Releases: their yanks and their limits.

use crate::service::script::play;

#[test]
fn build_metadata_in_an_index_file(rt: HostRuntime) {
    let script = r#"given two-accounts
ada release a 1.0.0+a -> Json
     {"warnings":{"invalid_badges":[],"invalid_categories":[],"other":[]}}
ada yank a 1.0.0+a -> Json {"ok":true}
ada yank a 1.0.0+a -> Json {"ok":true}
ada index 1/a -> Text(176)
     {"cksum":"e3b0c44298fc1c149afbf4c8996fb92427ae41e4649b934ca495991b7852b855",
    "deps":[],"features":{},"links":null,"name":"a","rust_version":null,
    "vers":"1.0.0+a","yanked":true}<0a>"#;
    play(&rt, script);
}

#[test]
fn yanked_version_is_downloaded(rt: HostRuntime) {
    let script = r#"given two-accounts-and-a
ada unyank a 0.1.0 -> Json {"ok":true}
ada yank a 0.1.0 -> Json {"ok":true}
ada download A 0.1.0 -> Archive(0) 
ada unyank a 0.2.0 -> A10
ada unyank b 0.1.0 -> A8"#;
    play(&rt, script);
}

#[test]
fn yank_by_another_spelling(rt: HostRuntime) {
    let script = r#"given two-accounts
ada release acme-net 1.0.0 -> Json
     {"warnings":{"invalid_badges":[],"invalid_categories":[],"other":[]}}
ada yank ACME_NET 1.0.0 -> Json {"ok":true}
ada index ac/me/acme-net -> Text(181)
     {"cksum":"e3b0c44298fc1c149afbf4c8996fb92427ae41e4649b934ca495991b7852b855",
    "deps":[],"features":{},"links":null,"name":"acme-net","rust_version":null,
    "vers":"1.0.0","yanked":true}<0a>
ada unyank Acme-net 1.0.0 -> Json {"ok":true}
ada index ac/me/acme-net -> Text(182)
     {"cksum":"e3b0c44298fc1c149afbf4c8996fb92427ae41e4649b934ca495991b7852b855",
    "deps":[],"features":{},"links":null,"name":"acme-net","rust_version":null,
    "vers":"1.0.0","yanked":false}<0a>"#;
    play(&rt, script);
}

#[test]
fn limits_of_versions(rt: HostRuntime) {
    let script = r#"given two-accounts versions=1
ada release a 0.1.0 -> Json
     {"warnings":{"invalid_badges":[],"invalid_categories":[],"other":[]}}
ada release a 0.2.0 -> L1
ada release a 0.1.0 -> V2
ada release b 0.1.0 -> Json
     {"warnings":{"invalid_badges":[],"invalid_categories":[],"other":[]}}"#;
    play(&rt, script);
}

#[test]
fn limit_of_crates(rt: HostRuntime) {
    let script = r#"given two-accounts-and-a crates=1
ada release b 0.2.0 -> L2
ada release nul 0.2.0 -> N2
ada release a 0.2.0 -> Json
     {"warnings":{"invalid_badges":[],"invalid_categories":[],"other":[]}}
ada release b 0.2.0 -> L2"#;
    play(&rt, script);
}
