//! Metadata.

use crate::layers::script::play;
use std::test::Fail;

#[test]
fn first_line_metadata(rt: HostRuntime) -> Result<(), Fail> {
    let script = r#"read-manifest {"name":"a","vers":"0.1.0"}
     -> a 0.1.0 description - links - rust -"#;
    play(rt.alloc(), script)
}

#[test]
fn renamed_dependency(rt: HostRuntime) -> Result<(), Fail> {
    let script = r#"read-manifest {"name":"acme-net","vers":"1.0.0-rc.1",
    "deps":[{"name":"serde","version_req":"^1.0","features":["derive"],"optional":true,
    "default_features":false,"target":null,"kind":"normal","registry":null,
    "explicit_name_in_toml":"codec"}],
    "features":{"std":[],"wire":["dep:codec"]},"rust_version":"1.70"}
     -> acme-net 1.0.0-rc.1 description - links - rust 1.70
    ; feature std[]; feature wire[dep:codec,]
    ; dep serde req ^1.0 features[derive,] optional bare
     target - kind normal registry - renamed codec"#;
    play(rt.alloc(), script)
}

#[test]
fn renamed_dependency_refusals(rt: HostRuntime) -> Result<(), Fail> {
    let script = r#"fault {"name":"a","vers":"1.0.0",
    "deps":[{"name":"b","version_req":"1","kind":"test"}]} -> Dependency
fault {"name":"a","vers":"1.0.0","deps":[{"name":"","version_req":"1"}]} -> Dependency
fault {"name":"a","vers":"1.0.0","deps":[{"name":"b","version_req":"1, *"}]} -> Dependency
fault {"name":"a","vers":"1.0.0",
    "deps":[{"name":"b","version_req":"1","explicit_name_in_toml":""}]} -> Dependency
fault {"name":"a","vers":"1.0.0","deps":{}} -> Field
fault {"name":"a","vers":"1.0.0","deps":[null]} -> Field
fault {"name":"a","vers":"1.0.0","features":{"f":null}} -> Field
fault {"name":"a","vers":"1.0.0","links":1} -> Field
fault {"name":"a","vers":null} -> Field
fault { -> NotJson
fault [] -> Field"#;
    play(rt.alloc(), script)
}

#[test]
fn renamed_dependency_altered(rt: HostRuntime) -> Result<(), Fail> {
    let script = r#"fault {"name":"acme-net","vers":"1.0.0-rc.1",
    "deps":[{"name":"serde","version_req":"^1.0","features":["derive"],"optional":true,
    "default_features":false,"target":null,"kind":"test","registry":null,
    "explicit_name_in_toml":"codec"}],
    "features":{"std":[],"wire":["dep:codec"]},"rust_version":"1.70"} -> Dependency
fault {"name":"acme-net","vers":"1.0.0-rc.1",
    "deps":{},"x":[{"name":"serde","version_req":"^1.0","features":["derive"],"optional":true,
    "default_features":false,"target":null,"kind":"normal","registry":null,
    "explicit_name_in_toml":"codec"}],
    "features":{"std":[],"wire":["dep:codec"]},"rust_version":"1.70"} -> Field"#;
    play(rt.alloc(), script)
}

#[test]
fn first_fault(rt: HostRuntime) -> Result<(), Fail> {
    let script = r#"fault {"name":"1","vers":"1","deps":[{"name":"","version_req":""}],"links":0}
     -> Field
fault {"name":"1","vers":"1","deps":[{"name":"","version_req":""}]} -> Name
fault {"name":"a","vers":"1","deps":[{"name":"","version_req":""}]} -> Version
fault {"name":"a","vers":"1.0.0","deps":[{"name":"","version_req":""}]} -> Dependency
fault {"name":"a","vers":"1.0.0","deps":[{"name":"","version_req":""},{}]} -> Field"#;
    play(rt.alloc(), script)
}

/// What a reader of JSON may get wrong.
///
/// Of a key that is written twice the last value counts, of whatever kind.
/// Escapes stand in keys too; a pair of surrogates is one character, a lone one is none.
/// Control characters have to be escaped.
/// Numbers past 64 bits in an unknown field are numbers; one past every float is none.
/// At the end: a byte-order mark, bytes behind the value, bytes that are no UTF-8, no bytes.
#[test]
fn json_texts(rt: HostRuntime) -> Result<(), Fail> {
    let script = r#"fault {"name":"a","vers":"1.0.0","deps":{},"deps":[]} -> none
fault {"name":"a","vers":"1.0.0","deps":[],"deps":{}} -> Field
fault {"name":"1","name":"a","vers":"1.0.0"} -> none
fault {"n\u0061me":"\u0061","vers":"1.0.0"} -> none
fault {"name":"a","vers":"1.0.0","links":"\ud83d\ude00"} -> none
fault {"name":"a","vers":"1.0.0","links":"\ud83d"} -> NotJson
fault {"name":"a","vers":"1.0.0","links":"\ude00\ud83d"} -> NotJson
fault {"name":"a","vers":"1.0.0","links":"\x61"} -> NotJson
fault {"name":"a","vers":"1.0.0","links":"<01>"} -> NotJson
fault {"name":"a","vers":"1.0.0","links":"\u0001"} -> none
fault {"name":"a","vers":"1.0.0","x":99999999999999999999999} -> none
fault {"name":"a","vers":"1.0.0","x":1e999} -> NotJson
fault {"name":"a","vers":"1.0.0","x":0e999} -> none
fault {"name":"a","vers":"1.0.0","x":01} -> NotJson
fault <ef><bb><bf>{"name":"a","vers":"1.0.0"} -> NotJson
fault {"name":"a","vers":"1.0.0"} <0a> -> none
fault {"name":"a","vers":"1.0.0"}x -> NotJson
fault {"name":"a","vers":"1.0.0","x":"<ff>"} -> NotJson
fault "" -> NotJson"#;
    play(rt.alloc(), script)
}

#[test]
fn nesting(rt: HostRuntime) -> Result<(), Fail> {
    // The object is a level too: 127 levels are read, 128 are not.
    let script = "fault-of-nested 126 -> none
fault-of-nested 127 -> NotJson";
    play(rt.alloc(), script)
}
