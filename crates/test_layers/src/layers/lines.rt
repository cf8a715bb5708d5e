//! Index lines, index files, stems, digests, the config.

use crate::layers::script::play;
use std::test::Fail;

#[test]
fn digests(rt: HostRuntime) -> Result<(), Fail> {
    let script = r#"digest "" -> e3b0c44298fc1c149afbf4c8996fb92427ae41e4649b934ca495991b7852b855
digest abc -> ba7816bf8f01cfea414140de5dae2223b00361a396177a9cb410ff61f20015ad
digest abcdbcdecdefdefgefghfghighijhijkijkljklmklmnlmnomnopnopq
     -> 248d6a61d20638b8e5c026930c3e6039a33ce45964ff2167f6ecedd419db06c1"#;
    play(rt.alloc(), script)
}

#[test]
fn first_line(rt: HostRuntime) -> Result<(), Fail> {
    let script = r#"line {"name":"a","vers":"0.1.0"} -> 175:
    {"cksum":"e3b0c44298fc1c149afbf4c8996fb92427ae41e4649b934ca495991b7852b855",
    "deps":[],"features":{},"links":null,"name":"a","rust_version":null,
    "vers":"0.1.0","yanked":false}<0a>
stem {"name":"a","vers":"0.1.0"} -> 168:
    {"cksum":"e3b0c44298fc1c149afbf4c8996fb92427ae41e4649b934ca495991b7852b855",
    "deps":[],"features":{},"links":null,"name":"a","rust_version":null,
    "vers":"0.1.0","yanked":
line-length 168 -> Some(175)
yanked-line-length 168 -> Some(174)
line-length 18446744073709551609 -> None
yanked-line-length 18446744073709551609 -> Some(18446744073709551615)"#;
    play(rt.alloc(), script)
}

#[test]
fn renamed_dependency(rt: HostRuntime) -> Result<(), Fail> {
    let script = r#"line abc|{"name":"acme-net","vers":"1.0.0-rc.1",
    "deps":[{"name":"serde","version_req":"^1.0","features":["derive"],"optional":true,
    "default_features":false,"target":null,"kind":"normal","registry":null,
    "explicit_name_in_toml":"codec"}],
    "features":{"std":[],"wire":["dep:codec"]},"rust_version":"1.70"} -> 394:
    {"cksum":"ba7816bf8f01cfea414140de5dae2223b00361a396177a9cb410ff61f20015ad",
    "deps":[{"default_features":false,"features":["derive"],"kind":"normal","name":"codec",
    "optional":true,"package":"serde","registry":null,"req":"^1.0","target":null}],
    "features":{"std":[]},"features2":{"wire":["dep:codec"]},"links":null,"name":"acme-net",
    "rust_version":"1.70","v":2,"vers":"1.0.0-rc.1","yanked":false}<0a>"#;
    play(rt.alloc(), script)
}

/// A feature goes to `features2` as a whole; `?/` and `dep:` count alone too.
/// Keys stand in byte order, values in the order sent, escapes as they are written.
/// Dependencies stand in the order sent; renamed to its own name is renamed.
#[test]
fn features_and_escapes(rt: HostRuntime) -> Result<(), Fail> {
    let script = r#"line {"name":"a","vers":"0.1.0",
    "features":{"z":["b","c?/d"],"y":["xdep:y","a?b/c"],"x":["dep:"],"w":["?/"]}} -> 258:
    {"cksum":"e3b0c44298fc1c149afbf4c8996fb92427ae41e4649b934ca495991b7852b855",
    "deps":[],"features":{"y":["xdep:y","a?b/c"]},
    "features2":{"w":["?/"],"x":["dep:"],"z":["b","c?/d"]},
    "links":null,"name":"a","rust_version":null,"v":2,"vers":"0.1.0","yanked":false}<0a>
line {"vers":"0.1.0","name":"A-b","links":"\"\\\/\b\f\n\r\t\u0001\u007f\u00e9",
    "features":{"b":["2","1"],"a":[],"B":[]}} -> 226:
    {"cksum":"e3b0c44298fc1c149afbf4c8996fb92427ae41e4649b934ca495991b7852b855",
    "deps":[],"features":{"B":[],"a":[],"b":["2","1"]},
    "links":"\"\\/\b\f\n\r\t\u0001<7f><c3><a9>","name":"A-b","rust_version":null,
    "vers":"0.1.0","yanked":false}<0a>
line {"name":"a","vers":"0.1.0","deps":[{"name":"z","version_req":"1"},
    {"name":"b","version_req":"*","kind":"dev","explicit_name_in_toml":"b",
    "target":"cfg(unix)","registry":"https://r/"}]} -> 463:
    {"cksum":"e3b0c44298fc1c149afbf4c8996fb92427ae41e4649b934ca495991b7852b855",
    "deps":[{"default_features":true,"features":[],"kind":"normal","name":"z",
    "optional":false,"package":null,"registry":null,"req":"1","target":null},
    {"default_features":true,"features":[],"kind":"dev","name":"b","optional":false,
    "package":"b","registry":"https://r/","req":"*","target":"cfg(unix)"}],
    "features":{},"links":null,"name":"a","rust_version":null,"vers":"0.1.0",
    "yanked":false}<0a>"#;
    play(rt.alloc(), script)
}

#[test]
fn growing_index_file(rt: HostRuntime) -> Result<(), Fail> {
    let script = r#"file {"name":"a","vers":"0.1.0"} {"name":"a","vers":"0.2.0"} -> 350:
    {"cksum":"e3b0c44298fc1c149afbf4c8996fb92427ae41e4649b934ca495991b7852b855",
    "deps":[],"features":{},"links":null,"name":"a","rust_version":null,
    "vers":"0.1.0","yanked":false}<0a>
    {"cksum":"e3b0c44298fc1c149afbf4c8996fb92427ae41e4649b934ca495991b7852b855",
    "deps":[],"features":{},"links":null,"name":"a","rust_version":null,
    "vers":"0.2.0","yanked":false}<0a>
file yanked:{"name":"a","vers":"0.1.0"} {"name":"a","vers":"0.2.0"} -> 349:
    {"cksum":"e3b0c44298fc1c149afbf4c8996fb92427ae41e4649b934ca495991b7852b855",
    "deps":[],"features":{},"links":null,"name":"a","rust_version":null,
    "vers":"0.1.0","yanked":true}<0a>
    {"cksum":"e3b0c44298fc1c149afbf4c8996fb92427ae41e4649b934ca495991b7852b855",
    "deps":[],"features":{},"links":null,"name":"a","rust_version":null,
    "vers":"0.2.0","yanked":false}<0a>
file "" -> 0:"#;
    play(rt.alloc(), script)
}

#[test]
fn answers_and_export_config(rt: HostRuntime) -> Result<(), Fail> {
    let script = r#"config http://127.0.0.1:8080 -> 95:
    {"api":"http://127.0.0.1:8080","auth-required":true,
    "dl":"http://127.0.0.1:8080/api/v1/crates"}"#;
    play(rt.alloc(), script)
}

#[test]
fn bases(rt: HostRuntime) -> Result<(), Fail> {
    let script = r#"is-base http://a -> yes
is-base https://a.example:8080/x -> yes
is-base http://~ -> yes
is-base r/ -> no
is-base http:// -> no
is-base https:// -> no
is-base http://a/ -> no
is-base http:/// -> no
is-base http://a b -> no
is-base http://é -> no
is-base HTTP://a -> no
is-base "" -> no"#;
    play(rt.alloc(), script)
}

#[test]
fn first_stem(rt: HostRuntime) -> Result<(), Fail> {
    let script = r#"check-stem a 0.1.0 |
    {"cksum":"e3b0c44298fc1c149afbf4c8996fb92427ae41e4649b934ca495991b7852b855",
    "deps":[],
    "features":{},"links":null,"name":"a","rust_version":null,"vers":"0.1.0","yanked": -> yes
check-stem a 0.1.0 abc|
    {"cksum":"e3b0c44298fc1c149afbf4c8996fb92427ae41e4649b934ca495991b7852b855",
    "deps":[],
    "features":{},"links":null,"name":"a","rust_version":null,"vers":"0.1.0","yanked": -> no
check-stem b 0.1.0 |
    {"cksum":"e3b0c44298fc1c149afbf4c8996fb92427ae41e4649b934ca495991b7852b855",
    "deps":[],
    "features":{},"links":null,"name":"a","rust_version":null,"vers":"0.1.0","yanked": -> no
check-stem a 0.1.1 |
    {"cksum":"e3b0c44298fc1c149afbf4c8996fb92427ae41e4649b934ca495991b7852b855",
    "deps":[],
    "features":{},"links":null,"name":"a","rust_version":null,"vers":"0.1.0","yanked": -> no
check-stem a 0.1.0 | -> no"#;
    play(rt.alloc(), script)
}

#[test]
fn stems_of_no_manifest(rt: HostRuntime) -> Result<(), Fail> {
    let script = r#"check-stem a 0.1.0 |
    {"cksum":"e3b0c44298fc1c149afbf4c8996fb92427ae41e4649b934ca495991b7852b855",
    "deps":[],
    "features":{},"links":null,"name":"a","rust_version":null,"vers":"0.1.0","yanked": -> yes
check-stem a 0.1.0 |
    {"cksum":"e3b0c44298fc1c149afbf4c8996fb92427ae41e4649b934ca495991b7852b855",
    "deps":1,
    "features":{},"links":null,"name":"a","rust_version":null,"vers":"0.1.0","yanked": -> no
check-stem a 0.1.0 |
    {"cksum":"e3b0c44298fc1c149afbf4c8996fb92427ae41e4649b934ca495991b7852b855",
    "deps": [],
    "features":{},"links":null,"name":"a","rust_version":null,"vers":"0.1.0","yanked": -> no
check-stem a 0.1.0 |
    {"cksum":"e3b0c44298fc1c149afbf4c8996fb92427ae41e4649b934ca495991b7852b855",
    "deps":[],"deps":[],
    "features":{},"links":null,"name":"a","rust_version":null,"vers":"0.1.0","yanked": -> no
check-stem a 0.1.0 |
    {"cksum":"e3b0c44298fc1c149afbf4c8996fb92427ae41e4649b934ca495991b7852b855",
    "deps":[{"default_features":true,"features":[],"kind":"dev","name":"b","optional":false,
    "package":"b","registry":null,"req":"1","target":null}],
    "features":{},"links":null,"name":"a","rust_version":null,"vers":"0.1.0","yanked": -> yes
check-stem a 0.1.0 |
    {"cksum":"e3b0c44298fc1c149afbf4c8996fb92427ae41e4649b934ca495991b7852b855",
    "deps":[{"default_features":true,"features":[],"kind":"test","name":"b","optional":false,
    "package":null,"registry":null,"req":"1","target":null}],
    "features":{},"links":null,"name":"a","rust_version":null,"vers":"0.1.0","yanked": -> no
check-stem a 0.1.0 |
    {"cksum":"e3b0c44298fc1c149afbf4c8996fb92427ae41e4649b934ca495991b7852b855",
    "deps":[{"default_features":true,"features":[],"kind":"dev","name":"b","optional":false,
    "package":null,"registry":null,"req":"x y","target":null}],
    "features":{},"links":null,"name":"a","rust_version":null,"vers":"0.1.0","yanked": -> no"#;
    play(rt.alloc(), script)
}
