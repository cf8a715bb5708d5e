//! Publish bodies.

use crate::layers::script::play;
use reg_body::Limits;
use std::test::Fail;

#[test]
fn first_line_body(rt: HostRuntime) -> Result<(), Fail> {
    let script = r#"join {"name":"a","vers":"0.1.0"}|
     -> 35:<1b><00><00><00>{"name":"a","vers":"0.1.0"}<00><00><00><00>
split <1b><00><00><00>{"name":"a","vers":"0.1.0"}<00><00><00><00>
     -> 27:{"name":"a","vers":"0.1.0"}|0:"#;
    play(rt.alloc(), script)
}

#[test]
fn frame_faults(rt: HostRuntime) -> Result<(), Fail> {
    let script = r#"split <1c><00><00><00>{"name":"a","vers":"0.1.0"}<00><00><00><00> -> Short
split "" -> Short
split <1b><00><00> -> Short
split <ff><ff><ff><ff>{"name":"a","vers":"0.1.0"}<00><00><00><00> -> Short
split <1b><00><00><00>{"name":"a","vers":"0.1.0"}<00><00><00><00><00> -> Trailing"#;
    play(rt.alloc(), script)
}

#[test]
fn parts_at_their_limits(rt: HostRuntime) -> Result<(), Fail> {
    // More bytes come before a length above its limit.
    let script = r#"split-within 27 0 <1b><00><00><00>{"name":"a","vers":"0.1.0"}<00><00><00><00>
     -> 27:{"name":"a","vers":"0.1.0"}|0:
split-within 26 0 <1b><00><00><00>{"name":"a","vers":"0.1.0"}<00><00><00><00> -> TooLong
split-within 27 0 <00><00><00><00><01><00><00><00>x -> TooLong
split-within 27 0 <00><00><00><00><01><00><00><00>xy -> Trailing"#;
    play(rt.alloc(), script)
}

#[test]
fn standard_limits(rt: HostRuntime) {
    let limits = Limits::STANDARD;
    assert_eq!(rt; limits.greatest_body(), 37_748_744);
    let want = Limits {
        json: 4_194_304,
        archive: 33_554_432,
        head: 16_384,
        fields: 64,
        patterns: 64,
        logins: 32,
        versions: 10_000,
        accounts: 1_000_000,
        tokens: 1_000_000,
        crates: 1_000_000,
        replies: 1_000_000,
        turns: 100_000_000,
    };
    assert!(rt; limits == want);
}
