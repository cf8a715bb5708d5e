//! Versions and the highest of them.

use crate::layers::script::play;
use std::test::Fail;

#[test]
fn one_release(rt: HostRuntime) -> Result<(), Fail> {
    let script = r#"parse-version 1.0 -> Bad
parse-version 1.0.0.0 -> Bad
parse-version 01.0.0 -> Bad
parse-version 1.0.0- -> Bad
parse-version 1.0.0-01 -> Bad
parse-version v1.0.0 -> Bad
parse-version "" -> Bad
parse-version 18446744073709551616.0.0 -> Bad
parse-version 1.0.0+a -> a release
parse-version 18446744073709551615.0.0-99999999999999999999 -> a release
parse-version 0.0.0--.- -> a release
release-key 1.0.0+a+b -> 1.0.0
release-key 1.0.0-rc.1 -> 1.0.0-rc.1
same-release 1.0.0+a 1.0.0+b -> yes
same-release 1.0.0+a 1.0.0 -> yes
same-release 1.0.0 1.0.0-a -> no"#;
    play(rt.alloc(), script)
}

/// The chain of SemVer 2.0.0, section 11, and its other examples: each is below the next.
#[test]
fn precedence_chain(rt: HostRuntime) -> Result<(), Fail> {
    let script = "highest 0.9.9 1.0.0-alpha -> Some(1)
highest 1.0.0-alpha 0.9.9 -> Some(0)
highest 1.0.0-alpha 1.0.0-alpha.1 -> Some(1)
highest 1.0.0-alpha.1 1.0.0-alpha -> Some(0)
highest 1.0.0-alpha.1 1.0.0-alpha.beta -> Some(1)
highest 1.0.0-alpha.beta 1.0.0-alpha.1 -> Some(0)
highest 1.0.0-alpha.beta 1.0.0-beta -> Some(1)
highest 1.0.0-beta 1.0.0-alpha.beta -> Some(0)
highest 1.0.0-beta 1.0.0-beta.2 -> Some(1)
highest 1.0.0-beta.2 1.0.0-beta -> Some(0)
highest 1.0.0-beta.2 1.0.0-beta.11 -> Some(1)
highest 1.0.0-beta.11 1.0.0-beta.2 -> Some(0)
highest 1.0.0-beta.11 1.0.0-rc.1 -> Some(1)
highest 1.0.0-rc.1 1.0.0-beta.11 -> Some(0)
highest 1.0.0-rc.1 1.0.0 -> Some(1)
highest 1.0.0 1.0.0-rc.1 -> Some(0)
highest 1.0.0 2.0.0 -> Some(1)
highest 2.0.0 1.0.0 -> Some(0)
highest 2.0.0 2.1.0 -> Some(1)
highest 2.1.0 2.0.0 -> Some(0)
highest 2.1.0 2.1.1 -> Some(1)
highest 2.1.1 2.1.0 -> Some(0)
highest 2.1.1 2.1.10-99999999999999999998 -> Some(1)
highest 2.1.10-99999999999999999998 2.1.1 -> Some(0)
highest 2.1.10-99999999999999999998 2.1.10-99999999999999999999 -> Some(1)
highest 2.1.10-99999999999999999999 2.1.10-99999999999999999998 -> Some(0)";
    play(rt.alloc(), script)
}

#[test]
fn highest_of_marked(rt: HostRuntime) -> Result<(), Fail> {
    let script = r#"highest 1.0.0-rc.1 yanked:1.0.0 0.9.0 1.0.0-rc.1+b -> Some(0)
highest yanked:1.0.0 yanked:1.1.0 yanked:1.1.0+b -> Some(1)
highest "" -> None"#;
    play(rt.alloc(), script)
}
