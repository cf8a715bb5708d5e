//! Rules on publishes of new crates.

use crate::service::rules::{OPEN, play_above_limits, play_rules};

const TOKENS: &str = "token-add ada publish-new acme* good -> 3
token-add ada publish-new acme* A3 -> 4
token-add dan publish-new acme* A4 -> 5
token-add ada publish-update,yank,change-owners acme* A6 -> 6
token-add ada publish-new zed A7 -> 7
token-add carol publish-new acme* A9 -> 8
token-add dan publish-new acme* A3+A4 -> 9
token-add ada publish-update,yank,change-owners acme* A3+A6 -> 10
token-add ada publish-new zed A3+A7 -> 11
token-add dan publish-update,yank,change-owners acme* A4+A6 -> 12
token-add dan publish-new zed A4+A7 -> 13
token-add ada publish-update,yank,change-owners zed A6+A7 -> 14
token-revoke 4 -> done
token-revoke 9 -> done
token-revoke 10 -> done
token-revoke 11 -> done
";

const LINES: &str = r#"A2 release acme-new 1.0.0 -> A2
A2 release acme-kit 1.0.0 -> A2
A3 release acme-new 1.0.0 -> A3
A3+A4 release acme-new 1.0.0 -> A3
A3+A6 release acme-new 1.0.0 -> A3
A3+A7 release acme-new 1.0.0 -> A3
A3 release acme-kit 1.0.0 -> A3
A4 release acme-new 1.0.0 -> A4
A4+A6 release acme-new 1.0.0 -> A4
A4+A7 release acme-new 1.0.0 -> A4
A4 release acme-kit 1.0.0 -> A4
A6 release acme-new 1.0.0 -> A6
A6+A7 release acme-new 1.0.0 -> A6
A6 release acme-kit 1.0.0 -> A6
A7 release acme-new 1.0.0 -> A7
A7 release acme-kit 1.0.0 -> A7
good release acme-kit 1.0.0 -> N2
A9 release acme-own 1.0.0 -> Json
     {"warnings":{"invalid_badges":[],"invalid_categories":[],"other":[]}}
good release acme-new 1.0.0 -> Json
     {"warnings":{"invalid_badges":[],"invalid_categories":[],"other":[]}}
"#;

#[test]
fn new_crates(rt: HostRuntime) {
    play_rules(&rt, "", TOKENS, OPEN, LINES);
}

/// There are as many crates as there may be.
const FULL_LINES: &str = "A2 release acme-new 1.0.0 -> A2
A2 release acme-kit 1.0.0 -> A2
A3 release acme-new 1.0.0 -> A3
A3+A4 release acme-new 1.0.0 -> A3
A3+A6 release acme-new 1.0.0 -> A3
A3+A7 release acme-new 1.0.0 -> A3
A3 release acme-kit 1.0.0 -> A3
A4 release acme-new 1.0.0 -> A4
A4+A6 release acme-new 1.0.0 -> A4
A4+A7 release acme-new 1.0.0 -> A4
A4 release acme-kit 1.0.0 -> A4
A6 release acme-new 1.0.0 -> A6
A6+A7 release acme-new 1.0.0 -> A6
A6 release acme-kit 1.0.0 -> A6
A7 release acme-new 1.0.0 -> A7
A7 release acme-kit 1.0.0 -> A7
good release acme-kit 1.0.0 -> N2
good release acme-new 1.0.0 -> L2
";

#[test]
fn at_the_limit(rt: HostRuntime) {
    play_rules(&rt, "crates=2", TOKENS, OPEN, FULL_LINES);
}

#[test]
fn above_the_limit(rt: HostRuntime) {
    play_above_limits(&rt, TOKENS, FULL_LINES);
}
