//! Rules on yank and unyank.

use crate::service::rules::{HIDDEN, OPEN, SEEN, play_rules};

const TOKENS: &str = "token-add ada yank acme* good -> 3
token-add ada yank acme* A3 -> 4
token-add dan yank acme* A4 -> 5
token-add ada publish-new,publish-update,change-owners acme* A6 -> 6
token-add ada yank zed A7 -> 7
token-add carol yank acme* A9 -> 8
token-add dan yank acme* A3+A4 -> 9
token-add ada publish-new,publish-update,change-owners acme* A3+A6 -> 10
token-add ada yank zed A3+A7 -> 11
token-add carol yank acme* A3+A9 -> 12
token-add dan publish-new,publish-update,change-owners acme* A4+A6 -> 13
token-add dan yank zed A4+A7 -> 14
token-add eve yank acme* A4+A9 -> 15
token-add ada publish-new,publish-update,change-owners zed A6+A7 -> 16
token-add carol publish-new,publish-update,change-owners acme* A6+A9 -> 17
token-add carol yank zed A7+A9 -> 18
token-add eve yank acme* A3+A4+A9 -> 19
token-add carol publish-new,publish-update,change-owners acme* A3+A6+A9 -> 20
token-add carol yank zed A3+A7+A9 -> 21
token-add eve publish-new,publish-update,change-owners acme* A4+A6+A9 -> 22
token-add eve yank zed A4+A7+A9 -> 23
token-add carol publish-new,publish-update,change-owners zed A6+A7+A9 -> 24
token-revoke 4 -> done
token-revoke 9 -> done
token-revoke 10 -> done
token-revoke 11 -> done
token-revoke 12 -> done
token-revoke 19 -> done
token-revoke 20 -> done
token-revoke 21 -> done
";

const YANKS: &str = r#"A2 yank acme-net 1.0.0+a -> A2
A2 yank acme-no 1.0.0+a -> A2
A2 yank acme-net 1.0.0 -> A2
A3 yank acme-net 1.0.0+a -> A3
A3+A4 yank acme-net 1.0.0+a -> A3
A3+A6 yank acme-net 1.0.0+a -> A3
A3 yank acme-no 1.0.0+a -> A3
A3+A7 yank acme-net 1.0.0+a -> A3
A3+A9 yank acme-net 1.0.0+a -> A3
A3 yank acme-net 1.0.0 -> A3
A4 yank acme-net 1.0.0+a -> A4
A4+A6 yank acme-net 1.0.0+a -> A4
A4 yank acme-no 1.0.0+a -> A4
A4+A7 yank acme-net 1.0.0+a -> A4
A4+A9 yank acme-net 1.0.0+a -> A4
A4 yank acme-net 1.0.0 -> A4
A6 yank acme-net 1.0.0+a -> A6
A6 yank acme-no 1.0.0+a -> A6
A6+A7 yank acme-net 1.0.0+a -> A6
A6+A9 yank acme-net 1.0.0+a -> A6
A6 yank acme-net 1.0.0 -> A6
good yank acme-no 1.0.0+a -> A8
A7 yank acme-no 1.0.0+a -> A8
A9 yank acme-no 1.0.0+a -> A8
good yank acme-no 1.0.0 -> A8
A7 yank acme-net 1.0.0+a -> A7
A7+A9 yank acme-net 1.0.0+a -> A7
A7 yank acme-net 1.0.0 -> A7
A9 yank acme-net 1.0.0+a -> A9
A9 yank acme-net 1.0.0 -> A9
good yank acme-net 1.0.0 -> A10
good yank acme-net 1.0.0+a -> Json {"ok":true}
"#;

const UNYANKS: &str = r#"A2 unyank acme-net 1.0.0+a -> A2
A2 unyank acme-no 1.0.0+a -> A2
A2 unyank acme-net 1.0.0 -> A2
A3 unyank acme-net 1.0.0+a -> A3
A3+A4 unyank acme-net 1.0.0+a -> A3
A3+A6 unyank acme-net 1.0.0+a -> A3
A3 unyank acme-no 1.0.0+a -> A3
A3+A7 unyank acme-net 1.0.0+a -> A3
A3+A9 unyank acme-net 1.0.0+a -> A3
A3 unyank acme-net 1.0.0 -> A3
A4 unyank acme-net 1.0.0+a -> A4
A4+A6 unyank acme-net 1.0.0+a -> A4
A4 unyank acme-no 1.0.0+a -> A4
A4+A7 unyank acme-net 1.0.0+a -> A4
A4+A9 unyank acme-net 1.0.0+a -> A4
A4 unyank acme-net 1.0.0 -> A4
A6 unyank acme-net 1.0.0+a -> A6
A6 unyank acme-no 1.0.0+a -> A6
A6+A7 unyank acme-net 1.0.0+a -> A6
A6+A9 unyank acme-net 1.0.0+a -> A6
A6 unyank acme-net 1.0.0 -> A6
good unyank acme-no 1.0.0+a -> A8
A7 unyank acme-no 1.0.0+a -> A8
A9 unyank acme-no 1.0.0+a -> A8
good unyank acme-no 1.0.0 -> A8
A7 unyank acme-net 1.0.0+a -> A7
A7+A9 unyank acme-net 1.0.0+a -> A7
A7 unyank acme-net 1.0.0 -> A7
A9 unyank acme-net 1.0.0+a -> A9
A9 unyank acme-net 1.0.0 -> A9
good unyank acme-net 1.0.0 -> A10
good unyank acme-net 1.0.0+a -> Json {"ok":true}
"#;

#[test]
fn yanks(rt: HostRuntime) {
    play_rules(&rt, "", TOKENS, OPEN, YANKS);
}

#[test]
fn unyanks(rt: HostRuntime) {
    play_rules(&rt, "", TOKENS, OPEN, UNYANKS);
}

#[test]
fn yanks_of_seen_crates(rt: HostRuntime) {
    play_rules(&rt, "", TOKENS, SEEN, YANKS);
}

#[test]
fn unyanks_of_seen_crates(rt: HostRuntime) {
    play_rules(&rt, "", TOKENS, SEEN, UNYANKS);
}

const HIDDEN_LINES: &str = "A2 yank acme-net 1.0.0+a -> A2
A2 yank acme-net 1.0.0 -> A2
A3+A9 yank acme-net 1.0.0+a -> A3
A3+A4+A9 yank acme-net 1.0.0+a -> A3
A3+A6+A9 yank acme-net 1.0.0+a -> A3
A3+A7+A9 yank acme-net 1.0.0+a -> A3
A3+A9 yank acme-net 1.0.0 -> A3
A4+A9 yank acme-net 1.0.0+a -> A4
A4+A6+A9 yank acme-net 1.0.0+a -> A4
A4+A7+A9 yank acme-net 1.0.0+a -> A4
A4+A9 yank acme-net 1.0.0 -> A4
A6+A9 yank acme-net 1.0.0+a -> A6
A6+A7+A9 yank acme-net 1.0.0+a -> A6
A6+A9 yank acme-net 1.0.0 -> A6
A7+A9 yank acme-net 1.0.0+a -> A8
A7+A9 yank acme-net 1.0.0 -> A8
A9 yank acme-net 1.0.0 -> A8
A9 yank acme-net 1.0.0+a -> A8
A2 unyank acme-net 1.0.0+a -> A2
A2 unyank acme-net 1.0.0 -> A2
A3+A9 unyank acme-net 1.0.0+a -> A3
A3+A4+A9 unyank acme-net 1.0.0+a -> A3
A3+A6+A9 unyank acme-net 1.0.0+a -> A3
A3+A7+A9 unyank acme-net 1.0.0+a -> A3
A3+A9 unyank acme-net 1.0.0 -> A3
A4+A9 unyank acme-net 1.0.0+a -> A4
A4+A6+A9 unyank acme-net 1.0.0+a -> A4
A4+A7+A9 unyank acme-net 1.0.0+a -> A4
A4+A9 unyank acme-net 1.0.0 -> A4
A6+A9 unyank acme-net 1.0.0+a -> A6
A6+A7+A9 unyank acme-net 1.0.0+a -> A6
A6+A9 unyank acme-net 1.0.0 -> A6
A7+A9 unyank acme-net 1.0.0+a -> A8
A7+A9 unyank acme-net 1.0.0 -> A8
A9 unyank acme-net 1.0.0 -> A8
A9 unyank acme-net 1.0.0+a -> A8
";

#[test]
fn hidden_crates(rt: HostRuntime) {
    play_rules(&rt, "", TOKENS, HIDDEN, HIDDEN_LINES);
}
