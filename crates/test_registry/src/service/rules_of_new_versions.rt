//! Rules on publishes of new versions.

use crate::service::rules::{HIDDEN, OPEN, SEEN, play_above_limits, play_rules};

const TOKENS: &str = "token-add ada publish-update acme* good -> 3
token-add ada publish-update acme* A3 -> 4
token-add dan publish-update acme* A4 -> 5
token-add ada publish-new,yank,change-owners acme* A6 -> 6
token-add ada publish-update zed A7 -> 7
token-add carol publish-update acme* A9 -> 8
token-add dan publish-update acme* A3+A4 -> 9
token-add ada publish-new,yank,change-owners acme* A3+A6 -> 10
token-add ada publish-update zed A3+A7 -> 11
token-add carol publish-update acme* A3+A9 -> 12
token-add dan publish-new,yank,change-owners acme* A4+A6 -> 13
token-add dan publish-update zed A4+A7 -> 14
token-add eve publish-update acme* A4+A9 -> 15
token-add ada publish-new,yank,change-owners zed A6+A7 -> 16
token-add carol publish-new,yank,change-owners acme* A6+A9 -> 17
token-add carol publish-update zed A7+A9 -> 18
token-add eve publish-update acme* A3+A4+A9 -> 19
token-add carol publish-new,yank,change-owners acme* A3+A6+A9 -> 20
token-add carol publish-update zed A3+A7+A9 -> 21
token-add eve publish-new,yank,change-owners acme* A4+A6+A9 -> 22
token-add eve publish-update zed A4+A7+A9 -> 23
token-add carol publish-new,yank,change-owners zed A6+A7+A9 -> 24
token-revoke 4 -> done
token-revoke 9 -> done
token-revoke 10 -> done
token-revoke 11 -> done
token-revoke 12 -> done
token-revoke 19 -> done
token-revoke 20 -> done
token-revoke 21 -> done
";

/// Of a crate that has room.
const LINES: &str = r#"A2 release acme-io 2.0.0 -> A2
A2 release Acme_IO 2.0.0 -> A2
A2 release acme-io 1.0.0 -> A2
A3 release acme-io 2.0.0 -> A3
A3+A4 release acme-io 2.0.0 -> A3
A3+A6 release acme-io 2.0.0 -> A3
A3+A7 release acme-io 2.0.0 -> A3
A3 release Acme_IO 2.0.0 -> A3
A3+A9 release acme-io 2.0.0 -> A3
A3 release acme-io 1.0.0 -> A3
A4 release acme-io 2.0.0 -> A4
A4+A6 release acme-io 2.0.0 -> A4
A4+A7 release acme-io 2.0.0 -> A4
A4 release Acme_IO 2.0.0 -> A4
A4+A9 release acme-io 2.0.0 -> A4
A4 release acme-io 1.0.0 -> A4
A6 release acme-io 2.0.0 -> A6
A6+A7 release acme-io 2.0.0 -> A6
A6 release Acme_IO 2.0.0 -> A6
A6+A9 release acme-io 2.0.0 -> A6
A6 release acme-io 1.0.0 -> A6
A7 release acme-io 2.0.0 -> A7
A7 release Acme_IO 2.0.0 -> A7
A7+A9 release acme-io 2.0.0 -> A7
A7 release acme-io 1.0.0 -> A7
good release Acme_IO 2.0.0 -> N3
A9 release Acme_IO 2.0.0 -> N3
good release Acme_IO 1.0.0 -> N3
A9 release acme-io 2.0.0 -> A9
A9 release acme-io 1.0.0 -> A9
good release acme-io 1.0.0 -> V2
good release acme-io 2.0.0 -> Json
     {"warnings":{"invalid_badges":[],"invalid_categories":[],"other":[]}}
"#;

/// Of a crate that has as many versions as it may.
const FULL_LINES: &str = "A2 release acme-net 2.0.0 -> A2
A2 release Acme_Net 2.0.0 -> A2
A2 release acme-net 1.0.0 -> A2
A3 release acme-net 2.0.0 -> A3
A3+A4 release acme-net 2.0.0 -> A3
A3+A6 release acme-net 2.0.0 -> A3
A3+A7 release acme-net 2.0.0 -> A3
A3 release Acme_Net 2.0.0 -> A3
A3+A9 release acme-net 2.0.0 -> A3
A3 release acme-net 1.0.0 -> A3
A4 release acme-net 2.0.0 -> A4
A4+A6 release acme-net 2.0.0 -> A4
A4+A7 release acme-net 2.0.0 -> A4
A4 release Acme_Net 2.0.0 -> A4
A4+A9 release acme-net 2.0.0 -> A4
A4 release acme-net 1.0.0 -> A4
A6 release acme-net 2.0.0 -> A6
A6+A7 release acme-net 2.0.0 -> A6
A6 release Acme_Net 2.0.0 -> A6
A6+A9 release acme-net 2.0.0 -> A6
A6 release acme-net 1.0.0 -> A6
A7 release acme-net 2.0.0 -> A7
A7 release Acme_Net 2.0.0 -> A7
A7+A9 release acme-net 2.0.0 -> A7
A7 release acme-net 1.0.0 -> A7
good release Acme_Net 2.0.0 -> N3
A9 release Acme_Net 2.0.0 -> N3
good release Acme_Net 1.0.0 -> N3
A9 release acme-net 2.0.0 -> A9
A9 release acme-net 1.0.0 -> A9
good release acme-net 1.0.0 -> V2
good release acme-net 2.0.0 -> L1
";

#[test]
fn new_versions(rt: HostRuntime) {
    play_rules(&rt, "versions=2", TOKENS, OPEN, LINES);
}

#[test]
fn at_the_limit(rt: HostRuntime) {
    play_rules(&rt, "versions=2", TOKENS, OPEN, FULL_LINES);
}

#[test]
fn above_the_limit(rt: HostRuntime) {
    play_above_limits(&rt, TOKENS, FULL_LINES);
}

#[test]
fn new_versions_of_seen_crates(rt: HostRuntime) {
    play_rules(&rt, "versions=2", TOKENS, SEEN, LINES);
}

#[test]
fn seen_and_at_the_limit(rt: HostRuntime) {
    play_rules(&rt, "versions=2", TOKENS, SEEN, FULL_LINES);
}

const HIDDEN_LINES: &str = "A2 release acme-io 2.0.0 -> A2
A2 release Acme_IO 2.0.0 -> A2
A2 release acme-io 1.0.0 -> A2
A2 release acme-net 2.0.0 -> A2
A3+A9 release acme-io 2.0.0 -> A3
A3+A4+A9 release acme-io 2.0.0 -> A3
A3+A6+A9 release acme-io 2.0.0 -> A3
A3+A7+A9 release acme-io 2.0.0 -> A3
A3+A9 release Acme_IO 2.0.0 -> A3
A3+A9 release acme-io 1.0.0 -> A3
A3+A9 release acme-net 2.0.0 -> A3
A4+A9 release acme-io 2.0.0 -> A4
A4+A6+A9 release acme-io 2.0.0 -> A4
A4+A7+A9 release acme-io 2.0.0 -> A4
A4+A9 release Acme_IO 2.0.0 -> A4
A4+A9 release acme-io 1.0.0 -> A4
A4+A9 release acme-net 2.0.0 -> A4
A6+A9 release acme-io 2.0.0 -> A6
A6+A7+A9 release acme-io 2.0.0 -> A6
A6+A9 release Acme_IO 2.0.0 -> A6
A6+A9 release acme-io 1.0.0 -> A6
A6+A9 release acme-net 2.0.0 -> A6
A7+A9 release acme-io 2.0.0 -> A7
A7+A9 release Acme_IO 2.0.0 -> A7
A7+A9 release acme-io 1.0.0 -> A7
A7+A9 release acme-net 2.0.0 -> A7
A9 release Acme_IO 2.0.0 -> N3
A9 release Acme_IO 1.0.0 -> N3
A9 release Acme_Net 2.0.0 -> N3
A9 release acme-io 1.0.0 -> A9
A9 release acme-net 1.0.0 -> A9
A9 release acme-net 2.0.0 -> A9
A9 release acme-io 2.0.0 -> A9
";

#[test]
fn hidden_crates(rt: HostRuntime) {
    play_rules(&rt, "versions=2", TOKENS, HIDDEN, HIDDEN_LINES);
}
