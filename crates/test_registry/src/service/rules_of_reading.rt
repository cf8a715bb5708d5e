//! Rules on what is read: no endpoint, pattern or owner is asked for.

use crate::service::rules::{HIDDEN, OPEN, SEEN, play_rules};

const TOKENS: &str = "token-add ada yank acme* good -> 3
token-add ada yank acme* A3 -> 4
token-add dan yank acme* A4 -> 5
token-add ada yank zed A7 -> 6
token-add carol yank acme* A9 -> 7
token-add dan yank acme* A3+A4 -> 8
token-add carol yank acme* A3+A9 -> 9
token-add eve yank acme* A4+A9 -> 10
token-add eve yank acme* A3+A4+A9 -> 11
token-revoke 4 -> done
token-revoke 8 -> done
token-revoke 9 -> done
token-revoke 11 -> done
";

const LINES: &str = r#"A2 config -> A2
A3 config -> A3
A3+A4 config -> A3
A4 config -> A4
A7 config -> Json {"api":"http://127.0.0.1:8080","auth-required":true,
    "dl":"http://127.0.0.1:8080/api/v1/crates"}
A9 config -> Json {"api":"http://127.0.0.1:8080","auth-required":true,
    "dl":"http://127.0.0.1:8080/api/v1/crates"}
good config -> Json {"api":"http://127.0.0.1:8080","auth-required":true,
    "dl":"http://127.0.0.1:8080/api/v1/crates"}
A2 index ac/me/acme-io -> A2
A2 index ac/me/acme-no -> A2
A3 index ac/me/acme-io -> A3
A3+A4 index ac/me/acme-io -> A3
A3 index ac/me/acme-no -> A3
A4 index ac/me/acme-io -> A4
A4 index ac/me/acme-no -> A4
good index ac/me/acme-no -> A8
A7 index ac/me/acme-io -> Text(183)
     {"cksum":"e3b0c44298fc1c149afbf4c8996fb92427ae41e4649b934ca495991b7852b855",
    "deps":[],"features":{},"links":null,"name":"acme-io","rust_version":null,
    "vers":"1.0.0+a","yanked":false}<0a>
A9 index ac/me/acme-io -> Text(183)
     {"cksum":"e3b0c44298fc1c149afbf4c8996fb92427ae41e4649b934ca495991b7852b855",
    "deps":[],"features":{},"links":null,"name":"acme-io","rust_version":null,
    "vers":"1.0.0+a","yanked":false}<0a>
good index ac/me/acme-io -> Text(183)
     {"cksum":"e3b0c44298fc1c149afbf4c8996fb92427ae41e4649b934ca495991b7852b855",
    "deps":[],"features":{},"links":null,"name":"acme-io","rust_version":null,
    "vers":"1.0.0+a","yanked":false}<0a>
A2 download acme-net 1.0.0+a -> A2
A2 download acme-no 1.0.0+a -> A2
A2 download acme-net 1.0.0 -> A2
A3 download acme-net 1.0.0+a -> A3
A3+A4 download acme-net 1.0.0+a -> A3
A3 download acme-no 1.0.0+a -> A3
A3 download acme-net 1.0.0 -> A3
A4 download acme-net 1.0.0+a -> A4
A4 download acme-no 1.0.0+a -> A4
A4 download acme-net 1.0.0 -> A4
good download acme-no 1.0.0+a -> A8
good download acme-no 1.0.0 -> A8
good download acme-net 1.0.0 -> A10
A7 download acme-net 1.0.0+a -> Archive(0) 
A9 download acme-net 1.0.0+a -> Archive(0) 
good download acme-net 1.0.0+a -> Archive(0) 
A2 owners acme-io -> A2
A2 owners acme-no -> A2
A3 owners acme-io -> A3
A3+A4 owners acme-io -> A3
A3 owners acme-no -> A3
A4 owners acme-io -> A4
A4 owners acme-no -> A4
good owners acme-no -> A8
A7 owners acme-io -> Json {"users":[{"id":1,"login":"ada","name":"Ada"},
    {"id":4,"login":"dan","name":null}]}
A9 owners acme-io -> Json {"users":[{"id":1,"login":"ada","name":"Ada"},
    {"id":4,"login":"dan","name":null}]}
good owners acme-io -> Json {"users":[{"id":1,"login":"ada","name":"Ada"},
    {"id":4,"login":"dan","name":null}]}
"#;

#[test]
fn open_crates(rt: HostRuntime) {
    play_rules(&rt, "", TOKENS, OPEN, LINES);
}

#[test]
fn seen_crates(rt: HostRuntime) {
    play_rules(&rt, "", TOKENS, SEEN, LINES);
}

const HIDDEN_LINES: &str = "A2 index ac/me/acme-io -> A2
A3+A9 index ac/me/acme-io -> A3
A3+A4+A9 index ac/me/acme-io -> A3
A4+A9 index ac/me/acme-io -> A4
A9 index ac/me/acme-io -> A8
A2 download acme-net 1.0.0+a -> A2
A2 download acme-net 1.0.0 -> A2
A3+A9 download acme-net 1.0.0+a -> A3
A3+A4+A9 download acme-net 1.0.0+a -> A3
A3+A9 download acme-net 1.0.0 -> A3
A4+A9 download acme-net 1.0.0+a -> A4
A4+A9 download acme-net 1.0.0 -> A4
A9 download acme-net 1.0.0 -> A8
A9 download acme-net 1.0.0+a -> A8
A2 owners acme-io -> A2
A3+A9 owners acme-io -> A3
A3+A4+A9 owners acme-io -> A3
A4+A9 owners acme-io -> A4
A9 owners acme-io -> A8
";

#[test]
fn hidden_crates(rt: HostRuntime) {
    play_rules(&rt, "", TOKENS, HIDDEN, HIDDEN_LINES);
}
