//! Rules on changes of owners.

use crate::service::rules::{HIDDEN, OPEN, SEEN, play_rules};

const TOKENS: &str = "token-add ada change-owners acme* good -> 3
token-add ada change-owners acme* A3 -> 4
token-add dan change-owners acme* A4 -> 5
token-add ada publish-new,publish-update,yank acme* A6 -> 6
token-add ada change-owners zed A7 -> 7
token-add carol change-owners acme* A9 -> 8
token-add dan change-owners acme* A3+A4 -> 9
token-add ada publish-new,publish-update,yank acme* A3+A6 -> 10
token-add ada change-owners zed A3+A7 -> 11
token-add carol change-owners acme* A3+A9 -> 12
token-add dan publish-new,publish-update,yank acme* A4+A6 -> 13
token-add dan change-owners zed A4+A7 -> 14
token-add eve change-owners acme* A4+A9 -> 15
token-add ada publish-new,publish-update,yank zed A6+A7 -> 16
token-add carol publish-new,publish-update,yank acme* A6+A9 -> 17
token-add carol change-owners zed A7+A9 -> 18
token-add eve change-owners acme* A3+A4+A9 -> 19
token-add carol publish-new,publish-update,yank acme* A3+A6+A9 -> 20
token-add carol change-owners zed A3+A7+A9 -> 21
token-add eve publish-new,publish-update,yank acme* A4+A6+A9 -> 22
token-add eve change-owners zed A4+A7+A9 -> 23
token-add carol publish-new,publish-update,yank zed A6+A7+A9 -> 24
token-revoke 4 -> done
token-revoke 9 -> done
token-revoke 10 -> done
token-revoke 11 -> done
token-revoke 12 -> done
token-revoke 19 -> done
token-revoke 20 -> done
token-revoke 21 -> done
";

const ADDING: &str = r#"A2 add-owners acme-net {"users":["bob"]} -> A2
A2 add-owners acme-no {"users":["bob"]} -> A2
A2 add-owners acme-net {"users":["bob","nobody"]} -> A2
A3 add-owners acme-net {"users":["bob"]} -> A3
A3+A4 add-owners acme-net {"users":["bob"]} -> A3
A3+A6 add-owners acme-net {"users":["bob"]} -> A3
A3 add-owners acme-no {"users":["bob"]} -> A3
A3+A7 add-owners acme-net {"users":["bob"]} -> A3
A3+A9 add-owners acme-net {"users":["bob"]} -> A3
A3 add-owners acme-net {"users":["bob","nobody"]} -> A3
A4 add-owners acme-net {"users":["bob"]} -> A4
A4+A6 add-owners acme-net {"users":["bob"]} -> A4
A4 add-owners acme-no {"users":["bob"]} -> A4
A4+A7 add-owners acme-net {"users":["bob"]} -> A4
A4+A9 add-owners acme-net {"users":["bob"]} -> A4
A4 add-owners acme-net {"users":["bob","nobody"]} -> A4
A6 add-owners acme-net {"users":["bob"]} -> A6
A6 add-owners acme-no {"users":["bob"]} -> A6
A6+A7 add-owners acme-net {"users":["bob"]} -> A6
A6+A9 add-owners acme-net {"users":["bob"]} -> A6
A6 add-owners acme-net {"users":["bob","nobody"]} -> A6
good add-owners acme-no {"users":["bob"]} -> A8
A7 add-owners acme-no {"users":["bob"]} -> A8
A9 add-owners acme-no {"users":["bob"]} -> A8
good add-owners acme-no {"users":["bob","nobody"]} -> A8
A7 add-owners acme-net {"users":["bob"]} -> A7
A7+A9 add-owners acme-net {"users":["bob"]} -> A7
A7 add-owners acme-net {"users":["bob","nobody"]} -> A7
A9 add-owners acme-net {"users":["bob"]} -> A9
A9 add-owners acme-net {"users":["bob","nobody"]} -> A9
good add-owners acme-net {"users":["bob","nobody"]} -> O2
good add-owners acme-net {"users":["bob"]} -> Json {"msg":"owners added","ok":true}
"#;

const REMOVING: &str = r#"A2 remove-owners acme-net {"users":["bob"]} -> A2
A2 remove-owners acme-no {"users":["bob"]} -> A2
A2 remove-owners acme-net {"users":["bob","carol"]} -> A2
A2 remove-owners acme-net {"users":["bob","ada","dan"]} -> A2
A3 remove-owners acme-net {"users":["bob"]} -> A3
A3+A4 remove-owners acme-net {"users":["bob"]} -> A3
A3+A6 remove-owners acme-net {"users":["bob"]} -> A3
A3 remove-owners acme-no {"users":["bob"]} -> A3
A3+A7 remove-owners acme-net {"users":["bob"]} -> A3
A3+A9 remove-owners acme-net {"users":["bob"]} -> A3
A3 remove-owners acme-net {"users":["bob","carol"]} -> A3
A3 remove-owners acme-net {"users":["bob","ada","dan"]} -> A3
A4 remove-owners acme-net {"users":["bob"]} -> A4
A4+A6 remove-owners acme-net {"users":["bob"]} -> A4
A4 remove-owners acme-no {"users":["bob"]} -> A4
A4+A7 remove-owners acme-net {"users":["bob"]} -> A4
A4+A9 remove-owners acme-net {"users":["bob"]} -> A4
A4 remove-owners acme-net {"users":["bob","carol"]} -> A4
A4 remove-owners acme-net {"users":["bob","ada","dan"]} -> A4
A6 remove-owners acme-net {"users":["bob"]} -> A6
A6 remove-owners acme-no {"users":["bob"]} -> A6
A6+A7 remove-owners acme-net {"users":["bob"]} -> A6
A6+A9 remove-owners acme-net {"users":["bob"]} -> A6
A6 remove-owners acme-net {"users":["bob","carol"]} -> A6
A6 remove-owners acme-net {"users":["bob","ada","dan"]} -> A6
good remove-owners acme-no {"users":["bob"]} -> A8
A7 remove-owners acme-no {"users":["bob"]} -> A8
A9 remove-owners acme-no {"users":["bob"]} -> A8
good remove-owners acme-no {"users":["bob","carol"]} -> A8
good remove-owners acme-no {"users":["bob","ada","dan"]} -> A8
A7 remove-owners acme-net {"users":["bob"]} -> A7
A7+A9 remove-owners acme-net {"users":["bob"]} -> A7
A7 remove-owners acme-net {"users":["bob","carol"]} -> A7
A7 remove-owners acme-net {"users":["bob","ada","dan"]} -> A7
A9 remove-owners acme-net {"users":["bob"]} -> A9
A9 remove-owners acme-net {"users":["bob","carol"]} -> A9
A9 remove-owners acme-net {"users":["bob","ada","dan"]} -> A9
good remove-owners acme-net {"users":["bob","carol"]} -> O3
good remove-owners acme-net {"users":["ada","carol","bob","dan"]} -> O3
good remove-owners acme-net {"users":["bob","ada","dan"]} -> O4
good remove-owners acme-net {"users":["bob"]} -> Json {"msg":"owners removed","ok":true}
"#;

#[test]
fn adding(rt: HostRuntime) {
    play_rules(&rt, "", TOKENS, OPEN, ADDING);
}

#[test]
fn removing(rt: HostRuntime) {
    play_rules(&rt, "", TOKENS, OPEN, REMOVING);
}

#[test]
fn adding_to_seen_crates(rt: HostRuntime) {
    play_rules(&rt, "", TOKENS, SEEN, ADDING);
}

#[test]
fn removing_from_seen_crates(rt: HostRuntime) {
    play_rules(&rt, "", TOKENS, SEEN, REMOVING);
}

const HIDDEN_LINES: &str = r#"A2 add-owners acme-net {"users":["bob"]} -> A2
A2 add-owners acme-net {"users":["bob","nobody"]} -> A2
A3+A9 add-owners acme-net {"users":["bob"]} -> A3
A3+A4+A9 add-owners acme-net {"users":["bob"]} -> A3
A3+A6+A9 add-owners acme-net {"users":["bob"]} -> A3
A3+A7+A9 add-owners acme-net {"users":["bob"]} -> A3
A3+A9 add-owners acme-net {"users":["bob","nobody"]} -> A3
A4+A9 add-owners acme-net {"users":["bob"]} -> A4
A4+A6+A9 add-owners acme-net {"users":["bob"]} -> A4
A4+A7+A9 add-owners acme-net {"users":["bob"]} -> A4
A4+A9 add-owners acme-net {"users":["bob","nobody"]} -> A4
A6+A9 add-owners acme-net {"users":["bob"]} -> A6
A6+A7+A9 add-owners acme-net {"users":["bob"]} -> A6
A6+A9 add-owners acme-net {"users":["bob","nobody"]} -> A6
A7+A9 add-owners acme-net {"users":["bob"]} -> A8
A7+A9 add-owners acme-net {"users":["bob","nobody"]} -> A8
A9 add-owners acme-net {"users":["bob","nobody"]} -> A8
A9 add-owners acme-net {"users":["bob"]} -> A8
A2 remove-owners acme-net {"users":["bob"]} -> A2
A2 remove-owners acme-net {"users":["bob","carol"]} -> A2
A2 remove-owners acme-net {"users":["bob","ada","dan"]} -> A2
A3+A9 remove-owners acme-net {"users":["bob"]} -> A3
A3+A4+A9 remove-owners acme-net {"users":["bob"]} -> A3
A3+A6+A9 remove-owners acme-net {"users":["bob"]} -> A3
A3+A7+A9 remove-owners acme-net {"users":["bob"]} -> A3
A3+A9 remove-owners acme-net {"users":["bob","carol"]} -> A3
A3+A9 remove-owners acme-net {"users":["bob","ada","dan"]} -> A3
A4+A9 remove-owners acme-net {"users":["bob"]} -> A4
A4+A6+A9 remove-owners acme-net {"users":["bob"]} -> A4
A4+A7+A9 remove-owners acme-net {"users":["bob"]} -> A4
A4+A9 remove-owners acme-net {"users":["bob","carol"]} -> A4
A4+A9 remove-owners acme-net {"users":["bob","ada","dan"]} -> A4
A6+A9 remove-owners acme-net {"users":["bob"]} -> A6
A6+A7+A9 remove-owners acme-net {"users":["bob"]} -> A6
A6+A9 remove-owners acme-net {"users":["bob","carol"]} -> A6
A6+A9 remove-owners acme-net {"users":["bob","ada","dan"]} -> A6
A7+A9 remove-owners acme-net {"users":["bob"]} -> A8
A7+A9 remove-owners acme-net {"users":["bob","carol"]} -> A8
A7+A9 remove-owners acme-net {"users":["bob","ada","dan"]} -> A8
A9 remove-owners acme-net {"users":["bob","carol"]} -> A8
A9 remove-owners acme-net {"users":["ada","carol","bob","dan"]} -> A8
A9 remove-owners acme-net {"users":["bob","ada","dan"]} -> A8
A9 remove-owners acme-net {"users":["bob"]} -> A8
"#;

#[test]
fn hidden_crates(rt: HostRuntime) {
    play_rules(&rt, "", TOKENS, HIDDEN, HIDDEN_LINES);
}
