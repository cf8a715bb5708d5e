//! The states of tokens and of accounts.

use crate::service::script::play;

#[test]
fn token_states(rt: HostRuntime) {
    let script = r#"given two-accounts-and-a
no-token config -> A1
abd config -> A2
ada config -> Json {"api":"http://127.0.0.1:8080","auth-required":true,
    "dl":"http://127.0.0.1:8080/api/v1/crates"}
token-revoke 1 -> done
ada config -> A3
user-disable bob -> done
bob config -> A4
bob search per_page=0 -> A4
no-token search per_page=0 -> A1"#;
    play(&rt, script);
}
