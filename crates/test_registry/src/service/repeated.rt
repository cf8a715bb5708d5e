//! Commands that are given once more: they change nothing.

use crate::service::script::play;

#[test]
fn once_more_changes_nothing(rt: HostRuntime) {
    // A revoked token stays one when its account is enabled again.
    let script = r#"given two-accounts-and-a
user-disable bob -> done
bob config -> A4
ada config -> Json {"api":"http://127.0.0.1:8080","auth-required":true,
    "dl":"http://127.0.0.1:8080/api/v1/crates"}
user-disable bob -> done
bob config -> A4
ada config -> Json {"api":"http://127.0.0.1:8080","auth-required":true,
    "dl":"http://127.0.0.1:8080/api/v1/crates"}
user-enable bob -> done
bob config -> Json {"api":"http://127.0.0.1:8080","auth-required":true,
    "dl":"http://127.0.0.1:8080/api/v1/crates"}
user-enable bob -> done
bob config -> Json {"api":"http://127.0.0.1:8080","auth-required":true,
    "dl":"http://127.0.0.1:8080/api/v1/crates"}
token-revoke 2 -> done
bob config -> A3
ada config -> Json {"api":"http://127.0.0.1:8080","auth-required":true,
    "dl":"http://127.0.0.1:8080/api/v1/crates"}
token-revoke 2 -> done
bob config -> A3
ada config -> Json {"api":"http://127.0.0.1:8080","auth-required":true,
    "dl":"http://127.0.0.1:8080/api/v1/crates"}
user-enable bob -> done
bob config -> A3"#;
    play(&rt, script);
}
