//! Owners who are disabled, named twice, or added by the administrator.

use crate::service::script::play;

#[test]
fn owners_are_changed_at_once(rt: HostRuntime) {
    // With a login that is unknown nobody is added. Who is an owner stays one, named twice or not.
    let script = r#"given two-accounts-and-a
ada add-owners a {"users":["bob","carol"]} -> O2
ada owners a -> Json {"users":[{"id":1,"login":"ada","name":"Ada"}]}
ada add-owners A {"users":["bob","ada","bob"]} -> Json {"msg":"owners added","ok":true}
ada owners a -> Json {"users":[{"id":1,"login":"ada","name":"Ada"},{"id":2,"login":"bob",
    "name":null}]}
ada remove-owners a {"users":["bob","ada"]} -> O4
ada owners a -> Json {"users":[{"id":1,"login":"ada","name":"Ada"},{"id":2,"login":"bob",
    "name":null}]}
ada remove-owners a {"users":["bob","bob"]} -> Json {"msg":"owners removed","ok":true}
ada owners a -> Json {"users":[{"id":1,"login":"ada","name":"Ada"}]}
ada remove-owners a {"users":["bob"]} -> O3
ada remove-owners a {"users":["ada","bob"]} -> O3
ada owners a -> Json {"users":[{"id":1,"login":"ada","name":"Ada"}]}"#;
    play(&rt, script);
}

#[test]
fn disabled_owners(rt: HostRuntime) {
    // Who is disabled is not added, though an owner already, and is removed.
    let script = r#"given two-accounts-and-a
ada add-owners a {"users":["bob"]} -> Json {"msg":"owners added","ok":true}
user-disable bob -> done
ada add-owners a {"users":["bob"]} -> O2
ada owners a -> Json {"users":[{"id":1,"login":"ada","name":"Ada"},{"id":2,"login":"bob",
    "name":null}]}
ada remove-owners a {"users":["bob"]} -> Json {"msg":"owners removed","ok":true}
ada owners a -> Json {"users":[{"id":1,"login":"ada","name":"Ada"}]}
ada add-owners a {"users":["bob"]} -> O2
ada owners a -> Json {"users":[{"id":1,"login":"ada","name":"Ada"}]}"#;
    play(&rt, script);
}

#[test]
fn owner_by_the_administrator(rt: HostRuntime) {
    // A disabled account too, and twice.
    let script = r#"given two-accounts-and-a
bob yank a 0.1.0 -> A9
user-disable bob -> done
owner-add A bob -> done
ada owners a -> Json {"users":[{"id":1,"login":"ada","name":"Ada"},{"id":2,"login":"bob",
    "name":null}]}
owner-add a bob -> done
ada owners a -> Json {"users":[{"id":1,"login":"ada","name":"Ada"},{"id":2,"login":"bob",
    "name":null}]}
user-enable bob -> done
bob yank a 0.1.0 -> Json {"ok":true}"#;
    play(&rt, script);
}
