//! Changes of owners, by their worked examples.

use crate::service::script::play;

#[test]
fn last_owner(rt: HostRuntime) {
    let script = r#"given two-accounts-and-a
user-disable bob -> done
ada add-owners a {"users":["bob"]} -> O2
ada remove-owners a {"users":["ada","ada"]} -> O4
user-enable bob -> done
ada add-owners a {"users":["bob"]} -> Json {"msg":"owners added","ok":true}
ada remove-owners a {"users":["ada","carol"]} -> O3
ada owners a -> Json
     {"users":[{"id":1,"login":"ada","name":"Ada"},{"id":2,"login":"bob","name":null}]}
ada add-owners a {"users":[]} -> O1
ada remove-owners a {"users":["ada"]} -> Json {"msg":"owners removed","ok":true}
ada owners a -> Json {"users":[{"id":2,"login":"bob","name":null}]}
ada yank a 0.1.0 -> A9"#;
    play(&rt, script);
}

#[test]
fn several_owners(rt: HostRuntime) {
    let script = r#"given two-accounts-and-a
user-add carol -> done
ada add-owners A {"users":["carol","bob","carol","ada"]} -> Json {"msg":"owners added","ok":true}
ada owners a -> Json {"users":[{"id":1,"login":"ada","name":"Ada"},
    {"id":2,"login":"bob","name":null},{"id":3,"login":"carol","name":null}]}
ada add-owners a {"users":["carol","nobody"]} -> O2
ada remove-owners a {"users":["carol","bob","bob"]} -> Json {"msg":"owners removed","ok":true}
ada owners a -> Json {"users":[{"id":1,"login":"ada","name":"Ada"}]}
ada remove-owners b {"users":["ada"]} -> A8
ada remove-owners a {"users":"ada"} -> O1"#;
    play(&rt, script);
}
