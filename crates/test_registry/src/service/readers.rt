//! Who sees a restricted crate: readers, strangers, owners.

use crate::service::script::play;

#[test]
fn readers_are_kept(rt: HostRuntime) {
    // Before the crate is restricted, while it is open again, and while the account is disabled.
    let script = "given two-accounts-and-a
crate-open a -> done
user-disable bob -> done
reader-add A bob -> done
reader-add a bob -> done
crate-restrict A -> done
user-enable bob -> done
bob download a 0.1.0 -> Archive(0) 
crate-open A -> done
crate-open a -> done
bob download a 0.1.0 -> Archive(0) 
crate-restrict a -> done
bob download A 0.1.0 -> Archive(0) 
reader-remove A bob -> done
reader-remove a bob -> done
bob download a 0.1.0 -> A8";
    play(&rt, script);
}

#[test]
fn a_strangers_requests(rt: HostRuntime) {
    let script = r#"given two-accounts-and-a
crate-restrict a -> done
bob index 1/a -> A8
bob index 1/z -> A8
bob download a 0.1.0 -> A8
bob owners a -> A8
bob yank a 0.1.0 -> A8
bob unyank a 0.1.0 -> A8
bob add-owners a {"users":["bob"]} -> A6
bob release a 0.2.0 -> A9
bob release A 0.2.0 -> N3
reader-add a bob -> done
bob index 1/a -> Text(175)
     {"cksum":"e3b0c44298fc1c149afbf4c8996fb92427ae41e4649b934ca495991b7852b855",
    "deps":[],"features":{},"links":null,"name":"a","rust_version":null,
    "vers":"0.1.0","yanked":false}<0a>
bob owners a -> Json {"users":[{"id":1,"login":"ada","name":"Ada"}]}
bob yank a 0.1.0 -> A9
bob release a 0.2.0 -> A9
reader-remove a bob -> done
bob index 1/a -> A8
bob yank a 0.1.0 -> A8
crate-open a -> done
bob owners a -> Json {"users":[{"id":1,"login":"ada","name":"Ada"}]}
bob download a 0.1.0 -> Archive(0) 
bob yank a 0.1.0 -> A9"#;
    play(&rt, script);
}

#[test]
fn an_owners_view(rt: HostRuntime) {
    // Ada sees the crate as long as she owns it, though she is no reader.
    let script = r#"given two-accounts-and-a
crate-restrict a -> done
reader-remove a ada -> done
ada owners a -> Json {"users":[{"id":1,"login":"ada","name":"Ada"}]}
ada download a 0.1.0 -> Archive(0) 
ada yank a 0.1.0 -> Json {"ok":true}
ada unyank A 0.1.0 -> Json {"ok":true}
ada release a 0.2.0 -> Json
     {"warnings":{"invalid_badges":[],"invalid_categories":[],"other":[]}}
ada add-owners a {"users":["bob"]} -> Json {"msg":"owners added","ok":true}
bob yank a 0.1.0 -> Json {"ok":true}
bob owners a -> Json {"users":[{"id":1,"login":"ada","name":"Ada"},{"id":2,"login":"bob",
    "name":null}]}
ada remove-owners a {"users":["ada"]} -> Json {"msg":"owners removed","ok":true}
ada owners a -> A8
ada add-owners a {"users":["ada"]} -> A8
ada release a 0.3.0 -> A9
bob download a 0.2.0 -> Archive(0) "#;
    play(&rt, script);
}

#[test]
fn access_by_another_spelling(rt: HostRuntime) {
    // Readers who are disabled are listed too.
    let script = "given two-accounts-and-a
reader-add a bob -> done
access a ->        1  publish-update  ada<0a>
           1  yank            ada<0a>
           1  change-owners   ada<0a>
crate-restrict a -> done
access A ->        1  publish-update  ada<0a>
           1  yank            ada<0a>
           1  change-owners   ada<0a>
           -  read            bob<0a>
reader-add a ada -> done
user-disable bob -> done
user-disable ada -> done
access a ->        -  read            ada<0a>
           -  read            bob<0a>";
    play(&rt, script);
}
