//! Restricted crates, their readers and strangers.

use crate::service::script::play;

#[test]
fn restricted_crate(rt: HostRuntime) {
    let script = r#"given two-accounts-and-a
crate-restrict a -> done
bob index 1/a -> A8
bob index 1/z -> A8
bob search  -> Json {"crates":[],"meta":{"total":0}}
ada search  -> Json {"crates":[{"description":null,"max_version":"0.1.0","name":"a"}],
    "meta":{"total":1}}
reader-add a bob -> done
bob index 1/a -> Text(175)
     {"cksum":"e3b0c44298fc1c149afbf4c8996fb92427ae41e4649b934ca495991b7852b855",
    "deps":[],"features":{},"links":null,"name":"a","rust_version":null,
    "vers":"0.1.0","yanked":false}<0a>"#;
    play(&rt, script);
}

#[test]
fn a_strangers_view(rt: HostRuntime) {
    let script = r#"given two-accounts-and-a
crate-restrict a -> done
bob index 1/a -> A8
bob index 1/z -> A8
bob download a 0.1.0 -> A8
bob owners a -> A8
bob search  -> Json {"crates":[],"meta":{"total":0}}
bob yank a 0.1.0 -> A8
bob release a 0.2.0 -> A9
ada download a 0.1.0 -> Archive(0) 
ada search  -> Json {"crates":[{"description":null,"max_version":"0.1.0","name":"a"}],
    "meta":{"total":1}}
reader-add a bob -> done
bob search  -> Json {"crates":[{"description":null,"max_version":"0.1.0","name":"a"}],
    "meta":{"total":1}}
bob yank a 0.1.0 -> A9
ada owners a -> Json {"users":[{"id":1,"login":"ada","name":"Ada"}]}
reader-remove a bob -> done
bob index 1/a -> A8
ada download a 0.1.0 -> Archive(0) 
crate-open a -> done
bob owners a -> Json {"users":[{"id":1,"login":"ada","name":"Ada"}]}
bob search  -> Json {"crates":[{"description":null,"max_version":"0.1.0","name":"a"}],
    "meta":{"total":1}}
ada yank a 0.1.0 -> Json {"ok":true}"#;
    play(&rt, script);
}

#[test]
fn restrict_and_readers(rt: HostRuntime) {
    let script = "given two-accounts-and-a
crate-restrict b -> G8
crate-restrict a -> done
crate-restrict a -> done
reader-add a carol -> G3
reader-add a bob -> done
reader-remove a ada -> done
access a ->        1  publish-update  ada<0a>       1  yank            ada<0a>
           1  change-owners   ada<0a>       -  read            bob<0a>";
    play(&rt, script);
}

#[test]
fn access_with_readers(rt: HostRuntime) {
    let script = "given two-accounts-and-a
reader-add a bob -> done
access a ->        1  publish-update  ada<0a>       1  yank            ada<0a>
           1  change-owners   ada<0a>
crate-restrict a -> done
access a ->        1  publish-update  ada<0a>       1  yank            ada<0a>
           1  change-owners   ada<0a>       -  read            bob<0a>";
    play(&rt, script);
}
