//! What is judged of a request before its crate: its token, then its body.

use crate::service::script::play;

#[test]
fn reading_needs_no_scope(rt: HostRuntime) {
    let script = r#"given two-accounts-and-a
bob config -> Json {"api":"http://127.0.0.1:8080","auth-required":true,
    "dl":"http://127.0.0.1:8080/api/v1/crates"}
bob search per_page=10 -> Json {"crates":[{"description":null,"max_version":"0.1.0","name":"a"}],
    "meta":{"total":1}}
bob index 1/a -> Text(175)
     {"cksum":"e3b0c44298fc1c149afbf4c8996fb92427ae41e4649b934ca495991b7852b855",
    "deps":[],"features":{},"links":null,"name":"a","rust_version":null,
    "vers":"0.1.0","yanked":false}<0a>
bob index 1/b -> A8
bob index a -> A8
bob download a 0.1.0 -> Archive(0) 
bob owners a -> Json {"users":[{"id":1,"login":"ada","name":"Ada"}]}
bob owners A -> Json {"users":[{"id":1,"login":"ada","name":"Ada"}]}
bob owners b -> A8
bob|owners|a b -> A8"#;
    play(&rt, script);
}

/// Bob's token has not all endpoints, and there is no crate: what is broken behind comes later.
const BODIES: &str = r#"given two-accounts archive=3
bob publish-bytes 1b0000 -> B1
bob publish-bytes 1b0000007b226e616d65223a2261222c2276657273223a22302e312e30227d0000000000 -> B2
bob release a 0.1.0 abcd -> B3
bob publish { -> B4
bob publish [] -> B5
bob release 1a 0.1.0 -> N1
bob release a 1.0 -> V1
bob publish {"name":"a","vers":"0.1.0","deps":[{"name":"","version_req":"1"}]} -> M1
bob add-owners a {"users":[]} -> O1
bob search per_page=0 -> Q1
no-token publish-bytes 1b0000 -> A1
no-token publish-bytes 1b0000007b226e616d65223a2261222c2276657273223a22302e312e30227d0000000000
     -> A1
no-token release a 0.1.0 abcd -> A1
no-token publish { -> A1
no-token publish [] -> A1
no-token release 1a 0.1.0 -> A1
no-token release a 1.0 -> A1
no-token publish {"name":"a","vers":"0.1.0","deps":[{"name":"","version_req":"1"}]} -> A1
no-token add-owners a {"users":[]} -> A1
no-token search per_page=0 -> A1
abd publish-bytes 1b0000 -> A2
abd publish-bytes 1b0000007b226e616d65223a2261222c2276657273223a22302e312e30227d0000000000 -> A2
abd release a 0.1.0 abcd -> A2
abd publish { -> A2
abd publish [] -> A2
abd release 1a 0.1.0 -> A2
abd release a 1.0 -> A2
abd publish {"name":"a","vers":"0.1.0","deps":[{"name":"","version_req":"1"}]} -> A2
abd add-owners a {"users":[]} -> A2
abd search per_page=0 -> A2
user-disable bob -> done
bob publish-bytes 1b0000 -> A4
bob publish-bytes 1b0000007b226e616d65223a2261222c2276657273223a22302e312e30227d0000000000 -> A4
bob release a 0.1.0 abcd -> A4
bob publish { -> A4
bob publish [] -> A4
bob release 1a 0.1.0 -> A4
bob release a 1.0 -> A4
bob publish {"name":"a","vers":"0.1.0","deps":[{"name":"","version_req":"1"}]} -> A4
bob add-owners a {"users":[]} -> A4
bob search per_page=0 -> A4
token-revoke 2 -> done
bob publish-bytes 1b0000 -> A3
bob publish-bytes 1b0000007b226e616d65223a2261222c2276657273223a22302e312e30227d0000000000 -> A3
bob release a 0.1.0 abcd -> A3
bob publish { -> A3
bob publish [] -> A3
bob release 1a 0.1.0 -> A3
bob release a 1.0 -> A3
bob publish {"name":"a","vers":"0.1.0","deps":[{"name":"","version_req":"1"}]} -> A3
bob add-owners a {"users":[]} -> A3
bob search per_page=0 -> A3"#;

#[test]
fn bodies_are_judged_after_access(rt: HostRuntime) {
    play(&rt, BODIES);
}
