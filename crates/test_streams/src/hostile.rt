//! A body whose length is not told.

use crate::script::play;

const A_BODY_WITHOUT_A_LENGTH: &str = r#"given two-accounts
stream
> PUT /api/v1/crates/new HTTP/1.1
> host: r
> authorization: abc
>
>: <1b000000>{"name":"a","vers":"0.1.0"}<00000000>
< HTTP/1.1 400 Bad Request
< content-type: application/json
< content-length: 51
<
<: {"errors":[{"detail":"B1 publish body too short"}]}
= 1
stream
> GET /index/1/a HTTP/1.1
> host: r
> authorization: abc
>
< HTTP/1.1 404 Not Found
< content-type: application/json
< content-length: 42
<
<: {"errors":[{"detail":"A8 no such crate"}]}
= 1"#;

#[test]
fn a_body_without_a_length(rt: HostRuntime) {
    play(&rt, A_BODY_WITHOUT_A_LENGTH);
}
