//! A denied body is no request, however its bytes come and go.

use crate::script::play;

const A_DENIED_BODY_IS_NO_REQUEST: &str = r#"given two-accounts-and-a
stream
> PUT /api/v1/crates/new HTTP/1.1
> host: r
> authorization: abcdbcdecdefdefgefghfghighijhijkijkljklmklmnlmnomnopnopq
> content-length: 111
>
>: <1b000000>{"name":"b","vers":"0.1.0"}<4c000000>
> DELETE /api/v1/crates/a/0.1.0/yank HTTP/1.1
> host: r
> authorization: abc
>
< HTTP/1.1 403 Forbidden
< content-type: application/json
< content-length: 56
<
<: {"errors":[{"detail":"A6 endpoint not in token scope"}]}
> GET /index/1/a HTTP/1.1
> host: r
> authorization: abc
>
< HTTP/1.1 200 OK
< content-type: text/plain
< content-length: 175
<
<: {"cksum":"e3b0c44298fc1c149afbf4c8996fb92427ae41e4649b934ca495991b7852b855","deps":[],
    "features":{},"links":null,"name":"a","rust_version":null,"vers":"0.1.0","yanked":false}<0a>
= 2
each cut
each end
each failing read
each failing write"#;

#[test]
fn a_denied_body_is_no_request(rt: HostRuntime) {
    play(&rt, A_DENIED_BODY_IS_NO_REQUEST);
}
