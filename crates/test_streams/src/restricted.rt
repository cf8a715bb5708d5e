//! A restricted crate, seen by a stranger, a reader and its owner.

use crate::script::play;

const RESTRICTED_CRATE: &str = r#"given two-accounts-and-a
crate-restrict a -> done
stream
> GET /index/1/a HTTP/1.1
> host: r
> authorization: abcdbcdecdefdefgefghfghighijhijkijkljklmklmnlmnomnopnopq
>
< HTTP/1.1 404 Not Found
< content-type: application/json
< content-length: 42
<
<: {"errors":[{"detail":"A8 no such crate"}]}
> GET /index/1/z HTTP/1.1
> host: r
> authorization: abcdbcdecdefdefgefghfghighijhijkijkljklmklmnlmnomnopnopq
>
< HTTP/1.1 404 Not Found
< content-type: application/json
< content-length: 42
<
<: {"errors":[{"detail":"A8 no such crate"}]}
> GET /api/v1/crates HTTP/1.1
> host: r
> authorization: abcdbcdecdefdefgefghfghighijhijkijkljklmklmnlmnomnopnopq
>
< HTTP/1.1 200 OK
< content-type: application/json
< content-length: 32
<
<: {"crates":[],"meta":{"total":0}}
> GET /index/1/a HTTP/1.1
> host: r
> authorization: abc
>
< HTTP/1.1 200 OK
< content-type: text/plain
< content-length: 175
<
<: {"cksum":"e3b0c44298fc1c149afbf4c8996fb92427ae41e4649b934ca495991b7852b855","deps":[],
    "features":{},"links":null,"name":"a","rust_version":null,"vers":"0.1.0","yanked":false}<0a>
> GET /api/v1/crates HTTP/1.1
> host: r
> authorization: abc
>
< HTTP/1.1 200 OK
< content-type: application/json
< content-length: 85
<
<: {"crates":[{"description":null,"max_version":"0.1.0","name":"a"}],"meta":{"total":1}}
= 5
reader-add a bob -> done
stream
> GET /index/1/a HTTP/1.1
> host: r
> authorization: abcdbcdecdefdefgefghfghighijhijkijkljklmklmnlmnomnopnopq
>
< HTTP/1.1 200 OK
< content-type: text/plain
< content-length: 175
<
<: {"cksum":"e3b0c44298fc1c149afbf4c8996fb92427ae41e4649b934ca495991b7852b855","deps":[],
    "features":{},"links":null,"name":"a","rust_version":null,"vers":"0.1.0","yanked":false}<0a>
> GET /api/v1/crates HTTP/1.1
> host: r
> authorization: abcdbcdecdefdefgefghfghighijhijkijkljklmklmnlmnomnopnopq
>
< HTTP/1.1 200 OK
< content-type: application/json
< content-length: 85
<
<: {"crates":[{"description":null,"max_version":"0.1.0","name":"a"}],"meta":{"total":1}}
= 2"#;

#[test]
fn restricted_crate(rt: HostRuntime) {
    play(&rt, RESTRICTED_CRATE);
}

const A_STRANGERS_VIEW: &str = r#"given two-accounts-and-a
crate-restrict a -> done
stream
> GET /api/v1/crates/a/0.1.0/download HTTP/1.1
> host: r
> authorization: abcdbcdecdefdefgefghfghighijhijkijkljklmklmnlmnomnopnopq
>
< HTTP/1.1 404 Not Found
< content-type: application/json
< content-length: 42
<
<: {"errors":[{"detail":"A8 no such crate"}]}
> GET /api/v1/crates/a/owners HTTP/1.1
> host: r
> authorization: abcdbcdecdefdefgefghfghighijhijkijkljklmklmnlmnomnopnopq
>
< HTTP/1.1 404 Not Found
< content-type: application/json
< content-length: 42
<
<: {"errors":[{"detail":"A8 no such crate"}]}
> DELETE /api/v1/crates/a/0.1.0/yank HTTP/1.1
> host: r
> authorization: abcdbcdecdefdefgefghfghighijhijkijkljklmklmnlmnomnopnopq
>
< HTTP/1.1 404 Not Found
< content-type: application/json
< content-length: 42
<
<: {"errors":[{"detail":"A8 no such crate"}]}
> PUT /api/v1/crates/new HTTP/1.1
> host: r
> authorization: abcdbcdecdefdefgefghfghighijhijkijkljklmklmnlmnomnopnopq
> content-length: 35
>
>: <1b000000>{"name":"a","vers":"0.2.0"}<00000000>
< HTTP/1.1 403 Forbidden
< content-type: application/json
< content-length: 55
<
<: {"errors":[{"detail":"A9 not an owner of this crate"}]}
= 4
reader-add a bob -> done
stream
> DELETE /api/v1/crates/a/0.1.0/yank HTTP/1.1
> host: r
> authorization: abcdbcdecdefdefgefghfghighijhijkijkljklmklmnlmnomnopnopq
>
< HTTP/1.1 403 Forbidden
< content-type: application/json
< content-length: 55
<
<: {"errors":[{"detail":"A9 not an owner of this crate"}]}
= 1
reader-remove a bob -> done
stream
> GET /index/1/a HTTP/1.1
> host: r
> authorization: abcdbcdecdefdefgefghfghighijhijkijkljklmklmnlmnomnopnopq
>
< HTTP/1.1 404 Not Found
< content-type: application/json
< content-length: 42
<
<: {"errors":[{"detail":"A8 no such crate"}]}
= 1
crate-open a -> done
stream
> GET /index/1/a HTTP/1.1
> host: r
> authorization: abcdbcdecdefdefgefghfghighijhijkijkljklmklmnlmnomnopnopq
>
< HTTP/1.1 200 OK
< content-type: text/plain
< content-length: 175
<
<: {"cksum":"e3b0c44298fc1c149afbf4c8996fb92427ae41e4649b934ca495991b7852b855","deps":[],
    "features":{},"links":null,"name":"a","rust_version":null,"vers":"0.1.0","yanked":false}<0a>
> GET /api/v1/crates/a/owners HTTP/1.1
> host: r
> authorization: abcdbcdecdefdefgefghfghighijhijkijkljklmklmnlmnomnopnopq
>
< HTTP/1.1 200 OK
< content-type: application/json
< content-length: 47
<
<: {"users":[{"id":1,"login":"ada","name":"Ada"}]}
> GET /api/v1/crates/a/0.1.0/download HTTP/1.1
> host: r
> authorization: abcdbcdecdefdefgefghfghighijhijkijkljklmklmnlmnomnopnopq
>
< HTTP/1.1 200 OK
< content-type: application/octet-stream
< content-length: 0
<
= 3"#;

#[test]
fn a_strangers_view(rt: HostRuntime) {
    play(&rt, A_STRANGERS_VIEW);
}
