//! Limits other than the standard ones, and metadata at its limit.

use crate::script::play;

const INTERIM_LINE_AND_LIMITS: &str = r#"given two-accounts json=64 archive=192
stream
> PUT /api/v1/crates/new HTTP/1.1
> host: r
> authorization: abc
> content-length: 228
> expect: 100-continue
>
>: <1b000000>{"name":"a","vers":"0.1.0"}<c1000000>
repeat 3 >: xxxxxxxxxxxxxxxxxxxxxxxxxxxxxxxxxxxxxxxxxxxxxxxxxxxxxxxxxxxxxxxx
repeat 1 >: x
< HTTP/1.1 100 Continue
<
< HTTP/1.1 413 Content Too Large
< content-type: application/json
< content-length: 57
<
<: {"errors":[{"detail":"B3 metadata or archive too long"}]}
= 1
stream
> PUT /api/v1/crates/new HTTP/1.1
> host: r
> authorization: abc
> content-length: 227
> expect: 100-continue
>
>: <1b000000>{"name":"a","vers":"0.1.0"}<c0000000>
repeat 3 >: xxxxxxxxxxxxxxxxxxxxxxxxxxxxxxxxxxxxxxxxxxxxxxxxxxxxxxxxxxxxxxxx
< HTTP/1.1 100 Continue
<
< HTTP/1.1 200 OK
< content-type: application/json
< content-length: 69
<
<: {"warnings":{"invalid_badges":[],"invalid_categories":[],"other":[]}}
= 1
stream
> PUT /api/v1/crates/new HTTP/1.1
> host: r
> authorization: abc
> content-length: 265
> expect: 100-continue
>
< HTTP/1.1 413 Content Too Large
< content-type: application/json
< content-length: 51
< connection: close
<
<: {"errors":[{"detail":"H5 request body too large"}]}
= 1"#;

#[test]
fn interim_line_and_limits(rt: HostRuntime) {
    play(&rt, INTERIM_LINE_AND_LIMITS);
}

const LAST_REPLY: &str = r#"given two-accounts replies=2
stream
> GET /index/config.json HTTP/1.1
> host: r
> authorization: abc
>
< HTTP/1.1 200 OK
< content-type: application/json
< content-length: 95
<
<: {"api":"http://127.0.0.1:8080","auth-required":true,"dl":"http://127.0.0.1:8080/api/v1/crates"}
> GET /index/config.json HTTP/1.1
> host: r
> authorization: abc
>
< HTTP/1.1 200 OK
< content-type: application/json
< content-length: 95
< connection: close
<
<: {"api":"http://127.0.0.1:8080","auth-required":true,"dl":"http://127.0.0.1:8080/api/v1/crates"}
> GET / HTTP/1.1
> host: r
>
= 2"#;

#[test]
fn last_reply(rt: HostRuntime) {
    play(&rt, LAST_REPLY);
}

const LARGER_METADATA: &str = r#"given two-accounts
stream
> PUT /api/v1/crates/new HTTP/1.1
> host: r
> authorization: abc
> content-length: 4194313
>
>: <01004000>{"name":"a","vers":"0.1.0"}
repeat 4194278 >: <20>
>: <00000000>
< HTTP/1.1 413 Content Too Large
< content-type: application/json
< content-length: 57
<
<: {"errors":[{"detail":"B3 metadata or archive too long"}]}
= 1
stream
> PUT /api/v1/crates/new HTTP/1.1
> host: r
> authorization: abc
> content-length: 4194312
>
>: <00004000>{"name":"a","vers":"0.1.0"}
repeat 4194277 >: <20>
>: <00000000>
< HTTP/1.1 200 OK
< content-type: application/json
< content-length: 69
<
<: {"warnings":{"invalid_badges":[],"invalid_categories":[],"other":[]}}
= 1"#;

#[test]
fn larger_metadata(rt: HostRuntime) {
    play(&rt, LARGER_METADATA);
}

/// A query in a head as long as heads may be; then a line and a description of 4 MiB.
const GREATEST_TEXTS: &str = r#"given two-accounts
stream
>: GET /api/v1/crates?q=
repeat 16321 >: a
>  HTTP/1.1
> host: r
> authorization: abc
>
< HTTP/1.1 200 OK
< content-type: application/json
< content-length: 32
<
<: {"crates":[],"meta":{"total":0}}
> PUT /api/v1/crates/new HTTP/1.1
> host: r
> authorization: abc
> content-length: 4194312
>
>: <00004000>{"name":"a","vers":"0.1.0","links":"
repeat 65535 >: xxxxxxxxxxxxxxxxxxxxxxxxxxxxxxxxxxxxxxxxxxxxxxxxxxxxxxxxxxxxxxxx
repeat 26 >: x
>: "}<00000000>
< HTTP/1.1 200 OK
< content-type: application/json
< content-length: 69
<
<: {"warnings":{"invalid_badges":[],"invalid_categories":[],"other":[]}}
> GET /index/1/a HTTP/1.1
> host: r
> authorization: abc
>
< HTTP/1.1 200 OK
< content-type: text/plain
< content-length: 4194439
<
<: {"cksum":"e3b0c44298fc1c149afbf4c8996fb92427ae41e4649b934ca495991b7852b855",
    "deps":[],"features":{},"links":"
repeat 65535 <: xxxxxxxxxxxxxxxxxxxxxxxxxxxxxxxxxxxxxxxxxxxxxxxxxxxxxxxxxxxxxxxx
repeat 26 <: x
<: ","name":"a","rust_version":null,"vers":"0.1.0","yanked":false}<0a>
> PUT /api/v1/crates/new HTTP/1.1
> host: r
> authorization: abc
> content-length: 4194312
>
>: <00004000>{"name":"b","vers":"0.1.0","description":"
repeat 65535 >: xxxxxxxxxxxxxxxxxxxxxxxxxxxxxxxxxxxxxxxxxxxxxxxxxxxxxxxxxxxxxxxx
repeat 20 >: x
>: "}<00000000>
< HTTP/1.1 200 OK
< content-type: application/json
< content-length: 69
<
<: {"warnings":{"invalid_badges":[],"invalid_categories":[],"other":[]}}
> GET /api/v1/crates?q=b HTTP/1.1
> host: r
> authorization: abc
>
< HTTP/1.1 200 OK
< content-type: application/json
< content-length: 4194343
<
<: {"crates":[{"description":"
repeat 65535 <: xxxxxxxxxxxxxxxxxxxxxxxxxxxxxxxxxxxxxxxxxxxxxxxxxxxxxxxxxxxxxxxx
repeat 20 <: x
<: ","max_version":"0.1.0","name":"b"}],"meta":{"total":1}}
= 5"#;

#[test]
fn greatest_texts(rt: HostRuntime) {
    play(&rt, GREATEST_TEXTS);
}
