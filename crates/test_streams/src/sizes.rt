//! Bodies at the limits of their real size: the first limits, and those of today.

use crate::script::play;

const FIRST_LIMITS: &str = r#"given two-accounts json=1048576 archive=10485760
stream
> PUT /api/v1/crates/new HTTP/1.1
> host: r
> authorization: abc
> content-length: 10485796
> expect: 100-continue
>
>: <1b000000>{"name":"a","vers":"0.1.0"}<0100a000>
repeat 163840 >: xxxxxxxxxxxxxxxxxxxxxxxxxxxxxxxxxxxxxxxxxxxxxxxxxxxxxxxxxxxxxxxx
repeat 1 >: x
< HTTP/1.1 100 Continue
<
< HTTP/1.1 413 Content Too Large
< content-type: application/json
< content-length: 57
<
<: {"errors":[{"detail":"B3 metadata or archive too long"}]}
= 1
stream
> PUT /api/v1/crates/new HTTP/1.1
> host: r
> authorization: abc
> content-length: 10485795
> expect: 100-continue
>
>: <1b000000>{"name":"a","vers":"0.1.0"}<0000a000>
repeat 163840 >: xxxxxxxxxxxxxxxxxxxxxxxxxxxxxxxxxxxxxxxxxxxxxxxxxxxxxxxxxxxxxxxx
< HTTP/1.1 100 Continue
<
< HTTP/1.1 200 OK
< content-type: application/json
< content-length: 69
<
<: {"warnings":{"invalid_badges":[],"invalid_categories":[],"other":[]}}
= 1
stream
> PUT /api/v1/crates/new HTTP/1.1
> host: r
> authorization: abc
> content-length: 11534345
> expect: 100-continue
>
< HTTP/1.1 413 Content Too Large
< content-type: application/json
< content-length: 51
< connection: close
<
<: {"errors":[{"detail":"H5 request body too large"}]}
= 1"#;

#[test]
fn first_limits(rt: HostRuntime) {
    play(&rt, FIRST_LIMITS);
}

const LARGER_ARCHIVES: &str = r#"given two-accounts
stream
> PUT /api/v1/crates/new HTTP/1.1
> host: r
> authorization: abc
> content-length: 33554468
>
>: <1b000000>{"name":"a","vers":"0.1.0"}<01000002>
repeat 524288 >: xxxxxxxxxxxxxxxxxxxxxxxxxxxxxxxxxxxxxxxxxxxxxxxxxxxxxxxxxxxxxxxx
repeat 1 >: x
< HTTP/1.1 413 Content Too Large
< content-type: application/json
< content-length: 57
<
<: {"errors":[{"detail":"B3 metadata or archive too long"}]}
= 1"#;

#[test]
fn larger_archives(rt: HostRuntime) {
    play(&rt, LARGER_ARCHIVES);
}

const LARGER_ARCHIVE_TAKEN: &str = r#"given two-accounts
stream
> PUT /api/v1/crates/new HTTP/1.1
> host: r
> authorization: abc
> content-length: 33554467
>
>: <1b000000>{"name":"a","vers":"0.1.0"}<00000002>
repeat 524288 >: xxxxxxxxxxxxxxxxxxxxxxxxxxxxxxxxxxxxxxxxxxxxxxxxxxxxxxxxxxxxxxxx
< HTTP/1.1 200 OK
< content-type: application/json
< content-length: 69
<
<: {"warnings":{"invalid_badges":[],"invalid_categories":[],"other":[]}}
> GET /api/v1/crates/a/0.1.0/download HTTP/1.1
> host: r
> authorization: abc
>
< HTTP/1.1 200 OK
< content-type: application/octet-stream
< content-length: 33554432
<
repeat 524288 <: xxxxxxxxxxxxxxxxxxxxxxxxxxxxxxxxxxxxxxxxxxxxxxxxxxxxxxxxxxxxxxxx
= 2"#;

#[test]
fn larger_archive_taken(rt: HostRuntime) {
    play(&rt, LARGER_ARCHIVE_TAKEN);
}
