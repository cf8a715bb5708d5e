//! Writers that fail, and turns that are used up.

use crate::script::play;

const FAILING_WRITER: &str = r#"given two-accounts-and-a
stream room=10 writes=1
> PUT /api/v1/crates/new HTTP/1.1
> host: r
> authorization: abc
> content-length: 35
>
>: <1b000000>{"name":"b","vers":"0.1.0"}<00000000>
<: HTTP/1.1 2
= WriteFault
stream
> GET /index/1/b HTTP/1.1
> host: r
> authorization: abc
>
< HTTP/1.1 200 OK
< content-type: text/plain
< content-length: 175
<
<: {"cksum":"e3b0c44298fc1c149afbf4c8996fb92427ae41e4649b934ca495991b7852b855","deps":[],
    "features":{},"links":null,"name":"b","rust_version":null,"vers":"0.1.0","yanked":false}<0a>
= 1"#;

#[test]
fn failing_writer(rt: HostRuntime) {
    play(&rt, FAILING_WRITER);
}

const TOO_MANY_TURNS: &str = r#"given two-accounts-and-a turns=2
stream piece=1
> PUT /api/v1/crates/new HTTP/1.1
> host: r
> authorization: abc
> content-length: 35
>
>: <1b000000>{"name":"b","vers":"0.1.0"}<00000000>
= TooManyTurns
stream
= 0"#;

#[test]
fn too_many_turns(rt: HostRuntime) {
    play(&rt, TOO_MANY_TURNS);
}

const WRITER_FAILS_AT_ONCE: &str = r#"given two-accounts-and-a
stream writes=0
> PUT /api/v1/crates/new HTTP/1.1
> host: r
> authorization: abcdbcdecdefdefgefghfghighijhijkijkljklmklmnlmnomnopnopq
> content-length: 111
>
>: <1b000000>{"name":"b","vers":"0.1.0"}<4c000000>
> DELETE /api/v1/crates/a/0.1.0/yank HTTP/1.1
> host: r
> authorization: abc
>
> GET /index/1/a HTTP/1.1
> host: r
> authorization: abc
>
= WriteFault
stream
> GET /index/1/a HTTP/1.1
> host: r
> authorization: abc
>
< HTTP/1.1 200 OK
< content-type: text/plain
< content-length: 175
<
<: {"cksum":"e3b0c44298fc1c149afbf4c8996fb92427ae41e4649b934ca495991b7852b855","deps":[],
    "features":{},"links":null,"name":"a","rust_version":null,"vers":"0.1.0","yanked":false}<0a>
= 1"#;

#[test]
fn writer_fails_at_once(rt: HostRuntime) {
    play(&rt, WRITER_FAILS_AT_ONCE);
}

const FAILING_READER: &str = r#"given two-accounts-and-a
stream reads=0
> GET /index/1/a HTTP/1.1
> host: r
> authorization: abc
>
= ReadFault
stream reads=1
> GET /index/1/a HTTP/1.1
> host: r
> authorization: abc
>
< HTTP/1.1 200 OK
< content-type: text/plain
< content-length: 175
<
<: {"cksum":"e3b0c44298fc1c149afbf4c8996fb92427ae41e4649b934ca495991b7852b855","deps":[],
    "features":{},"links":null,"name":"a","rust_version":null,"vers":"0.1.0","yanked":false}<0a>
= ReadFault"#;

#[test]
fn failing_reader(rt: HostRuntime) {
    play(&rt, FAILING_READER);
}
