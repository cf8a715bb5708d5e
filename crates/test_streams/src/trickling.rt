//! Heads that come in byte by byte.

use crate::script::play;

const HEADS_BYTE_BY_BYTE: &str = r#"given two-accounts
stream piece=1
> GET / HTTP/1.1
> host: r
>: x:<20>
repeat 16356 >: y
< HTTP/1.1 431 Request Header Fields Too Large
< content-type: application/json
< content-length: 51
< connection: close
<
<: {"errors":[{"detail":"H2 request head too large"}]}
= 1
stream piece=1
> GET / HTTP/1.1
> host: r
>: x:<20>
repeat 16352 >: y
>
>
< HTTP/1.1 404 Not Found
< content-type: application/json
< content-length: 42
<
<: {"errors":[{"detail":"H6 no such route"}]}
= 1
stream
>
> GET / HTTP/1.1
> host: r
>
< HTTP/1.1 404 Not Found
< content-type: application/json
< content-length: 42
<
<: {"errors":[{"detail":"H6 no such route"}]}
> GET / HTTP/1.1
> host: r
> host: r
>
< HTTP/1.1 400 Bad Request
< content-type: application/json
< content-length: 45
< connection: close
<
<: {"errors":[{"detail":"H1 bad request head"}]}
> GET / HTTP/1.1
> host: r
>
= 2
each cut"#;

#[test]
fn heads_byte_by_byte(rt: HostRuntime) {
    play(&rt, HEADS_BYTE_BY_BYTE);
}
