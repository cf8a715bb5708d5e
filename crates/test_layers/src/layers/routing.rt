//! Routes with each amount of memory.
//!
//! A line of the script is a method and a target, an arrow, and what is asked for or refused, its
//! parts between bars.

use crate::layers::memory::{Call, each_amount, try_each};
use reg_api_replies::Methods;
use reg_api_requests::{ApiCall, ApiRequest};
use reg_body::Limits;
use reg_http_read::{Head, HeadRead, read_head};
use reg_http_routes::{RouteFault, Routes};
use std::alloc::{AllocError, Global};
use std::borrow::CowStr;
use std::test::Fail;

/// Each route, with parts that are decoded and parts that are not; what has no route, and methods
/// that a route lacks.
const ROUTES: &str = "GET /index/config.json -> config
GET /index/%63onfig.json -> config
GET /index/1/a -> index|1/a
GET /index/1/%61 -> index|1/a
GET /index/2/a%62 -> index|2/ab
GET /index/3/a/a%62c -> index|3/a/abc
GET /index/ac/%6De/acme%2dnet -> index|ac/me/acme-net
GET /index/ac%2fme%2Facme+net?q=%61 -> index|ac/me/acme+net
GET /api/v1/crates -> search|-|-
GET /api/v1/crates?q=acme&per_page=20 -> search|acme|20
GET /api/v1/crates?q=a+name%20of%20two%20words&per_page=%32%30 -> search|a name of two words|20
GET /api/v1/crates?%71=a&q=b -> search|a|-
PUT /api/v1/crates/new -> publish|body
GET /api/v1/crates/a/0.1.0/download -> download|a|0.1.0
GET /api/v1/crates/%61/0.1.0%2Bb/download -> download|a|0.1.0+b
DELETE /api/v1/crates/a/0.1.0/yank -> yank|a|0.1.0
DELETE /api/v1/crates/%61/0%2e1.0/yank -> yank|a|0.1.0
PUT /api/v1/crates/a/0.1.0/unyank -> unyank|a|0.1.0
PUT /api/v1/crates/%61/0%2e1.0/unyank -> unyank|a|0.1.0
GET /api/v1/crates/a/owners -> owners|a
GET /api/v1/crates/%61/owners -> owners|a
PUT /api/v1/crates/%61/owners -> add|a|body
DELETE /api/v1/crates/%61/owners -> remove|a|body
GET /me -> H6
GET / -> H6
GET /index/ -> H6
PUT /api/v1/crates/a/0.1.0/ -> H6
POST /index/1/a -> H7|GET
PUT /api/v1/crates?q=%61 -> H7|GET
GET /api/v1/crates/new -> H7|PUT
POST /api/v1/crates/a/owners -> H7|GET, PUT, DELETE
PUT /api/v1/crates/a/0.1.0/download -> H7|GET
GET /api/v1/crates/a/0.1.0/yank -> H7|DELETE
DELETE /api/v1/crates/a/0.1.0/unyank -> H7|PUT";

/// Whether what is told is this word with up to two parts.
fn is_told(told: &str, word: &str, one: &[u8], other: &[u8]) -> bool {
    let (first, rest) = told.split_once('|').unwrap_or((told, ""));
    let (second, third) = rest.split_once('|').unwrap_or((rest, ""));
    first == word && second.as_bytes() == one && third.as_bytes() == other
}

fn given<'a>(text: &'a Option<CowStr<'_>>) -> &'a [u8] {
    match text {
        Some(text) => text.as_str().as_bytes(),
        None => b"-",
    }
}

/// Whether this is what is asked for.
fn is_asked(call: &ApiCall<'_>, told: &str) -> bool {
    match call {
        ApiCall::Config => is_told(told, "config", b"", b""),
        ApiCall::Index(path) => is_told(told, "index", path.as_slice(), b""),
        ApiCall::Download(name, vers) => {
            is_told(told, "download", name.as_slice(), vers.as_slice())
        }
        ApiCall::Yank(name, vers) => is_told(told, "yank", name.as_slice(), vers.as_slice()),
        ApiCall::Unyank(name, vers) => is_told(told, "unyank", name.as_slice(), vers.as_slice()),
        ApiCall::ListOwners(name) => is_told(told, "owners", name.as_slice(), b""),
        ApiCall::Publish(body) => is_told(told, "publish", body, b""),
        ApiCall::AddOwners(name, body) => is_told(told, "add", name.as_slice(), body),
        ApiCall::RemoveOwners(name, body) => is_told(told, "remove", name.as_slice(), body),
        ApiCall::Search { q, per_page } => is_told(told, "search", given(q), given(per_page)),
    }
}

fn allowed(methods: Methods) -> &'static [u8] {
    match methods {
        Methods::Get => b"GET",
        Methods::Put => b"PUT",
        Methods::Delete => b"DELETE",
        Methods::GetPutDelete => b"GET, PUT, DELETE",
    }
}

/// Whether a request of token `abc` is routed as told.
fn is_right(answer: &Result<ApiRequest<'_>, RouteFault>, told: &str) -> Result<bool, AllocError> {
    match answer {
        Ok(request) => {
            Ok(request.token == Some(b"abc".as_slice()) && is_asked(&request.call, told))
        }
        Err(RouteFault::NoRoute) => Ok(told == "H6"),
        Err(RouteFault::Method(methods)) => Ok(is_told(told, "H7", allowed(*methods), b"")),
        Err(RouteFault::Memory) => Err(AllocError),
    }
}

fn is_routed(
    alloc: Global,
    routes: &Routes,
    head: &Head<'_>,
    told: &str,
) -> Result<bool, AllocError> {
    let answer = routes.route(alloc, head, b"body");
    is_right(&answer, told)
}

fn head_of(alloc: Global, bytes: &[u8]) -> Result<Head<'_>, Fail> {
    match read_head(alloc, bytes, &Limits::STANDARD)? {
        HeadRead::Head(head) => Ok(head),
        _ => Err("no head")?,
    }
}

/// The routing of a request that is told of.
#[derive(Clone, Copy)]
struct RoutingTold<'a> {
    routes: &'a Routes,
    head: &'a Head<'a>,
    told: &'a str,
}

impl Call for RoutingTold<'_> {
    fn answers(&self, alloc: Global) -> Result<bool, AllocError> {
        is_routed(alloc, self.routes, self.head, self.told)
    }
}

/// Whether a line of the script holds with each amount of memory; for some it is too little
/// exactly if something is decoded.
fn holds(alloc: Global, routes: &Routes, line: &str) -> Result<bool, Fail> {
    let (asked, told) = line.split_once(" -> ").unwrap_or((line, "no arrow"));
    let bytes = format!(in alloc; "{asked} HTTP/1.1\r\nhost: r\r\nauthorization: abc\r\n\r\n")?;
    let head = &head_of(alloc, bytes.as_bytes())?;
    let tally = each_amount(alloc, 16, &RoutingTold { routes, head, told })?;
    let decodes = !told.starts_with('H') && asked.contains(['%', '+']);
    Ok(tally.is_right_if(decodes))
}

#[test]
fn routing(rt: HostRuntime) -> Result<(), Fail> {
    let routes = Routes::new(rt.alloc())?;
    for line in ROUTES.lines() {
        let is_right = holds(rt.alloc(), &routes, line)?;
        assert!(rt; is_right, "{line}");
    }
    Ok(())
}

/// The making of routes for a request.
#[derive(Clone, Copy)]
struct MakingRoutes<'a>(&'a Head<'a>);

impl Call for MakingRoutes<'_> {
    fn answers(&self, alloc: Global) -> Result<bool, AllocError> {
        let routes = Routes::new(alloc)?;
        is_routed(alloc, &routes, self.0, "index|1/a")
    }
}

#[test]
fn making_routes(rt: HostRuntime) -> Result<(), Fail> {
    let bytes = b"GET /index/1/%61 HTTP/1.1\r\nhost: r\r\nauthorization: abc\r\n\r\n";
    let head = head_of(rt.alloc(), bytes)?;
    try_each(&rt, 64, &MakingRoutes(&head));
    Ok(())
}
