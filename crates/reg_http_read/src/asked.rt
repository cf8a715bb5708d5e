//! What the fields of a head ask for.

ghost use Rattle.std.specs.Prelude.{◌≡◌, codes, map};
ghost use Rattle.httparse.specs.Borrowed.{header_parts};
ghost use Rattle.reg_http_read.specs.Fields as spec;
ghost use Rattle.reg_http_read.specs.Heads.{greatest_body};
ghost use Rattle.reg_http_read.specs.Reads.{HasAsked, IsAsked};

use crate::fields::{body_length, count_listing, count_named, count_with, only_value};
use httparse::Header;
use reg_body::Limits;
use reg_model::Rule;

/// What the fields of a head ask for.
#[derive(Clone, Copy)]
pub(crate) struct FieldsAsked<'b> {
    pub token: Option<&'b [u8]>,
    pub body_len: u64,
    pub interim: bool,
    pub close: bool,
}

/// Whether the client awaits the interim line.
fn expects(fields: &[Header<'_>]) -> bool
    ensures { result ≡ spec.expects (map header_parts fields.now) }
{
    count_with(fields, b"expect", b"100-continue") > 0
}

/// Whether the connection is to close after the reply.
fn closes(fields: &[Header<'_>]) -> bool
    ensures { result ≡ spec.closes (map header_parts fields.now) }
{
    count_listing(fields, b"connection", b"close") > 0
}

fn are_hosts_fit(fields: &[Header<'_>], minor: u8) -> bool
    ensures { result ≡ spec.hosts_fit minor
        (spec.count_named (codes "host") (map header_parts fields.now)) }
{
    let hosts = count_named(fields, b"host");
    if minor == 1 { hosts == 1 } else { hosts <= 1 }
}

/// What the fields ask for, given the length of the body.
fn ask<'b>(fields: &[Header<'b>], minor: u8, body_len: u64) -> FieldsAsked<'b>
    ensures { HasAsked result (spec.asked_for minor (map header_parts fields.now) body_len) }
{
    FieldsAsked {
        token: only_value(fields, b"authorization"),
        body_len,
        interim: minor == 1 && body_len > 0 && expects(fields),
        close: minor != 1 || closes(fields),
    }
}

/// What the fields ask for, or the first rule that they break.
pub(crate) fn judge_fields<'b>(
    fields: &[Header<'b>],
    minor: u8,
    limits: &Limits,
) -> Result<FieldsAsked<'b>, Rule>
    ensures { IsAsked result (spec.judge_fields limits.now.fields (greatest_body limits.now) minor
        (map header_parts fields.now)) }
{
    if fields.len() > limits.fields as usize {
        return Err(Rule::H2);
    }
    if !are_hosts_fit(fields, minor) {
        return Err(Rule::H1);
    }
    if count_named(fields, b"transfer-encoding") > 0 {
        return Err(Rule::H3);
    }
    let Some(body_len) = body_length(fields) else {
        return Err(Rule::H4);
    };
    if body_len > limits.greatest_body() {
        return Err(Rule::H5);
    }
    Ok(ask(fields, minor, body_len))
}
