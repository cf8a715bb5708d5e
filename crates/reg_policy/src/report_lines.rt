//! A line for each entry of the administrator's reports, in columns.

ghost use Rattle.std.specs.Prelude.{◌≡◌, ◌++◌, [], IfOk, OnOk, map, string_bytes};
ghost use Rattle.std.specs.List.{filter};
ghost use Rattle.std.specs.Option.{option_map};
ghost use Rattle.reg_model.specs.Grants.{all_endpoints};
ghost use Rattle.reg_model.specs.Registry.{Account, Token};
ghost use Rattle.reg_model.specs.Reports.{crate_line, grant_line, reader_line, token_line, user_line, with_commas, word_of};
ghost use Rattle.reg_model.specs.Rules.{has_endpoint};

use crate::commas::{WithCommas, Word};
use crate::deciding::has_endpoint;
use reg_model::{Endpoint, Endpoints};
use reg_names::Pattern;
use std::alloc::{AllocError, Global};
use std::fmt;

/// The name of an endpoint scope (RFC 2947, "Endpoint scopes").
pub fn word_of(endpoint: Endpoint) -> &'static str
    ensures { result.now ≡ word_of endpoint }
{
    match endpoint {
        Endpoint::PublishNew => "publish-new",
        Endpoint::PublishUpdate => "publish-update",
        Endpoint::Yank => "yank",
        Endpoint::ChangeOwners => "change-owners",
    }
}

/// A number, padded on the left to a column of so many bytes. A longer number widens it.
#[derive(Drop)]
struct Right(usize, usize);

impl fmt::Display for Right {
    ghost use Rattle.std.specs.Prelude.{Some};
    ghost use Rattle.std.specs.Fmt.{decimal};
    ghost use Rattle.reg_model.specs.Reports.{right};

    ghost output = { λ column. Some (right column.0 (decimal column.1)) };

    fn fmt<W: fmt::Write>(&self, f: &mut fmt::Formatter<W>) -> fmt::Result {
        write!(f, "{:>1$}", self.1, self.0)
    }
}

/// A text, padded on the right to a column of so many bytes. A longer text widens it.
#[derive(Drop)]
struct Left<'a>(usize, &'a str);

impl fmt::Display for Left<'_> {
    ghost use Rattle.std.specs.Prelude.{Some};
    ghost use Rattle.reg_model.specs.Reports.{left};

    ghost output = { λ column. Some (left column.0 column.1.now) };

    fn fmt<W: fmt::Write>(&self, f: &mut fmt::Formatter<W>) -> fmt::Result {
        f.write_str(self.1)?;
        for _space in 0..self.0.saturating_sub(self.1.len()) {
            write!(f, " ")?;
        }
        Ok(())
    }
}

/// The endpoint scopes, in the order in which a line names them.
pub const ENDPOINTS: [Endpoint; 4] = [
    Endpoint::PublishNew,
    Endpoint::PublishUpdate,
    Endpoint::Yank,
    Endpoint::ChangeOwners,
];

fn members(alloc: Global, endpoints: &Endpoints) -> Result<Vec<Endpoint>, AllocError>
    ensures { IfOk result (λ held. held.items ≡ filter (has_endpoint endpoints.now) all_endpoints) }
{
    ENDPOINTS
        .iter()
        .copied()
        .filter(|endpoint| has_endpoint(endpoints, *endpoint))
        .collect(alloc)
}

impl Word for Endpoint {
    ghost text = { word_of };

    fn text(&self) -> &str {
        word_of(*self)
    }
}

/// What a reader's line shows in the token column.
const NO_TOKEN: &str = "       -";

/// An account: its id, login and state, and its name.
pub fn push_user_line(
    report: &mut String,
    id: u32,
    login: &str,
    name: Option<&str>,
    enabled: bool,
) -> Result<(), AllocError>
    ensures { let a : Account = record {
      login = login.now;
      name = option_map (λ n. n.now) name.entry;
      enabled = enabled;
    } in
        OnOk result (string_bytes report.new ≡ string_bytes report.old ++ user_line (id, a)) }
{
    let state = if enabled { "enabled" } else { "disabled" };
    let name = name.unwrap_or("-");
    writeln!(
        report,
        "{}  {}  {}  {name}",
        Right(8, id as usize),
        Left(32, login),
        Left(8, state)
    )
}

/// A token: its id, its account's login, its state, its endpoints and its patterns.
pub fn push_token_line(
    report: &mut String,
    id: u32,
    login: &str,
    live: bool,
    endpoints: &Endpoints,
    patterns: &[Pattern],
) -> Result<(), AllocError>
    // A line shows neither the digest nor the account of a token: any will do here.
    ensures { let t : Token = record {
      digest = [];
      account = 0;
      live = live;
      endpoints = endpoints.now;
      patterns = patterns.now;
    } in
        OnOk result (string_bytes report.new
        ≡ string_bytes report.old ++ token_line login.now (id, t)) }
{
    let state = if live { "live" } else { "revoked" };
    let held = members(*report.allocator(), endpoints)?;
    writeln!(
        report,
        "{}  {}  {}  {}  {}",
        Right(8, id as usize),
        Left(32, login),
        Left(7, state),
        WithCommas(&held),
        WithCommas(patterns)
    )
}

/// A crate: its name, how many versions it has, and the highest.
pub fn push_crate_line(
    report: &mut String,
    name: &str,
    count: usize,
    highest: &str,
) -> Result<(), AllocError>
    ensures { OnOk result (string_bytes report.new
        ≡ string_bytes report.old ++ crate_line name.now count highest.now) }
{
    writeln!(report, "{}  {}  {highest}", Left(64, name), Right(6, count))
}

/// What a token may do with a crate: its id, the endpoint, and its account's login.
pub fn push_grant_line(
    report: &mut String,
    token: u32,
    endpoint: Endpoint,
    login: &str,
) -> Result<(), AllocError>
    ensures { OnOk result (string_bytes report.new
        ≡ string_bytes report.old ++ grant_line (token, endpoint) login.now) }
{
    writeln!(
        report,
        "{}  {}  {login}",
        Right(8, token as usize),
        Left(14, word_of(endpoint))
    )
}

/// A reader of a crate: an account's login.
pub fn push_reader_line(report: &mut String, login: &str) -> Result<(), AllocError>
    ensures { OnOk result (string_bytes report.new
        ≡ string_bytes report.old ++ reader_line login.now) }
{
    writeln!(report, "{NO_TOKEN}  {}  {login}", Left(14, "read"))
}
