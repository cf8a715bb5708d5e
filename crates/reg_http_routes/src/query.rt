//! The query of a search.

ghost use Rattle.std.specs.Prelude.{◌≡◌, IfOk, option_map};
ghost use Rattle.std.specs.Cow.{cow_str_bytes};
ghost use Rattle.std.specs.Str.{bytes_eq};
ghost use Rattle.form_urlencoded.specs.Form.{raw_pairs as pairs_of};
ghost use Rattle.reg_api_requests.specs.Wants.{wants_of};
ghost use Rattle.reg_http_routes.specs.Queries.{decoded, first_value as value_in, search_wants};

use form_urlencoded::{decode, raw_pairs};
use reg_api_requests::ApiCall;
use std::alloc::{AllocError, Global};
use std::borrow::CowStr;

/// Whether the encoded name is this one.
fn is_name(alloc: Global, raw: &[u8], name: &str) -> Result<bool, AllocError>
    ensures { IfOk result (λ same. same ≡ bytes_eq (decoded raw.now) name.now) }
{
    let text = decode(alloc, raw)?;
    Ok(text.as_str() == name)
}

/// The value of the first pair of this name.
fn first_value<'b>(
    alloc: Global,
    query: &'b [u8],
    name: &str,
) -> Result<Option<CowStr<'b>>, AllocError>
    ensures { IfOk result (λ value. option_map cow_str_bytes value
        ≡ value_in name.now (pairs_of query.now)) }
{
    for (raw, value) in raw_pairs(query) {
        if is_name(alloc, raw, name)? {
            return Ok(Some(decode(alloc, value)?));
        }
    }
    Ok(None)
}

/// The search that a query asks for.
pub(crate) fn search<'b>(alloc: Global, query: &'b [u8]) -> Result<ApiCall<'b>, AllocError>
    ensures { IfOk result (λ call. wants_of call ≡ search_wants query.now) }
{
    let q = first_value(alloc, query, "q")?;
    let per_page = first_value(alloc, query, "per_page")?;
    Ok(ApiCall::Search { q, per_page })
}
