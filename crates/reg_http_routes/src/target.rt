//! The parts of a request's target.

ghost use Rattle.std.specs.Prelude.{◌≡◌, IfOk};
ghost use Rattle.std.specs.Cow.{cow_slice_items};
ghost use Rattle.matchit.specs.Params.{AllText};
ghost use Rattle.reg_http_routes.specs.Taken.{param, taken};
ghost use Rattle.reg_http_routes.specs.Targets.{path_of, query_of};

use matchit::Params;
use percent_encoding::percent_decode;
use std::alloc::{AllocError, Global};
use std::borrow::CowSlice;

/// The path and the query.
pub(crate) fn split(target: &str) -> (&str, &str)
    ensures path { result.0.now ≡ path_of target.now }
    ensures query { result.1.now ≡ query_of target.now }
{
    match target.split_once('?') {
        Some(parts) => parts,
        None => (target, ""),
    }
}

/// What the parameter of this name took of the path, decoded only now that the path is matched.
pub(crate) fn part<'b>(
    alloc: Global,
    params: &Params<'_, 'b>,
    name: &str,
) -> Result<CowSlice<'b, u8>, AllocError>
    requires { AllText (taken params.now) }
    ensures { IfOk result (λ part. cow_slice_items part ≡ param name.now (taken params.now)) }
{
    percent_decode(params.get(name).unwrap_or("").as_bytes()).into_cow(alloc)
}
