//! What a request calls for at a place.

ghost use Rattle.std.specs.Prelude.{◌≡◌, IfOk};
ghost use Rattle.std.specs.Cow.{cow_slice_items};
ghost use Rattle.reg_api_requests.specs.Wants.{wants_of};
ghost use Rattle.reg_http_routes.specs.Routing.{index_wants, owners_wants, wants_at};
ghost use Rattle.reg_http_routes.specs.Taken.{Took, taken};
ghost use Rattle.reg_http_routes.specs.Targets.{path_of};

use crate::place::{Place, is_method};
use crate::query::search;
use crate::target::{part, split};
use http::Method;
use matchit::Params;
use reg_api_requests::ApiCall;
use std::alloc::{AllocError, Global};
use std::borrow::CowSlice;

/// The parameters of the routes, by their names in the table.
const REST: &str = "rest";

const CRATE: &str = "crate";

const VERSION: &str = "version";

/// The config, or an index file.
fn index(rest: CowSlice<'_, u8>) -> ApiCall<'_>
    ensures { wants_of result ≡ index_wants (cow_slice_items rest.entry) }
{
    if rest.as_slice() == b"config.json".as_slice() {
        ApiCall::Config
    } else {
        ApiCall::Index(rest)
    }
}

/// The call that lists, adds or removes a crate's owners.
fn owners<'b>(method: &str, name: CowSlice<'b, u8>, body: &'b [u8]) -> ApiCall<'b>
    ensures { wants_of result ≡ owners_wants method.now (cow_slice_items name.entry) body.now }
{
    if is_method(method, &Method::GET) {
        ApiCall::ListOwners(name)
    } else if is_method(method, &Method::PUT) {
        ApiCall::AddOwners(name, body)
    } else {
        ApiCall::RemoveOwners(name, body)
    }
}

/// The call at the place, by a method that it has and what the parameters of its route took.
pub(crate) fn call_at<'b>(
    alloc: Global,
    place: Place,
    params: &Params<'_, 'b>,
    method: &str,
    target: &'b str,
    body: &'b [u8],
) -> Result<ApiCall<'b>, AllocError>
    requires { Took place (path_of target.now) (taken params.now) }
    ensures { IfOk result (λ call. wants_of call
        ≡ wants_at place method.now target.now body.now) }
{
    Ok(match place {
        Place::Index => index(part(alloc, params, REST)?),
        Place::Crates => search(alloc, split(target).1.as_bytes())?,
        Place::New => ApiCall::Publish(body),
        Place::Owners => owners(method, part(alloc, params, CRATE)?, body),
        Place::Yank => ApiCall::Yank(part(alloc, params, CRATE)?, part(alloc, params, VERSION)?),
        Place::Unyank => ApiCall::Unyank(
            part(alloc, params, CRATE)?,
            part(alloc, params, VERSION)?,
        ),
        Place::Download => {
            ApiCall::Download(part(alloc, params, CRATE)?, part(alloc, params, VERSION)?)
        }
    })
}
