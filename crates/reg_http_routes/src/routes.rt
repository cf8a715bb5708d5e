//! The routes of the registry.

ghost use Rattle.std.specs.Prelude.{◌≡◌, IfOk, IfSome, option_copied, option_map};
ghost use Rattle.reg_http_read.specs.Reads.{facts_of};
ghost use Rattle.reg_http_routes.specs.Routed.{IsRouted};
ghost use Rattle.reg_http_routes.specs.Routing.{routing_of};
ghost use Rattle.reg_http_routes.specs.Table.{place_of, table, with_route};
ghost use Rattle.reg_http_routes.specs.Taken.{Took, taken};

use crate::calls::call_at;
use crate::fault::RouteFault;
use crate::place::{Place, are_with};
use crate::target::split;
use matchit::{Params, Router};
use reg_api_requests::ApiRequest;
use reg_http_read::Head;
use std::alloc::{AllocError, Global};

/// All routes.
#[derive(Drop)]
pub struct Routes {
    router: Router<Place>,
    ghost whole: { router ≡ table },
}

/// The router with one more route. All routes are well formed and none is there twice, so only
/// memory can run out.
fn add(mut router: Router<Place>, route: &str, place: Place) -> Result<Router<Place>, AllocError>
    ensures { IfOk result (λ new. new ≡ with_route route.now place router) }
{
    let Ok(()) = router.insert(route, place) else {
        return Err(AllocError);
    };
    Ok(router)
}

impl Routes {
    /// The table of all routes.
    pub fn new(alloc: Global) -> Result<Routes, AllocError> {
        let router = Router::new(alloc);
        let router = add(router, "/index/{*rest}", Place::Index)?;
        let router = add(router, "/api/v1/crates", Place::Crates)?;
        let router = add(router, "/api/v1/crates/new", Place::New)?;
        let router = add(router, "/api/v1/crates/{crate}/owners", Place::Owners)?;
        let router = add(router, "/api/v1/crates/{crate}/{version}/yank", Place::Yank)?;
        let router = add(
            router,
            "/api/v1/crates/{crate}/{version}/unyank",
            Place::Unyank,
        )?;
        let router = add(
            router,
            "/api/v1/crates/{crate}/{version}/download",
            Place::Download,
        )?;
        Ok(Routes { router })
    }

    /// Where a path leads, and what the parameters of its route took.
    fn place<'p>(&self, path: &'p str) -> Option<(Place, Params<'_, 'p>)>
        ensures place { option_map (λ found. found.0) result ≡ place_of path.now }
        ensures params { IfSome result (λ found. Took found.0 path.now (taken found.1)) }
    {
        match self.router.at(path) {
            Ok(found) => Some((*found.value, found.params)),
            Err(_) => None,
        }
    }

    /// Routes a request, given its head and its body.
    pub fn route<'b>(
        &self,
        alloc: Global,
        head: &Head<'b>,
        body: &'b [u8],
    ) -> Result<ApiRequest<'b>, RouteFault>
        ensures { IsRouted (option_copied head.now.token) (routing_of (facts_of head.now) body.now)
            result }
    {
        let (path, _) = split(head.target);
        let Some((place, params)) = self.place(path) else {
            return Err(RouteFault::NoRoute);
        };
        let methods = place.methods();
        if !are_with(methods, head.method) {
            return Err(RouteFault::Method(methods));
        }
        Ok(ApiRequest {
            token: head.token,
            call: call_at(alloc, place, &params, head.method, head.target, body)?,
        })
    }
}
