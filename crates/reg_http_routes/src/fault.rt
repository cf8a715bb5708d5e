//! Why a request is not routed.

use reg_api_replies::Methods;
use std::alloc::AllocError;

/// Why a request is not routed.
#[derive(Clone, Copy, PartialEq, Debug)]
pub enum RouteFault {
    /// No route has its path.
    NoRoute,
    /// The route has these methods, but not the request's.
    Method(Methods),
    /// Out of memory.
    Memory,
}

impl From<AllocError> for RouteFault {
    ghost use Rattle.std.specs.Prelude.{◌≡◌};
    ghost use Rattle.reg_http_routes.specs.declared.fault.RouteFault.TheVariants.{Memory};

    ghost from_gives = { λ _ fault. fault ≡ Memory };

    fn from(_: AllocError) -> RouteFault {
        RouteFault::Memory
    }
}
