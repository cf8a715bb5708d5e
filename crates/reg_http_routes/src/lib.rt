//! Where a request leads: to a place of the registry, by its path, its method and its body.
//!
//! ```
//! let routes = Routes::new(alloc)?;
//! let request = routes.route(alloc, &head, body)?;  // GET /index/1/a
//! request.call                                      // ApiCall::Index, of b"1/a"
//! ```
#![tactic(auto)]

mod calls;
mod fault;
mod place;
mod query;
mod routes;
mod target;

pub use fault::RouteFault;
pub use routes::Routes;
