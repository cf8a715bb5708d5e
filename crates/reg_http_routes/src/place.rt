//! The places that paths lead to, and their methods.

ghost use Rattle.std.specs.Prelude.{◌≡◌};
ghost use Rattle.std.specs.Str.{bytes_eq};
ghost use Rattle.reg_http_routes.specs.Routing.{has_method, methods_of};

use http::Method;
use reg_api_replies::Methods;

/// A place that a path leads to.
#[derive(Clone, Copy, PartialEq, Eq, Debug, Drop)]
pub(crate) enum Place {
    Index,
    /// All crates, to be searched.
    Crates,
    /// A crate to be published, new or not.
    New,
    Owners,
    Yank,
    Unyank,
    Download,
}

impl Place {
    pub(crate) fn methods(self) -> Methods
        ensures { result ≡ methods_of self }
    {
        match self {
            Place::Index | Place::Crates | Place::Download => Methods::Get,
            Place::New | Place::Unyank => Methods::Put,
            Place::Yank => Methods::Delete,
            Place::Owners => Methods::GetPutDelete,
        }
    }
}

/// Whether the text is this method.
pub(crate) fn is_method(text: &str, method: &Method) -> bool
    ensures { result ≡ bytes_eq text.now method.now }
{
    text == method.as_str()
}

/// Whether the method is one of these.
pub(crate) fn are_with(methods: Methods, method: &str) -> bool
    ensures { result ≡ has_method methods method.now }
{
    match methods {
        Methods::Get => is_method(method, &Method::GET),
        Methods::Put => is_method(method, &Method::PUT),
        Methods::Delete => is_method(method, &Method::DELETE),
        Methods::GetPutDelete => {
            is_method(method, &Method::GET)
                || is_method(method, &Method::PUT)
                || is_method(method, &Method::DELETE)
        }
    }
}
