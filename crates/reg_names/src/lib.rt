//! The names of a registry: crate names, logins, and the scopes of tokens.
//!
//! Each is a small value that takes no heap memory, made from a text only by its parser. A crate
//! name gives its index path and its canonical text, which two spellings of one crate share.
//!
//! ```
//! let name = parse_name("Cargo-Tools")?;
//! index_path(&name).as_str()                      // ca/rg/cargo-tools
//! canon(&name).as_str()                           // cargo_tools
//! covers(&Pattern::parse("cargo_*")?, &name)      // true
//! ```
#![tactic(auto)]

mod canonical;
mod endpoint;
pub mod laws;
mod login;
mod name;
mod path;
mod pattern;
mod range;

pub use canonical::{CanonText, canon, canon_byte, canon_text, collides};
pub use endpoint::{Endpoint, Endpoints};
pub use login::{Login, parse_login};
pub use name::{CrateName, lower, parse_name};
pub use path::{LONGEST_PATH, PathText, index_path, name_of_path};
pub use pattern::{Pattern, covers};
pub use range::{NameRange, compile, in_range};
