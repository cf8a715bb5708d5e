//! The lists and sets of the plain registry, as vectors that stand for those of the abstract one.
//!
//! A list is in the order of its ids, from 1 on; what a set's vector holds twice counts once.
//!
//! ```
//! let mut accounts = Accounts::new(alloc);
//! accounts.add(PlainAccount { login: parse_login("ada")?, name: None, enabled: true })?;
//! accounts.id_of("ada")                           // Some(1)
//! reserved.insert(&parse_name("Acme-Net")?)?;             // `reserved` is a `CrateTexts`
//! reserved.contains(&canon(&parse_name("acme_net")?))     // true
//! ```
#![tactic(auto)]

mod accounts;
mod crate_names;
mod crate_texts;
mod owners;
mod publications;
mod tokens;
mod tops;
mod yanked;

pub use accounts::{Accounts, PlainAccount};
pub use crate_texts::CrateTexts;
pub use owners::{Owners, PlainOwner};
pub use publications::{Publication, Publications, publication_from};
pub use tokens::{PlainToken, Tokens};
pub use yanked::{Mark, Marks};
