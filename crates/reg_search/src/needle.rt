//! What is searched for.

ghost use Rattle.std.specs.Prelude.{◌≡◌, IfOk};
ghost use Rattle.sqlite.specs.Order.{column};
ghost use Rattle.sqlite.specs.declared.types.Value.TheVariants.{Text};
ghost use Rattle.reg_model.specs.Search.{occurs};
ghost use Rattle.reg_search.specs.Rows.{is_match};

use memchr::memmem::Finder;
use sqlite::types::ValueRef;
use sqlite::{Error, Row};

fn occurs_in(needle: &Finder<'_>, text: &[u8]) -> bool
    ensures { result ≡ occurs needle.now text.now }
{
    needle.find(text).is_some()
}

/// Whether a row's canonical text, its first column, contains the needle.
pub(crate) fn is_match(needle: &Finder<'_>, row: &Row) -> Result<bool, Error>
    ensures { IfOk result (λ b. b ≡ is_match needle.now row.now) }
{
    match row.get_ref(0)? {
        ValueRef::Text(canon) => Ok(occurs_in(needle, canon)),
        _ => Err(Error::InvalidQuery),
    }
}
