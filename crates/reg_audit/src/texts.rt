//! Small tests that several checks share.

ghost use Rattle.std.specs.Prelude.{◌≡◌, ℕ, map};
ghost use Rattle.std.specs.Str.{bytes_eq};
ghost use Rattle.reg_audit.specs.Checks.{are_counted as are_counted_from};

use reg_tables::{Account, Token};

/// Something with an id.
pub(crate) trait HasId {
    ghost id_of: { Self → ℕ };

    fn id(&self) -> u32
        ensures { result ≡ id_of self.now };
}

impl HasId for Account {
    ghost id_of = { λ a. a.id };

    fn id(&self) -> u32 {
        self.id
    }
}

impl HasId for Token {
    ghost id_of = { λ t. t.id };

    fn id(&self) -> u32 {
        self.id
    }
}

/// Whether the ids are 1 to their count, in this order.
pub(crate) fn are_counted<T: HasId>(list: &[T]) -> bool
    ensures { result ≡ are_counted_from 1 (map T.HasId.id_of list.now) }
{
    for (index, it) in list.iter().enumerate() {
        if it.id() as usize != index + 1 {
            return false;
        }
    }
    true
}

/// Whether two texts are the same.
pub(crate) fn same_text(one: &str, other: &str) -> bool
    ensures { result ≡ bytes_eq one.now other.now }
{
    one == other
}
