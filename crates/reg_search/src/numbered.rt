//! The hits of a walk, by the ids of their crates.

ghost use Rattle.std.specs.Prelude.{◌≡◌, ◌==◌, [], ◌∷◌, ◌++◌, true, IfOk, OnOk};
ghost use Rattle.std.specs.List.{list_any};
ghost use Rattle.std.specs.List.Sorted.{IsSorted};
ghost use Rattle.std.specs.Ordering.{nat_cmp};
ghost use Rattle.reg_search.specs.Rows.{AreHits, id_of, is_hit};

use crate::needle::is_match;
use memchr::memmem::Finder;
use sqlite::{Error, Row};

/// How many hits there are, and the ids of the first of them.
#[derive(Drop)]
pub(crate) struct Hits {
    pub(crate) total: u64,
    pub(crate) ids: Vec<u32>,
}

fn id_of(row: &Row) -> Result<u32, Error>
    ensures { IfOk result (λ id. id ≡ id_of row.now) }
{
    row.get(1)
}

/// Whether this id is among the hidden ones.
fn is_hidden(hidden: &[u32], id: u32) -> bool
    requires { IsSorted nat_cmp hidden.now }
    ensures { result ≡ list_any (λ n. n == id) hidden.now }
{
    hidden.binary_search(&id).is_ok()
}

impl Hits {
    /// Counts one more crate, and keeps its id while there are fewer than `most`.
    fn add(&mut self, id: u32, most: u32) -> Result<(), Error>
        ensures { OnOk result ((needle : _) (hidden : _) (rows : _) (row : _)
            → AreHits needle hidden most rows self.old → is_hit needle hidden row ≡ true
            → id ≡ id_of row → AreHits needle hidden most (rows ++ row ∷ []) self.new) }
    {
        self.total = match self.total.checked_add(1) {
            Some(total) => total,
            None => return Err(Error::InvalidQuery),
        };
        if self.ids.len() < most as usize {
            self.ids.push(id)?;
        }
        Ok(())
    }

    /// Looks at one more row, which counts if its text contains the needle and its crate is not
    /// hidden.
    pub(crate) fn look_at(
        &mut self,
        needle: &Finder<'_>,
        hidden: &[u32],
        row: &Row,
        most: u32,
    ) -> Result<(), Error>
        requires { IsSorted nat_cmp hidden.now }
        ensures { OnOk result ((rows : _) → AreHits needle.now hidden.now most rows self.old
            → AreHits needle.now hidden.now most (rows ++ row.now ∷ []) self.new) }
    {
        if is_match(needle, row)? {
            let id = id_of(row)?;
            if !is_hidden(hidden, id) {
                self.add(id, most)?;
            }
        }
        Ok(())
    }
}
