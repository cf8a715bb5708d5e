//! Which versions are yanked.

ghost use Rattle.std.specs.Prelude.{◌≡◌, ◌&&◌, OnErr, OnOk, string_bytes};
ghost use Rattle.std.specs.List.{list_any};
ghost use Rattle.std.specs.Str.{bytes_eq};
ghost use Rattle.std.specs.FinSet as set;
ghost use Rattle.reg_names.specs.Names.{canon as canon_of};

use reg_names::{CanonText, CrateName, canon};
use reg_policy::same_text;
use std::alloc::{AllocError, Global};
use std::marker::Model;

/// A yanked version of a crate.
#[derive(Drop)]
pub struct Mark {
    pub crate_text: CanonText,
    pub version: String,
}

/// A set of marks. What the list holds twice counts once.
#[derive(Drop)]
pub struct Marks {
    list: Vec<Mark>,
}

impl Model for Marks {
    ghost use Rattle.std.specs.Prelude.{map};
    ghost use Rattle.std.specs.Coded.{coded_list, coded_ℕ, coded×};
    ghost use Rattle.std.specs.FinSet as set;
    ghost use Rattle.reg_model.specs.Registry.{mark_cmp};

    ghost Value = { set.FinSet mark_cmp };

    ghost coded = { set.code (coded× (coded_list coded_ℕ) (coded_list coded_ℕ)) };

    ghost use Rattle.reg_reference_lists.specs.Sets.{mark_of};

    ghost view = { λ m. set.from_list (map mark_of m.list.items) };
}

/// Whether this is the mark with these parts.
fn is_mark(mark: &Mark, crate_text: &CanonText, version: &str) -> bool
    ensures { result ≡ (bytes_eq mark.now.crate_text crate_text.now && bytes_eq
        (string_bytes mark.now.version) version.now) }
{
    same_text(mark.crate_text.as_str(), crate_text.as_str())
        && same_text(mark.version.as_str(), version)
}

fn has_mark(marks: &[Mark], crate_text: &CanonText, version: &str) -> bool
    ensures { result ≡ list_any (λ m. bytes_eq m.crate_text crate_text.now && bytes_eq
        (string_bytes m.version) version.now) marks.now }
{
    marks.iter().any(|mark| is_mark(mark, crate_text, version))
}

impl Marks {
    /// No marks.
    pub fn new(alloc: Global) -> Marks
        ensures { result ≡ set.empty }
    {
        Marks {
            list: Vec::new(alloc),
        }
    }

    /// Whether the version is yanked.
    pub fn contains(&self, crate_text: &CanonText, version: &str) -> bool
        ensures { result ≡ set.contains self.now (crate_text.now, version.now) }
    {
        has_mark(self.list.as_slice(), crate_text, version)
    }

    /// Marks the version.
    pub fn insert(
        &mut self,
        alloc: Global,
        name: &CrateName,
        version: &str,
    ) -> Result<(), AllocError>
        ensures ok { OnOk result (self.new ≡ set.insert self.old (canon_of name.now, version.now)) }
        ensures err { OnErr result (self.new ≡ self.old) }
    {
        let version = String::from_str(alloc, version)?;
        self.list.push(Mark {
            crate_text: canon(name),
            version,
        })?;
        Ok(())
    }

    /// Removes the version's mark.
    pub fn remove(&mut self, name: &CrateName, version: &str)
        ensures { self.new ≡ set.remove self.old (canon_of name.now, version.now) }
    {
        let crate_text = canon(name);
        self.list
            .retain(|mark| !is_mark(mark, &crate_text, version));
    }
}
