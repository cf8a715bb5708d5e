//! Crates by their canonical texts: those that are reserved, and those that are restricted.

ghost use Rattle.std.specs.Prelude.{◌≡◌, OnErr, OnOk};
ghost use Rattle.std.specs.List.{list_any};
ghost use Rattle.std.specs.Str.{bytes_eq};
ghost use Rattle.std.specs.FinSet as set;
ghost use Rattle.reg_names.specs.Names.{canon as canon_of};

use reg_names::{CanonText, CrateName, canon};
use reg_policy::same_text;
use std::alloc::{AllocError, Global};
use std::marker::Model;

/// A set of canonical texts. What the list holds twice counts once.
#[derive(Drop)]
pub struct CrateTexts {
    list: Vec<CanonText>,
}

impl Model for CrateTexts {
    ghost use Rattle.std.specs.Coded.{coded_list, coded_ℕ};
    ghost use Rattle.std.specs.FinSet as set;
    ghost use Rattle.reg_model.specs.Registry.{text_cmp};

    ghost Value = { set.FinSet text_cmp };

    ghost coded = { set.code (coded_list coded_ℕ) };

    ghost view = { λ r. set.from_list r.list.items };
}

fn is_same(one: &CanonText, other: &CanonText) -> bool
    ensures { result ≡ bytes_eq one.now other.now }
{
    same_text(one.as_str(), other.as_str())
}

fn has_text(texts: &[CanonText], crate_text: &CanonText) -> bool
    ensures { result ≡ list_any (λ t. bytes_eq t crate_text.now) texts.now }
{
    texts.iter().any(|text| is_same(text, crate_text))
}

impl CrateTexts {
    /// Empty.
    pub fn new(alloc: Global) -> CrateTexts
        ensures { result ≡ set.empty }
    {
        CrateTexts {
            list: Vec::new(alloc),
        }
    }

    /// Whether the text is in the set.
    pub fn contains(&self, crate_text: &CanonText) -> bool
        ensures { result ≡ set.contains self.now crate_text.now }
    {
        has_text(self.list.as_slice(), crate_text)
    }

    /// Puts the name's canonical text into the set.
    pub fn insert(&mut self, name: &CrateName) -> Result<(), AllocError>
        ensures ok { OnOk result (self.new ≡ set.insert self.old (canon_of name.now)) }
        ensures err { OnErr result (self.new ≡ self.old) }
    {
        self.list.push(canon(name))?;
        Ok(())
    }

    /// Removes it from the set.
    pub fn remove(&mut self, name: &CrateName)
        ensures { self.new ≡ set.remove self.old (canon_of name.now) }
    {
        let crate_text = canon(name);
        self.list.retain(|text| !is_same(text, &crate_text));
    }
}
