//! Searching the registry over vectors.

ghost use Rattle.std.specs.Prelude.{◌≡◌, ◌&&◌, ◌||◌, [], IfOk, None, length, map, string_bytes, take, unwrap_or};
ghost use Rattle.std.specs.List.{filter};
ghost use Rattle.std.specs.Option.{option_map};
ghost use Rattle.reg_names.specs.Names.{canon as canon_of};
ghost use Rattle.reg_model.specs.Registry.{holds};
ghost use Rattle.reg_model.specs.Crates.{is_among, owners as owners_in, readers as readers_in, sees};
ghost use Rattle.reg_model.specs.Search.{found, hit, occurs};
ghost use Rattle.reg_reference.specs.Plain.{registry_of};
ghost use Rattle.reg_reference_lists.specs.Publications.{publication_of};
ghost use Rattle.reg_reference.specs.Search.{found_of, hit_of};

use crate::plain::PlainRegistry;
use crate::reports::{spelling_of, version_of};
use reg_names::{CrateName, canon, canon_text};
use reg_reference_lists::Publication;
use std::alloc::{AllocError, Global};

/// A crate that a search finds.
#[derive(Drop)]
pub struct Hit {
    /// Its first spelling.
    pub name: String,
    /// Its highest version.
    pub version: String,
    /// The description of that version, if any.
    pub description: Option<String>,
}

/// How many crates a search finds, and the first of them.
#[derive(Drop)]
pub struct Found {
    pub total: u64,
    pub crates: Vec<Hit>,
}

/// Whether the query occurs in the text.
fn occurs(query: &[u8], text: &[u8]) -> bool
    ensures { result ≡ occurs query.now text.now }
{
    if text.starts_with(query) {
        return true;
    }
    match text.split_first() {
        Some((_, rest)) => occurs(query, rest),
        None => false,
    }
}

fn description_of(top: Option<&Publication>) -> Option<&str>
    ensures { option_map (λ d. d.now) result ≡ unwrap_or (option_map
        (λ p. option_map string_bytes p.now.description) top.entry) None }
{
    match top {
        Some(publication) => match &publication.description {
            Some(description) => Some(description.as_str()),
            None => None,
        },
        None => None,
    }
}

/// A text that owns its memory, or none.
pub(crate) fn text_of(alloc: Global, text: Option<&str>) -> Result<Option<String>, AllocError>
    ensures { IfOk result (λ o. option_map string_bytes o ≡ option_map (λ t. t.now) text.entry) }
{
    match text {
        Some(text) => Ok(Some(String::from_str(alloc, text)?)),
        None => Ok(None),
    }
}

fn first_of<'a, 'b>(names: &'b [&'a CrateName], most: usize) -> &'b [&'a CrateName]
    ensures { result.now ≡ take most names.now }
{
    if most < names.len() {
        &names[..most]
    } else {
        names
    }
}

impl PlainRegistry {
    /// Whether the account exists and reads the crate.
    fn is_reader(&self, name: &CrateName, account: u32) -> bool
        ensures { result ≡ is_among (readers_in (registry_of self.now) name.now) account }
    {
        self.accounts.is_among(&self.readers, &canon(name), account)
    }

    /// Whether an account, or nobody, sees a crate.
    fn is_seen(&self, viewer: Option<u32>, name: &CrateName) -> bool
        ensures { result ≡ sees (registry_of self.now) viewer name.now }
    {
        self.publications.exists(name)
            && (!self.restricted.contains(&canon(name)) || self.is_admitted(viewer, name))
    }

    fn is_admitted(&self, viewer: Option<u32>, name: &CrateName) -> bool
        ensures { result ≡ holds (λ id. is_among (owners_in (registry_of self.now) name.now) id
            || is_among (readers_in (registry_of self.now) name.now) id) viewer }
    {
        match viewer {
            Some(account) => self.is_owner(name, account) || self.is_reader(name, account),
            None => false,
        }
    }

    fn is_match(&self, viewer: Option<u32>, query: &[u8], name: &CrateName) -> bool
        ensures { result ≡ (sees (registry_of self.now) viewer name.now
            && occurs query.now (canon_of name.now)) }
    {
        self.is_seen(viewer, name) && occurs(query, canon(name).as_str().as_bytes())
    }

    fn matches<'a>(
        &self,
        viewer: Option<u32>,
        query: &[u8],
        names: &[&'a CrateName],
    ) -> Result<Vec<&'a CrateName>, AllocError>
        ensures { IfOk result (λ v. map (λ n. n.now) v.items ≡ filter
            (λ n. sees (registry_of self.now) viewer n && occurs query.now (canon_of n))
            (map (λ n. n.now) names.now)) }
    {
        let mut matching = Vec::new(self.alloc);
        for name in names {
            if self.is_match(viewer, query, name) {
                matching.push(*name)?;
            }
        }
        Ok(matching)
    }

    fn hit(&self, name: &CrateName) -> Result<Hit, AllocError>
        ensures { IfOk result (λ h. hit_of h ≡ hit (registry_of self.now) name.now) }
    {
        let spelling = spelling_of(self.publications.first(name));
        let top = self.publications.top(self.alloc, name, &self.yanked)?;
        Ok(Hit {
            name: String::from_str(self.alloc, spelling)?,
            version: String::from_str(self.alloc, version_of(top))?,
            description: text_of(self.alloc, description_of(top))?,
        })
    }

    fn hits(&self, names: &[&CrateName]) -> Result<Vec<Hit>, AllocError>
        ensures { IfOk result (λ v. map hit_of v.items ≡ map
            (λ n. hit (registry_of self.now) n.now) names.now) }
    {
        let mut hits = Vec::new(self.alloc);
        for name in names {
            hits.push(self.hit(name)?)?;
        }
        Ok(hits)
    }

    /// The crates that an account, or nobody, sees and whose canonical texts contain that of a
    /// query: how many there are, and the first of them by canonical text, at most so many.
    pub fn search(&self, viewer: Option<u32>, query: &str, most: u32) -> Result<Found, AllocError>
        ensures { IfOk result (λ f. found_of f ≡ found (registry_of self.now) viewer query.now
            most) }
    {
        let query = canon_text(self.alloc, query)?;
        let names = self.publications.names(self.alloc)?;
        let matching = self.matches(viewer, query.as_slice(), names.as_slice())?;
        let crates = self.hits(first_of(matching.as_slice(), most as usize))?;
        Ok(Found {
            total: matching.len() as u64,
            crates,
        })
    }
}
