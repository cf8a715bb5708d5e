//! What is published, in order.

ghost use Rattle.std.specs.Prelude.{◌≡◌, ◌≤◌, ◌&&◌, ◌++◌, [], ◌∷◌, IfOk, OnErr, OnOk, length, map, string_bytes};
ghost use Rattle.std.specs.Option.{option_map};
ghost use Rattle.std.specs.List.{filter, find, list_any};
ghost use Rattle.std.specs.Str.{bytes_eq};
ghost use Rattle.std.specs.FinSet as set;
ghost use Rattle.reg_names.specs.Names.{canon as canon_of};
ghost use Rattle.reg_line.specs.File.{entry_view};
ghost use Rattle.reg_model.specs.Crates.{collides as collides_of};
ghost use Rattle.reg_model.specs.Registry.{text_cmp};
ghost use Rattle.reg_reference_lists.specs.Publications.{canons_in, marked_in, publication_of, top_in, versions_in};
ghost use Rattle.reg_policy.specs.Events.{publication_of as new_publication};

use crate::crate_names::names_of;
use crate::owners::Owners;
use crate::tops::{publication_at, releases};
use crate::yanked::Marks;
use reg_line::Entry;
use reg_names::{CanonText, CrateName, canon};
use reg_policy::{NewPublication, same_text};
use reg_versions::highest;
use std::alloc::{AllocError, Global};
use std::marker::Model;

/// A published version.
#[derive(Drop)]
pub struct Publication {
    pub name: CrateName,
    pub version: String,
    pub description: Option<String>,
    pub stem: Vec<u8>,
    pub digest: [u8; 32],
    pub archive: Vec<u8>,
}

/// Published versions, oldest first.
#[derive(Drop)]
pub struct Publications {
    list: Vec<Publication>,
}

impl Model for Publications {
    ghost use Rattle.std.specs.Prelude.{List, map};
    ghost use Rattle.reg_model.specs.Registry as model;

    ghost Value = { List model.Publication };

    ghost use Rattle.reg_reference_lists.specs.Publications.{publication_of};

    ghost view = { λ p. map publication_of p.list.items };
}

pub(crate) fn collide(one: &CrateName, other: &CrateName) -> bool
    ensures { result ≡ collides_of one.now other.now }
{
    same_text(canon(one).as_str(), canon(other).as_str())
}

fn is_of(publication: &Publication, name: &CrateName) -> bool
    ensures { result ≡ collides_of publication.now.name name.now }
{
    collide(&publication.name, name)
}

fn has_crate(list: &[Publication], name: &CrateName) -> bool
    ensures { result ≡ list_any (λ p. collides_of p.name name.now) list.now }
{
    list.iter().any(|publication| is_of(publication, name))
}

fn find_crate<'a>(list: &'a [Publication], name: &CrateName) -> Option<&'a Publication>
    ensures { option_map (λ p. p.now) result ≡ find (λ p. collides_of p.name name.now) list.now }
{
    list.iter().find(|publication| is_of(publication, name))
}

fn is_version(publication: &Publication, name: &CrateName, version: &str) -> bool
    ensures { result ≡ (collides_of publication.now.name name.now && bytes_eq
        (string_bytes publication.now.version) version.now) }
{
    is_of(publication, name) && same_text(publication.version.as_str(), version)
}

fn find_version<'a>(
    list: &'a [Publication],
    name: &CrateName,
    version: &str,
) -> Option<&'a Publication>
    ensures { option_map (λ p. p.now) result ≡ find
        (λ p. collides_of p.name name.now && bytes_eq
        (string_bytes p.version) version.now) list.now }
{
    list.iter()
        .find(|publication| is_version(publication, name, version))
}

fn version_texts<'a>(
    alloc: Global,
    list: &'a [Publication],
    name: &CrateName,
) -> Result<Vec<&'a str>, AllocError>
    ensures { IfOk result (λ v. map (λ t. t.now) v.items ≡ map (λ p. string_bytes p.version)
        (filter (λ p. collides_of p.name name.now) list.now)) }
{
    let mut texts = Vec::new(alloc);
    for publication in list {
        if is_of(publication, name) {
            texts.push(publication.version.as_str())?;
        }
    }
    Ok(texts)
}

fn publications_of<'a>(
    alloc: Global,
    list: &'a [Publication],
    name: &CrateName,
) -> Result<Vec<&'a Publication>, AllocError>
    ensures { IfOk result (λ v. map (λ p. p.now) v.items ≡ filter
        (λ p. collides_of p.name name.now) list.now) }
{
    let mut publications = Vec::new(alloc);
    for publication in list {
        if is_of(publication, name) {
            publications.push(publication)?;
        }
    }
    Ok(publications)
}

fn entry(
    alloc: Global,
    publication: &Publication,
    crate_text: &CanonText,
    yanked: &Marks,
) -> Result<Entry, AllocError>
    ensures { IfOk result (λ e. entry_view e ≡ marked_in yanked.now crate_text.now
        (publication_of publication.now)) }
{
    let stem = publication.stem.as_slice().to_vec(alloc)?;
    let yanked = yanked.contains(crate_text, publication.version.as_str());
    Ok(Entry { stem, yanked })
}

fn entry_list(
    alloc: Global,
    list: &[Publication],
    name: &CrateName,
    yanked: &Marks,
) -> Result<Vec<Entry>, AllocError>
    ensures { IfOk result (λ v. map entry_view v.items ≡ map
        (λ p. marked_in yanked.now (canon_of name.now) (publication_of p))
        (filter (λ p. collides_of p.name name.now) list.now)) }
{
    let crate_text = canon(name);
    let mut entries = Vec::new(alloc);
    for publication in list {
        if is_of(publication, name) {
            entries.push(entry(alloc, publication, &crate_text, yanked)?)?;
        }
    }
    Ok(entries)
}

impl Publications {
    /// No publications.
    pub fn new(alloc: Global) -> Publications
        ensures { result ≡ [] }
    {
        Publications {
            list: Vec::new(alloc),
        }
    }

    /// Whether a crate of this name exists.
    pub fn exists(&self, name: &CrateName) -> bool
        ensures { result ≡ list_any (λ p. collides_of p.name name.now) self.now }
    {
        has_crate(self.list.as_slice(), name)
    }

    /// The spelling of a crate: that of its first publication.
    pub fn first(&self, name: &CrateName) -> Option<&CrateName>
        ensures { option_map (λ n. n.now) result ≡ option_map (λ p. p.name)
            (find (λ p. collides_of p.name name.now) self.now) }
    {
        match find_crate(self.list.as_slice(), name) {
            Some(publication) => Some(&publication.name),
            None => None,
        }
    }

    /// The versions of a crate, oldest first.
    pub fn versions(&self, alloc: Global, name: &CrateName) -> Result<Vec<&str>, AllocError>
        ensures { IfOk result (λ v. map (λ t. t.now) v.items ≡ map (λ p. p.version)
            (versions_in self.now name.now)) }
    {
        version_texts(alloc, self.list.as_slice(), name)
    }

    /// The publication of the highest version of a crate.
    pub fn top(
        &self,
        alloc: Global,
        name: &CrateName,
        yanked: &Marks,
    ) -> Result<Option<&Publication>, AllocError>
        ensures { IfOk result (λ o. option_map (λ p. publication_of p.now) o
            ≡ top_in yanked.now self.now name.now) }
    {
        let publications = publications_of(alloc, self.list.as_slice(), name)?;
        let releases = releases(alloc, publications.as_slice(), &canon(name), yanked)?;
        match highest(releases.as_slice()) {
            Some(place) => Ok(publication_at(publications.as_slice(), place)),
            None => Ok(None),
        }
    }

    /// A name of each crate, in the order of their canonical texts.
    pub fn names(&self, alloc: Global) -> Result<Vec<&CrateName>, AllocError>
        ensures { IfOk result (λ v. map (λ n. canon_of n.now) v.items ≡ canons_in self.now) }
    {
        names_of(alloc, self.list.as_slice())
    }

    /// The archive of exactly this version of a crate.
    pub fn archive(&self, name: &CrateName, version: &str) -> Option<&[u8]>
        ensures { option_map (λ a. a.now) result ≡ option_map (λ p. p.archive)
            (find (λ p. bytes_eq p.version version.now) (versions_in self.now name.now)) }
    {
        match find_version(self.list.as_slice(), name, version) {
            Some(publication) => Some(publication.archive.as_slice()),
            None => None,
        }
    }

    /// The lines of a crate's index file, with their marks.
    pub fn entries(
        &self,
        alloc: Global,
        name: &CrateName,
        yanked: &Marks,
    ) -> Result<Vec<Entry>, AllocError>
        ensures { IfOk result (λ v. map entry_view v.items ≡ map
            (marked_in yanked.now (canon_of name.now)) (versions_in self.now name.now)) }
    {
        entry_list(alloc, self.list.as_slice(), name, yanked)
    }

    /// How many crates there are.
    pub fn crates(&self) -> u64
        ensures { result ≡ set.len (set.from_list {R = text_cmp}
            (map (λ p. canon_of p.name) self.now)) }
    {
        count_crates(self.list.as_slice())
    }

    /// Adds a publication.
    pub fn add(&mut self, publication: Publication) -> Result<(), AllocError>
        ensures ok { OnOk result (self.new ≡ self.old ++ publication_of publication ∷ []) }
        ensures err { OnErr result (self.new ≡ self.old) }
    {
        self.list.push(publication)?;
        Ok(())
    }

    /// Adds the first publication of a crate, and its owner.
    pub fn add_first(
        &mut self,
        publication: Publication,
        owners: &mut Owners,
        account: u32,
    ) -> Result<(), AllocError>
        ensures ok { OnOk result (self.new ≡ self.old ++ publication_of publication ∷ []) }
        ensures owner { OnOk result (owners.new ≡ set.insert owners.old
            (canon_of publication.name, account)) }
        ensures err { OnErr result (self.new ≡ self.old) }
        ensures no_owner { OnErr result (owners.new ≡ owners.old) }
    {
        self.list.reserve(1)?;
        owners.insert(&publication.name, account)?;
        self.list.push_reserved(publication);
        Ok(())
    }
}

/// How many crates these publications belong to.
fn count_crates(list: &[Publication]) -> u64
    ensures value { result ≡ set.len (set.from_list {R = text_cmp}
        (map (λ p. canon_of p.name) list.now)) }
    ensures bound { result ≤ length list.now }
{
    match list.split_first() {
        Some((publication, rest)) => {
            let others = count_crates(rest);
            if has_crate(rest, &publication.name) {
                others
            } else {
                others + 1
            }
        }
        None => 0,
    }
}

/// The publication of a new version.
pub fn publication_from(alloc: Global, new: &NewPublication) -> Result<Publication, AllocError>
    ensures { IfOk result (λ p. publication_of p ≡ new_publication new.now) }
{
    let description = match &new.description {
        Some(description) => Some(String::from_str(alloc, description)?),
        None => None,
    };
    Ok(Publication {
        name: new.name.copy(),
        version: String::from_str(alloc, &new.version)?,
        description,
        stem: new.stem.as_slice().to_vec(alloc)?,
        digest: new.digest,
        archive: new.archive.to_vec(alloc)?,
    })
}
