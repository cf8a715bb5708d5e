//! A name of each crate, in the order of the canonical texts.

ghost use Rattle.std.specs.Prelude.{◌≡◌, ◌≤◌, IfOk, OnOk, length, map, slice_get};
ghost use Rattle.std.specs.Ordering.{is_gt};
ghost use Rattle.reg_names.specs.Names.{canon as canon_of};
ghost use Rattle.reg_model.specs.Crates.{collides as collides_of};
ghost use Rattle.reg_model.specs.Registry.{holds, text_cmp};
ghost use Rattle.reg_reference_lists.specs.Publications.{canons_in, place_for, publication_of, put_text};

use crate::publications::{Publication, collide};
use reg_names::{CrateName, canon};
use std::alloc::{AllocError, Global};

/// Whether the one's canonical text comes after the other's.
fn is_behind(one: &CrateName, other: &CrateName) -> bool
    ensures { result ≡ is_gt (text_cmp (canon_of one.now) (canon_of other.now)) }
{
    canon(one).as_str() > canon(other).as_str()
}

/// How many names at the front the new one comes after.
fn place_of(names: &[&CrateName], new: &CrateName) -> usize
    ensures place { result ≡ place_for (canon_of new.now) (map (λ n. canon_of n.now) names.now) }
    ensures bound { result ≤ length names.now }
{
    match names {
        [] => 0,
        [name, more @ ..] => {
            if is_behind(new, name) {
                place_of(more, new) + 1
            } else {
                0
            }
        }
    }
}

/// Whether a name of the crate stands at this place.
fn is_at(names: &[&CrateName], place: usize, name: &CrateName) -> bool
    ensures { result ≡ holds (λ n. collides_of n.now name.now) (slice_get names.now place) }
{
    match names.get(place) {
        Some(there) => collide(there, name),
        None => false,
    }
}

/// Puts a name in its place, unless its crate has one there.
fn put<'a>(names: &mut Vec<&'a CrateName>, name: &'a CrateName) -> Result<(), AllocError>
    ensures { OnOk result (map (λ n. canon_of n.now) names.new.items ≡ put_text
        (canon_of name.now) (map (λ n. canon_of n.now) names.old.items)) }
{
    let place = place_of(names.as_slice(), name);
    if !is_at(names.as_slice(), place, name) {
        names.insert(place, name)?;
    }
    Ok(())
}

/// A name of each crate among these publications, in the order of their canonical texts.
pub(crate) fn names_of(alloc: Global, list: &[Publication]) -> Result<Vec<&CrateName>, AllocError>
    ensures { IfOk result (λ v. map (λ n. canon_of n.now) v.items ≡ canons_in
        (map publication_of list.now)) }
{
    match list.split_first() {
        None => Ok(Vec::new(alloc)),
        Some((publication, more)) => {
            let mut names = names_of(alloc, more)?;
            put(&mut names, &publication.name)?;
            Ok(names)
        }
    }
}
