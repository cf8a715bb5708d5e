//! The fields of a head, by name.

ghost use Rattle.std.specs.Prelude.{◌≡◌, ◌&&◌, ◌-◌, ◌^◌, map, min, option_copied, option_map};
ghost use Rattle.std.specs.List.{count_by};
ghost use Rattle.httparse.specs.Borrowed.{header_parts};
ghost use Rattle.reg_http_read.specs.Fields as spec;

use crate::numbers::{is_number, is_same_number, number};
use crate::words::{is_same_word, lists_word};
use httparse::Header;

fn is_named(field: &Header<'_>, name: &[u8]) -> bool
    ensures { result ≡ spec.is_named name.now (header_parts field.now) }
{
    is_same_word(field.name.as_bytes(), name)
}

/// How many fields have this name.
pub(crate) fn count_named(fields: &[Header<'_>], name: &[u8]) -> usize
    ensures { result ≡ spec.count_named name.now (map header_parts fields.now) }
{
    fields.iter().filter(|f| is_named(f, name)).count()
}

/// The value of the first field of this name.
fn first_value<'b>(fields: &[Header<'b>], name: &[u8]) -> Option<&'b [u8]>
    ensures { option_copied result ≡ spec.first_of name.now (map header_parts fields.now) }
{
    for field in fields {
        if is_named(field, name) {
            return Some(field.value);
        }
    }
    None
}

/// The value of the only field of this name.
pub(crate) fn only_value<'b>(fields: &[Header<'b>], name: &[u8]) -> Option<&'b [u8]>
    ensures { option_copied result ≡ spec.only_of name.now (map header_parts fields.now) }
{
    if count_named(fields, name) == 1 {
        first_value(fields, name)
    } else {
        None
    }
}

/// How many fields of this name have a number of the same value.
fn count_same(fields: &[Header<'_>], name: &[u8], value: &[u8]) -> usize
    ensures { result ≡ count_by
        (λ p. spec.is_named name.now p && spec.is_same_number value.now p.1)
        (map header_parts fields.now) }
{
    let named = fields
        .iter()
        .filter(|f| is_named(f, name) && is_same_number(value, f.value));
    named.count()
}

/// How many fields of this name have this word as their value.
pub(crate) fn count_with(fields: &[Header<'_>], name: &[u8], word: &[u8]) -> usize
    ensures { result ≡ count_by (λ p. spec.is_named name.now p && spec.same_word p.1 word.now)
        (map header_parts fields.now) }
{
    let named = fields
        .iter()
        .filter(|f| is_named(f, name) && is_same_word(f.value, word));
    named.count()
}

/// How many fields of this name list this word.
pub(crate) fn count_listing(fields: &[Header<'_>], name: &[u8], word: &[u8]) -> usize
    ensures { result ≡ count_by (λ p. spec.is_named name.now p && spec.lists_word word.now p.1)
        (map header_parts fields.now) }
{
    let named = fields
        .iter()
        .filter(|f| is_named(f, name) && lists_word(f.value, word));
    named.count()
}

/// How many bytes the body has, up to the largest number of the type; none if the fields do not
/// agree.
pub(crate) fn body_length(fields: &[Header<'_>]) -> Option<u64>
    ensures { result ≡ option_map (λ n. min n (2 ^ 64 - 1))
        (spec.body_length (map header_parts fields.now)) }
{
    let Some(value) = first_value(fields, b"content-length") else {
        return Some(0);
    };
    let same = count_same(fields, b"content-length", value);
    if is_number(value) && same == count_named(fields, b"content-length") {
        Some(number(value))
    } else {
        None
    }
}
