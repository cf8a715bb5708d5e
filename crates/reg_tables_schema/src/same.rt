//! Whether two parts of a schema are the same.

ghost use Rattle.std.specs.Prelude.{◌≡◌, ◌↔◌, IsTrue};

use crate::terms::{same_terms, same_value};
use sqlite_items::Items;
use sqlite_schema::code::lend_value;
use sqlite_schema::schema::{Column, Reference, Stamps, Table};
use sqlite_value::keys::Order;
use sqlite_value::value::Bytes;

fn same_column(a: &Column, b: &Column) -> bool
    ensures { IsTrue result ↔ (a.now ≡ b.now) }
{
    a.name.as_slice() == b.name.as_slice()
        && a.kind == b.kind
        && a.is_strict == b.is_strict
        && a.not_null == b.not_null
        && same_value(lend_value(&a.default), lend_value(&b.default))
        && a.collation == b.collation
}

fn same_columns(a: &[Column], b: &[Column]) -> bool
    ensures { IsTrue result ↔ (a.now ≡ b.now) }
{
    a.len() == b.len() && a.iter().zip(b).all(|(x, y)| same_column(x, y))
}

fn same_name(a: &Bytes, b: &Bytes) -> bool
    ensures { IsTrue result ↔ (a.now ≡ b.now) }
{
    a.as_slice() == b.as_slice()
}

fn same_names(a: &[Bytes], b: &[Bytes]) -> bool
    ensures { IsTrue result ↔ (a.now ≡ b.now) }
{
    a.len() == b.len() && a.iter().zip(b).all(|(x, y)| same_name(x, y))
}

fn same_places(a: &Items<usize>, b: &Items<usize>) -> bool
    ensures { IsTrue result ↔ (a.now ≡ b.now) }
{
    a.as_slice() == b.as_slice()
}

fn same_keys(a: &[Items<usize>], b: &[Items<usize>]) -> bool
    ensures { IsTrue result ↔ (a.now ≡ b.now) }
{
    a.len() == b.len() && a.iter().zip(b).all(|(x, y)| same_places(x, y))
}

fn same_order(a: &Order, b: &Order) -> bool
    ensures { IsTrue result ↔ (a.now ≡ b.now) }
{
    *a == *b
}

fn same_orders(a: &[Order], b: &[Order]) -> bool
    ensures { IsTrue result ↔ (a.now ≡ b.now) }
{
    a.len() == b.len() && a.iter().zip(b).all(|(x, y)| same_order(x, y))
}

fn same_reference(a: &Reference, b: &Reference) -> bool
    ensures { IsTrue result ↔ (a.now ≡ b.now) }
{
    a.columns.as_slice() == b.columns.as_slice()
        && a.parent.as_slice() == b.parent.as_slice()
        && same_names(a.parent_columns.as_slice(), b.parent_columns.as_slice())
        && a.on_delete == b.on_delete
        && a.on_update == b.on_update
        && a.is_deferred == b.is_deferred
}

fn same_references(a: &[Reference], b: &[Reference]) -> bool
    ensures { IsTrue result ↔ (a.now ≡ b.now) }
{
    a.len() == b.len() && a.iter().zip(b).all(|(x, y)| same_reference(x, y))
}

fn same_stamps(a: &Stamps, b: &Stamps) -> bool
    ensures { IsTrue result ↔ (a.now ≡ b.now) }
{
    a.places.as_slice() == b.places.as_slice()
        && same_terms(&a.terms, &b.terms)
        && same_names(a.formats.as_slice(), b.formats.as_slice())
}

fn same_shape(a: &Table, b: &Table) -> bool
    ensures { IsTrue result ↔ ((a.now.name ≡ b.now.name) × (a.now.columns ≡ b.now.columns)
        × (a.now.key ≡ b.now.key) × (a.now.is_counted ≡ b.now.is_counted)) }
{
    a.name.as_slice() == b.name.as_slice()
        && same_columns(a.columns.as_slice(), b.columns.as_slice())
        && a.key == b.key
        && a.is_counted == b.is_counted
}

fn same_unique_keys(a: &Table, b: &Table) -> bool
    ensures { IsTrue result ↔ ((a.now.primary ≡ b.now.primary) × (a.now.uniques ≡ b.now.uniques)
        × (a.now.orders ≡ b.now.orders)) }
{
    same_places(&a.primary, &b.primary)
        && same_keys(a.uniques.as_slice(), b.uniques.as_slice())
        && same_orders(a.orders.as_slice(), b.orders.as_slice())
}

fn same_rules(a: &Table, b: &Table) -> bool
    ensures { IsTrue result ↔ ((a.now.checks ≡ b.now.checks) × (a.now.references ≡ b.now.references)
        × (a.now.computed ≡ b.now.computed) × (a.now.stamps ≡ b.now.stamps)) }
{
    same_terms(&a.checks, &b.checks)
        && same_references(a.references.as_slice(), b.references.as_slice())
        && a.computed.as_slice() == b.computed.as_slice()
        && same_stamps(&a.stamps, &b.stamps)
}

/// Whether the tables are the same but for their trees.
pub(crate) fn same_table(a: &Table, b: &Table) -> bool
    ensures { IsTrue result ↔ (a.now ≡ record b.now { tree = a.now.tree }) }
{
    same_shape(a, b) && same_unique_keys(a, b) && same_rules(a, b)
}
