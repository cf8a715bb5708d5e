//! Which of our schemas a found schema is.

ghost use Rattle.std.specs.Prelude.{◌≡◌, ◌↔◌, ◌+◌, ◌<◌, true, false, Ok, Some, IsTrue, IfOk, take, drop};
ghost use Rattle.sqlite.specs.Compile.{table_defined_by};
ghost use Rattle.sqlite_value.specs.Keys.{plain};
ghost use Rattle.reg_tables_schema.specs.Schema.{our_tables, our_indexes, old_tables, old_indexes, schema_of};

use crate::edition::SchemaVersion;
use crate::same::same_table;
use crate::texts::{
    ABOUT, ACCOUNTS, ARCHIVES, CRATES, OWNERS, READERS, RESERVED, RESTRICTED, SCOPES, SUMMARIES,
    TOKENS, VERSIONS,
};
use sqlite_resolve::define_table;
use sqlite_schema::schema::{Index, Schema, Table};
use sqlite_value::keys::Order;
use std::alloc::{AllocError, Global};

// The texts are ours and are understood, so out of memory is their only fault.
fn is_table(alloc: Global, table: &Table, text: &str, tree: u32) -> Result<bool, AllocError>
    ensures { IfOk result (λ same. (made : _) → table_defined_by text.now ≡ Ok made → IsTrue same ↔
        (table.now ≡ record made { tree = tree })) }
{
    let Ok(made) = define_table(alloc, text.as_bytes()) else {
        return Err(AllocError);
    };
    Ok(table.tree == tree && same_table(table, &made))
}

// The twelve tables are in three functions, since the check of one grows faster than its steps.
fn are_token_tables(alloc: Global, tables: &[Table]) -> Result<bool, AllocError>
    ensures { IfOk result (λ same. IsTrue same ↔ (tables.now ≡ take 4 our_tables)) }
{
    let [about, accounts, tokens, scopes] = tables else {
        return Ok(false);
    };
    Ok(
        is_table(alloc, about, ABOUT, 0)?
            & is_table(alloc, accounts, ACCOUNTS, 1)?
            & is_table(alloc, tokens, TOKENS, 3)?
            & is_table(alloc, scopes, SCOPES, 5)?,
    )
}

// The six for crates and names.
fn are_crate_tables(alloc: Global, tables: &[Table]) -> Result<bool, AllocError>
    ensures { IfOk result (λ same. IsTrue same ↔ (tables.now ≡ take 6 (drop 4 our_tables))) }
{
    let [crates, owners, versions, archives, reserved, summaries] = tables else {
        return Ok(false);
    };
    Ok(
        is_table(alloc, crates, CRATES, 7)?
            & is_table(alloc, owners, OWNERS, 9)?
            & is_table(alloc, versions, VERSIONS, 11)?
            & is_table(alloc, archives, ARCHIVES, 13)?
            & is_table(alloc, reserved, RESERVED, 14)?
            & is_table(alloc, summaries, SUMMARIES, 16)?,
    )
}

// The two for readers.
fn are_reader_tables(alloc: Global, tables: &[Table]) -> Result<bool, AllocError>
    ensures { IfOk result (λ same. IsTrue same ↔ (tables.now ≡ drop 10 our_tables)) }
{
    let [restricted, readers] = tables else {
        return Ok(false);
    };
    Ok(is_table(alloc, restricted, RESTRICTED, 17)? & is_table(alloc, readers, READERS, 18)?)
}

fn are_first_tables(alloc: Global, tables: &[Table]) -> Result<bool, AllocError>
    ensures { IfOk result (λ same. IsTrue same ↔ (tables.now ≡ old_tables)) }
{
    let (of_tokens, of_crates) = tables.split_at(tables.len().min(4));
    Ok(are_token_tables(alloc, of_tokens)? & are_crate_tables(alloc, of_crates)?)
}

// The edition of a list, judged by its first part and its rest.
fn edition_by(first: bool, no_more: bool, added: bool) -> Option<SchemaVersion>
    ensures first { (result ≡ Some SchemaVersion.First) ↔ (IsTrue first × IsTrue no_more) }
    ensures second { (result ≡ Some SchemaVersion.Second) ↔
        (IsTrue first × (no_more ≡ false) × IsTrue added) }
{
    match (first, no_more, added) {
        (true, true, _) => Some(SchemaVersion::First),
        (true, false, true) => Some(SchemaVersion::Second),
        _ => None,
    }
}

fn edition_of_tables(alloc: Global, tables: &[Table]) -> Result<Option<SchemaVersion>, AllocError>
    ensures { IfOk result (λ found. (e : SchemaVersion) → (found ≡ Some e) ↔
        (tables.now ≡ (schema_of e).tables)) }
{
    let (first, added) = tables.split_at(tables.len().min(10));
    let is_first = are_first_tables(alloc, first)?;
    let is_second = are_reader_tables(alloc, added)?;
    Ok(edition_by(is_first, added.is_empty(), is_second))
}

fn is_index(index: &Index, name: &str, table: u32, columns: &[usize]) -> bool
    requires { table < 100 }
    ensures { IsTrue result ↔ (index.now ≡ record {
      name = name.now;
      tree = table + 1;
      table = table;
      columns = columns.now;
      order = plain;
      is_unique = true;
    }) }
{
    index.name.as_slice() == name.as_bytes()
        && index.tree == table + 1
        && index.table == table
        && index.columns.as_slice() == columns
        && index.order == Order::PLAIN
        && index.is_unique
}

fn are_first_indexes(indexes: &[Index]) -> bool
    ensures { IsTrue result ↔ (indexes.now ≡ old_indexes) }
{
    let [accounts, tokens, scopes, crates, owners, versions, reserved] = indexes else {
        return false;
    };
    is_index(accounts, "sqlite_autoindex_accounts_1", 1, &[2])
        & is_index(tokens, "sqlite_autoindex_tokens_1", 3, &[2])
        & is_index(scopes, "sqlite_autoindex_scopes_1", 5, &[1, 2])
        & is_index(crates, "sqlite_autoindex_crates_1", 7, &[2])
        & is_index(owners, "sqlite_autoindex_owners_1", 9, &[1, 2])
        & is_index(versions, "sqlite_autoindex_versions_1", 11, &[2, 4])
        & is_index(reserved, "sqlite_autoindex_reserved_1", 14, &[1])
}

fn are_reader_indexes(indexes: &[Index]) -> bool
    ensures { IsTrue result ↔ (indexes.now ≡ drop 7 our_indexes) }
{
    let [readers] = indexes else {
        return false;
    };
    is_index(readers, "sqlite_autoindex_readers_1", 18, &[1, 2])
}

fn edition_of_indexes(indexes: &[Index]) -> Option<SchemaVersion>
    ensures { (e : SchemaVersion) → (result ≡ Some e) ↔ (indexes.now ≡ (schema_of e).indexes) }
{
    let (first, added) = indexes.split_at(indexes.len().min(7));
    let is_first = are_first_indexes(first);
    let is_second = are_reader_indexes(added);
    edition_by(is_first, added.is_empty(), is_second)
}

/// Which of our schemas this is, if any.
pub fn edition_of(alloc: Global, schema: &Schema) -> Result<Option<SchemaVersion>, AllocError>
    ensures { IfOk result (λ found. (e : SchemaVersion) → (found ≡ Some e) ↔
        (schema.now ≡ schema_of e)) }
{
    if !schema.views.is_empty() {
        return Ok(None);
    }
    let of_tables = edition_of_tables(alloc, schema.tables.as_slice())?;
    let of_indexes = edition_of_indexes(schema.indexes.as_slice());
    if of_tables == of_indexes {
        Ok(of_tables)
    } else {
        Ok(None)
    }
}
