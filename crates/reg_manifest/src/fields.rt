//! A reader of JSON fields, shared by all that the registry reads: metadata here, index lines in
//! the crate above.
//!
//! It knows no field by its name. A null counts as a missing field, and a value of the wrong kind
//! is a `Field` fault.
//!
//! ```
//! let value = read_json(alloc, b"{\"name\":\"a\"}")?;
//! required_text(alloc, &value, "name")?           // a
//! flag_or(&value, "optional", false)?             // false
//! ```

ghost use Rattle.std.specs.Prelude.{◌≡◌, OnOk, IfErr, option_map, string_bytes, map, []};
ghost use Rattle.std.specs.BTreeMap.{IsOrdered, insert_entry};
ghost use Rattle.std.specs.Cmp.Lexicographic.{slice_cmp};
ghost use Rattle.std.specs.Ordering.{nat_cmp};
ghost use Rattle.std.specs.Prelude.{string_cmp};
ghost use Rattle.serde_json.specs.Data.{no_items};
ghost use Rattle.serde_json.specs.View.{items_view, members_view, view};
ghost use Rattle.reg_manifest.specs.declared.fault.ManifestFault.TheVariants.{Memory};
ghost use Rattle.reg_manifest.specs.Parsing.{Gives};
ghost use Rattle.reg_manifest.specs.Fields.{each, features_of, field, flag_of, json_of, list_of, lists_of, lists_onto, members_of, optional, or_else, required, text_of, texts_of, with_list};
ghost use Rattle.reg_manifest.specs.Manifests.{feature_view};

use crate::fault::ManifestFault;
use serde_json::{Category, Map, Value};
use std::alloc::Global;
use std::collections::BTreeMap;

/// The bytes as a JSON value.
pub fn read_json(alloc: Global, bytes: &[u8]) -> Result<Value, ManifestFault>
    ensures { Gives view result (json_of bytes.now) }
{
    match Value::from_slice(alloc, bytes) {
        Ok(value) => Ok(value),
        Err(error) => match error.classify() {
            Category::Memory => Err(ManifestFault::Memory),
            _ => Err(ManifestFault::NotJson),
        },
    }
}

/// The field's value, unless it is missing or null.
pub fn field<'a>(object: &'a Value, key: &str) -> Option<&'a Value>
    ensures { option_map (λ v. view v.now) result ≡ field key.now (view object.now) }
{
    match object.get(key) {
        Some(value) if !value.is_null() => Some(value),
        _ => None,
    }
}

fn text(alloc: Global, value: &Value) -> Result<String, ManifestFault>
    ensures { Gives (λ s. string_bytes s) result (text_of (view value.now)) }
{
    match value.as_str() {
        Some(text) => Ok(String::from_str(alloc, text)?),
        None => Err(ManifestFault::Field),
    }
}

fn list(value: &Value) -> Result<&[Value], ManifestFault>
    ensures { Gives (λ s. items_view s.now) result (list_of (view value.now)) }
{
    match value.as_array() {
        Some(list) => Ok(list.as_slice()),
        None => Err(ManifestFault::Field),
    }
}

/// The members of an object.
pub fn members(value: &Value) -> Result<&Map<String, Value>, ManifestFault>
    ensures { Gives (λ m. members_view m.now.entries) result
        (members_of (view value.now)) }
{
    match value.as_object() {
        Some(map) => Ok(map),
        None => Err(ManifestFault::Field),
    }
}

/// A text that must be there.
pub fn required_text(alloc: Global, object: &Value, key: &str) -> Result<String, ManifestFault>
    ensures { Gives (λ s. string_bytes s) result
        (required text_of (field key.now (view object.now))) }
{
    let Some(value) = field(object, key) else {
        return Err(ManifestFault::Field);
    };
    text(alloc, value)
}

/// A text, or `default` for null.
pub fn text_or(
    alloc: Global,
    object: &Value,
    key: &str,
    default: &str,
) -> Result<String, ManifestFault>
    ensures { Gives (λ s. string_bytes s) result
        (or_else default.now text_of (field key.now (view object.now))) }
{
    match field(object, key) {
        Some(value) => text(alloc, value),
        None => Ok(String::from_str(alloc, default)?),
    }
}

/// A text that may be null.
pub fn optional_text(
    alloc: Global,
    object: &Value,
    key: &str,
) -> Result<Option<String>, ManifestFault>
    ensures { Gives (λ o. option_map string_bytes o) result
        (optional text_of (field key.now (view object.now))) }
{
    match field(object, key) {
        Some(value) => Ok(Some(text(alloc, value)?)),
        None => Ok(None),
    }
}

/// True or false, or `default` for null.
pub fn flag_or(object: &Value, key: &str, default: bool) -> Result<bool, ManifestFault>
    ensures { Gives (λ b. b) result
        (or_else default flag_of (field key.now (view object.now))) }
{
    match field(object, key) {
        Some(value) => value.as_bool().ok_or(ManifestFault::Field),
        None => Ok(default),
    }
}

/// A list, empty for null.
pub fn list_or_empty<'a>(object: &'a Value, key: &str) -> Result<&'a [Value], ManifestFault>
    ensures { Gives (λ s. items_view s.now) result
        (or_else no_items list_of (field key.now (view object.now))) }
{
    match field(object, key) {
        Some(value) => list(value),
        None => Ok(&[]),
    }
}

fn each_text(alloc: Global, list: &[Value]) -> Result<Vec<String>, ManifestFault>
    ensures { Gives (λ v. map string_bytes v.items) result
        (each text_of (items_view list.now)) }
{
    let mut texts = Vec::new(alloc);
    for value in list {
        texts.push(text(alloc, value)?)?;
    }
    Ok(texts)
}

/// The texts of a list of texts.
pub fn texts(alloc: Global, value: &Value) -> Result<Vec<String>, ManifestFault>
    ensures { Gives (λ v. map string_bytes v.items) result (texts_of (view value.now)) }
{
    each_text(alloc, list(value)?)
}

/// A list of texts, empty for null.
pub fn texts_or_empty(
    alloc: Global,
    object: &Value,
    key: &str,
) -> Result<Vec<String>, ManifestFault>
    ensures { Gives (λ v. map string_bytes v.items) result
        (or_else [] texts_of (field key.now (view object.now))) }
{
    match field(object, key) {
        Some(value) => texts(alloc, value),
        None => Ok(Vec::new(alloc)),
    }
}

fn insert_list(
    lists: &mut BTreeMap<String, Vec<String>>,
    key: String,
    values: Vec<String>,
) -> Result<(), ManifestFault>
    ensures put_in { OnOk result (map feature_view lists.new.entries
        ≡ with_list (map feature_view lists.old.entries) (string_bytes key)
        (map string_bytes values.items)) }
    ensures memory { IfErr result (λ e. e ≡ Memory) }
{
    lists.insert(key, values)?;
    Ok(())
}

/// The lists found before, with those of an object's members put in.
pub fn lists_onto(
    alloc: Global,
    found: BTreeMap<String, Vec<String>>,
    object: &Map<String, Value>,
) -> Result<BTreeMap<String, Vec<String>>, ManifestFault>
    ensures read { Gives (λ m. map feature_view m.entries) result
        (lists_onto (members_view object.now.entries) (map feature_view found.entries)) }
    ensures ordered { IsOrdered string_cmp object.now }
{
    let mut lists = found;
    for (key, value) in object.iter() {
        let values = texts(alloc, value)?;
        let key = String::from_str(alloc, key.as_str())?;
        insert_list(&mut lists, key, values)?;
    }
    Ok(lists)
}

fn lists(
    alloc: Global,
    object: &Map<String, Value>,
) -> Result<BTreeMap<String, Vec<String>>, ManifestFault>
    ensures { Gives (λ m. map feature_view m.entries) result
        (lists_of (members_view object.now.entries)) }
{
    lists_onto(alloc, BTreeMap::new(alloc), object)
}

/// Features, or none for null.
pub fn features_or_empty(
    alloc: Global,
    object: &Value,
    key: &str,
) -> Result<BTreeMap<String, Vec<String>>, ManifestFault>
    ensures { Gives (λ m. map feature_view m.entries) result
        (or_else [] features_of (field key.now (view object.now))) }
{
    match field(object, key) {
        Some(value) => lists(alloc, members(value)?),
        None => Ok(BTreeMap::new(alloc)),
    }
}
