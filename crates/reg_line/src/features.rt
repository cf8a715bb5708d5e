//! The features that go into `features`, and those that go into `features2` (the Cargo Book,
//! "Registry Index", "JSON schema").

ghost use Rattle.std.specs.Prelude.{◌≡◌, IfOk, OnOk, map, string_bytes, string_cmp};
ghost use Rattle.std.specs.BTreeMap.{IsOrdered};
ghost use Rattle.std.specs.List.{list_any};
ghost use Rattle.serde_json.specs.Data.{put};
ghost use Rattle.serde_json.specs.View.{members_view};
ghost use Rattle.reg_manifest.specs.Manifests.{feature_view};
ghost use Rattle.reg_line.specs.Features.{feature_members, is_newer_value, newer, older, texts};

use crate::values::texts;
use serde_json::{Map, Value};
use std::alloc::{AllocError, Global};
use std::collections::BTreeMap;

fn is_newer_value(text: &str) -> bool
    ensures { result ≡ is_newer_value text.now }
{
    text.starts_with("dep:") || text.contains("?/")
}

fn is_newer(values: &[String]) -> bool
    ensures { result ≡ list_any is_newer_value (map string_bytes values.now) }
{
    for value in values {
        if is_newer_value(value.as_str()) {
            return true;
        }
    }
    false
}

fn put_feature(
    alloc: Global,
    object: &mut Map<String, Value>,
    key: &str,
    values: &[String],
) -> Result<(), AllocError>
    ensures { OnOk result (members_view object.new.entries
        ≡ put key.now (texts (map string_bytes values.now)) (members_view object.old.entries)) }
{
    let value = Value::Array(texts(alloc, values)?);
    serde_json::put(object, alloc, key, value)
}

/// The members of `features`, and those of `features2`.
pub(crate) fn feature_maps(
    alloc: Global,
    features: &BTreeMap<String, Vec<String>>,
) -> Result<(Map<String, Value>, Map<String, Value>), AllocError>
    ensures older { IfOk result (λ p. members_view p.0.entries
        ≡ feature_members (older (map feature_view features.now.entries))) }
    ensures newer { IfOk result (λ p. members_view p.1.entries
        ≡ feature_members (newer (map feature_view features.now.entries))) }
    ensures ordered { IsOrdered string_cmp features.now }
{
    let mut older = Map::new(alloc);
    let mut newer = Map::new(alloc);
    for (key, values) in features.iter() {
        if is_newer(values.as_slice()) {
            put_feature(alloc, &mut newer, key.as_str(), values.as_slice())?;
        } else {
            put_feature(alloc, &mut older, key.as_str(), values.as_slice())?;
        }
    }
    Ok((older, newer))
}
