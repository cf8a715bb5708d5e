//! The parts of a line as JSON values.

ghost use Rattle.std.specs.Prelude.{◌≡◌, IfOk, OnOk, map, string_bytes};
ghost use Rattle.std.specs.Option.{option_copied};
ghost use Rattle.serde_json.specs.Data.{put, string};
ghost use Rattle.serde_json.specs.View.{members_view, view};
ghost use Rattle.reg_manifest.specs.Manifests.{dep_view};
ghost use Rattle.reg_line.specs.Line.{dep_data, dep_object, text_or_null};
ghost use Rattle.reg_line.specs.Parts.{first_members};

use reg_manifest::Dep;
use serde_json::{Map, Value, put};
use std::alloc::{AllocError, Global};

/// A text, or null.
fn text_or_null(alloc: Global, text: Option<&str>) -> Result<Value, AllocError>
    ensures { IfOk result (λ v. view v ≡ text_or_null (option_copied text.entry)) }
{
    match text {
        Some(text) => Value::try_from_str(alloc, text),
        None => Ok(Value::Null),
    }
}

/// Puts a text at a key.
pub fn put_text(
    object: &mut Map<String, Value>,
    alloc: Global,
    key: &str,
    text: &str,
) -> Result<(), AllocError>
    ensures { OnOk result (members_view object.new.entries
        ≡ put key.now (string text.now) (members_view object.old.entries)) }
{
    put(object, alloc, key, Value::try_from_str(alloc, text)?)
}

/// Texts as values.
pub(crate) fn texts(alloc: Global, list: &[String]) -> Result<Vec<Value>, AllocError>
    ensures { IfOk result (λ v. map view v.items ≡ map string (map string_bytes list.now)) }
{
    let mut values = Vec::new(alloc);
    for text in list {
        values.push(Value::try_from_str(alloc, text.as_str())?)?;
    }
    Ok(values)
}

/// Puts a text, or null, at a key.
pub fn put_text_or_null(
    object: &mut Map<String, Value>,
    alloc: Global,
    key: &str,
    text: Option<&str>,
) -> Result<(), AllocError>
    ensures { OnOk result (members_view object.new.entries
        ≡ put key.now (text_or_null (option_copied text.entry))
        (members_view object.old.entries)) }
{
    put(object, alloc, key, text_or_null(alloc, text)?)
}

/// Puts in a dependency's members up to its name.
fn put_first(
    object: &mut Map<String, Value>,
    alloc: Global,
    dep: &Dep,
    name: &str,
) -> Result<(), AllocError>
    ensures { OnOk result (members_view object.new.entries
        ≡ first_members name.now (dep_view dep.now) (members_view object.old.entries)) }
{
    put(
        object,
        alloc,
        "default_features",
        Value::Bool(dep.default_features),
    )?;
    let features = Value::Array(texts(alloc, &dep.features)?);
    put(object, alloc, "features", features)?;
    put_text(object, alloc, "kind", dep.kind.as_str())?;
    put_text(object, alloc, "name", name)?;
    put(object, alloc, "optional", Value::Bool(dep.optional))
}

/// A dependency under its name in the line, with the package's own name or null.
fn dep_object(alloc: Global, dep: &Dep, name: &str, own: Value) -> Result<Value, AllocError>
    ensures { IfOk result (λ v. view v ≡ dep_object name.now (view own) (dep_view dep.now)) }
{
    let mut object = Map::new(alloc);
    put(&mut object, alloc, "package", own)?;
    put_first(&mut object, alloc, dep, name)?;
    put_text_or_null(&mut object, alloc, "registry", dep.registry.as_deref())?;
    put_text(&mut object, alloc, "req", dep.version_req.as_str())?;
    put_text_or_null(&mut object, alloc, "target", dep.target.as_deref())?;
    Ok(Value::Object(object))
}

fn dep_value(alloc: Global, dep: &Dep) -> Result<Value, AllocError>
    ensures { IfOk result (λ v. view v ≡ dep_data (dep_view dep.now)) }
{
    match &dep.explicit_name_in_toml {
        Some(new) => {
            let own = Value::try_from_str(alloc, dep.name.as_str())?;
            dep_object(alloc, dep, new.as_str(), own)
        }
        None => dep_object(alloc, dep, dep.name.as_str(), Value::Null),
    }
}

/// Dependencies as values.
pub(crate) fn dep_values(alloc: Global, list: &[Dep]) -> Result<Vec<Value>, AllocError>
    ensures { IfOk result (λ v. map view v.items ≡ map dep_data (map dep_view list.now)) }
{
    let mut values = Vec::new(alloc);
    for dep in list {
        values.push(dep_value(alloc, dep)?)?;
    }
    Ok(values)
}
