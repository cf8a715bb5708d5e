//! The file `config.json` of the index (the Cargo Book, "Registry Index", "Index configuration").

ghost use Rattle.std.specs.Prelude.{◌≡◌, ◌++◌, IfOk, codes, string_bytes};
ghost use Rattle.serde_json.specs.View.{view};
ghost use Rattle.reg_line.specs.Config.{config_data, config_text, download_of};

use crate::values::put_text;
use serde_json::{Map, Value, put};
use std::alloc::{AllocError, Global};

fn download(alloc: Global, base: &str) -> Result<String, AllocError>
    ensures { IfOk result (λ s. string_bytes s ≡ download_of base.now) }
{
    let mut text = String::from_str(alloc, base)?;
    text.push_str("/api/v1/crates")?;
    Ok(text)
}

fn config_value(alloc: Global, base: &str) -> Result<Value, AllocError>
    ensures { IfOk result (λ v. view v ≡ config_data base.now) }
{
    let dl = download(alloc, base)?;
    let mut object = Map::new(alloc);
    put_text(&mut object, alloc, "api", base)?;
    put(&mut object, alloc, "auth-required", Value::Bool(true))?;
    put_text(&mut object, alloc, "dl", dl.as_str())?;
    Ok(Value::Object(object))
}

/// The config of a registry served under this base.
pub fn config(alloc: Global, base: &str) -> Result<Vec<u8>, AllocError>
    ensures { IfOk result (λ v. v.items ≡ config_text base.now) }
{
    config_value(alloc, base)?.to_vec(alloc)
}
