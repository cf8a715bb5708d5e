//! Manifests as texts, with all their fields.

use reg_manifest::{Dep, Manifest};
use std::alloc::{AllocError, Global};

/// Adds a word and a text, or the word and `-` where there is none.
fn add(text: &mut String, word: &str, value: Option<&str>) -> Result<(), AllocError> {
    text.push_str(word)?;
    text.push_str(value.unwrap_or("-"))
}

/// Adds a word and a list, each value with a comma behind it.
fn add_list(text: &mut String, word: &str, list: &[String]) -> Result<(), AllocError> {
    text.push_str(word)?;
    text.push('[')?;
    for value in list {
        text.push_str(value)?;
        text.push(',')?;
    }
    text.push(']')
}

fn add_dep(text: &mut String, dep: &Dep) -> Result<(), AllocError> {
    add(text, "; dep ", Some(&dep.name))?;
    add(text, " req ", Some(&dep.version_req))?;
    add_list(text, " features", &dep.features)?;
    text.push_str(if dep.optional { " optional" } else { " needed" })?;
    text.push_str(if dep.default_features {
        " default"
    } else {
        " bare"
    })?;
    add(text, " target ", dep.target.as_deref())?;
    add(text, " kind ", Some(&dep.kind))?;
    add(text, " registry ", dep.registry.as_deref())?;
    add(text, " renamed ", dep.explicit_name_in_toml.as_deref())
}

fn add_manifest(text: &mut String, manifest: &Manifest) -> Result<(), AllocError> {
    add(text, " ", Some(&manifest.vers))?;
    add(text, " description ", manifest.description.as_deref())?;
    add(text, " links ", manifest.links.as_deref())?;
    add(text, " rust ", manifest.rust_version.as_deref())?;
    for (name, values) in &manifest.features {
        text.push_str("; feature ")?;
        add_list(text, name, values)?;
    }
    for dep in &manifest.deps {
        add_dep(text, dep)?;
    }
    Ok(())
}

/// All that a manifest says.
pub(crate) fn manifest_text(alloc: Global, manifest: &Manifest) -> Result<String, AllocError> {
    let mut text = String::from_str(alloc, manifest.name.as_str())?;
    add_manifest(&mut text, manifest)?;
    Ok(text)
}
