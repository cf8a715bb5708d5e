//! Names, paths, patterns and ranges.

use reg_names::{CanonText, CrateName, Login, NameRange, PathText, Pattern};
use std::alloc::{AllocError, Global};

const _: fn(&str) -> Option<CrateName> = reg_names::parse_name;

const _: fn(&str) -> Option<Login> = reg_names::parse_login;

const _: fn(&CrateName) -> CanonText = reg_names::canon;

const _: fn(&CrateName) -> CrateName = reg_names::lower;

const _: fn(&CrateName, &CrateName) -> bool = reg_names::collides;

const _: fn(&CrateName) -> PathText = reg_names::index_path;

const _: fn(&str) -> Option<CrateName> = reg_names::name_of_path;

const _: fn(&Pattern, &CrateName) -> bool = reg_names::covers;

const _: fn(&NameRange, &CrateName) -> bool = reg_names::in_range;

const _: fn(Global, &Pattern) -> Result<NameRange, AllocError> = reg_names::compile;

fn call_methods(
    alloc: Global,
    name: &CrateName,
    canon: &CanonText,
    path: &PathText,
    pattern: &Pattern,
    login: &Login,
) {
    return;
    let _: &str = CrateName::as_str(name);
    let _: &str = CanonText::as_str(canon);
    let _: &str = PathText::as_str(path);
    let _: &str = Pattern::as_str(pattern);
    let _: &str = Login::as_str(login);
    let _: Option<Pattern> = Pattern::parse("");
    let _ = NameRange {
        low: String::new(alloc),
        high: String::new(alloc),
    };
}
