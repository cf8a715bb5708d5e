//! The check of the reserved names.

ghost use Rattle.std.specs.Prelude.{◌≡◌, string_bytes};
ghost use Rattle.std.specs.List.{list_all};
ghost use Rattle.reg_audit.specs.Checks.{is_reserved as is_reserved_text, reserved_pass as reserved_pass_in};

use crate::texts::same_text;
use reg_names::{canon, parse_name};
use reg_policy::is_reserved_always;
use reg_tables::AllRows;

fn is_reserved(text: &str) -> bool
    ensures { result ≡ is_reserved_text text.now }
{
    match parse_name(text) {
        None => false,
        Some(name) => {
            let crate_text = canon(&name);
            same_text(crate_text.as_str(), text) && !is_reserved_always(&crate_text)
        }
    }
}

/// Whether each reserved text is the canonical text of a crate name that is not always reserved.
pub(crate) fn reserved_pass(rows: &AllRows) -> bool
    ensures { result ≡ reserved_pass_in rows.now }
{
    rows.reserved.iter().all(|text| is_reserved(text))
}
