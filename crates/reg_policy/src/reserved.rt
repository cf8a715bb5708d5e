//! The names that are always reserved.

ghost use Rattle.std.specs.Prelude.{◌≡◌};
ghost use Rattle.reg_model.specs.Crates.{is_reserved_always as is_reserved_always_of};

use crate::deciding::is_among;
use reg_names::CanonText;

const ALWAYS: [&str; 22] = [
    "con", "prn", "aux", "nul", "com1", "com2", "com3", "com4", "com5", "com6", "com7", "com8",
    "com9", "lpt1", "lpt2", "lpt3", "lpt4", "lpt5", "lpt6", "lpt7", "lpt8", "lpt9",
];

/// Whether a canonical text is a Windows device name, and so always reserved.
#[tactic(auto, unfolding(reg_model::specs::Crates::is_reserved_always))]
pub fn is_reserved_always(crate_text: &CanonText) -> bool
    ensures { result ≡ is_reserved_always_of crate_text.now }
{
    is_among(&ALWAYS, crate_text.as_str())
}
