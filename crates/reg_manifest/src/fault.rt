//! Why metadata is refused.

ghost use Rattle.std.specs.Prelude.{◌≡◌};
ghost use Rattle.reg_manifest.specs.Words.{words_of};

use std::alloc::{AllocError, AllocFailed};

/// Why metadata is refused, in the order of the checks; `Memory` wherever it runs out. Each but
/// `Memory` is a rule of the registry; `words` gives its text.
#[derive(Clone, Copy, PartialEq, Debug)]
pub enum ManifestFault {
    /// The bytes are not one JSON value, not UTF-8, or nest past 127 levels.
    NotJson,
    /// The value is no object, or a field is missing or of the wrong kind.
    Field,
    /// `name` is no crate name.
    Name,
    /// `vers` is no version of SemVer 2.0.0.
    Version,
    /// A dependency has no name, an empty new name, an unknown kind, or an unreadable requirement.
    Dependency,
    /// Out of memory.
    Memory,
}

impl ManifestFault {
    /// The rule's code and text, as a refused request gets them; for `Memory` its name.
    pub fn words(self) -> &'static str
        ensures { result.now ≡ words_of self }
    {
        match self {
            ManifestFault::NotJson => "B4 metadata is not JSON",
            ManifestFault::Field => "B5 metadata field missing or of the wrong kind",
            ManifestFault::Name => "N1 bad crate name",
            ManifestFault::Version => "V1 bad version",
            ManifestFault::Dependency => "M1 bad dependency",
            ManifestFault::Memory => "memory",
        }
    }
}

impl From<AllocError> for ManifestFault {
    ghost use Rattle.reg_manifest.specs.declared.fault.ManifestFault.TheVariants.{Memory};

    ghost from_gives = { λ _ e. e ≡ Memory };

    fn from(_error: AllocError) -> ManifestFault {
        ManifestFault::Memory
    }
}

impl<T: Drop> From<AllocFailed<T>> for ManifestFault {
    ghost use Rattle.reg_manifest.specs.declared.fault.ManifestFault.TheVariants.{Memory};

    ghost from_gives = { λ _ e. e ≡ Memory };

    fn from(_error: AllocFailed<T>) -> ManifestFault {
        ManifestFault::Memory
    }
}
