//! Why `line` prints nothing.

ghost use Rattle.std.specs.Prelude.{◌≡◌};
ghost use Rattle.reg_cli_line.specs.Faults.{words_of};

use reg_body::BodyFault;
use reg_manifest::ManifestFault;
use std::alloc::{AllocError, AllocFailed};

/// Why an input has no line: the first rule that it breaks, or out of memory.
#[derive(Clone, Copy, Debug, PartialEq)]
pub enum LineFault {
    /// It is no publish body within the limits.
    Body(BodyFault),
    /// Refused metadata, or out of memory.
    Manifest(ManifestFault),
}

impl LineFault {
    /// The code and text, as printed on standard error.
    pub fn words(self) -> &'static str
        ensures { result.now ≡ words_of self }
    {
        match self {
            LineFault::Body(fault) => fault.words(),
            LineFault::Manifest(fault) => fault.words(),
        }
    }
}

impl From<BodyFault> for LineFault {
    ghost use Rattle.reg_cli_line.specs.declared.fault.LineFault.TheVariants.{Body};

    ghost from_gives = { λ e f. f ≡ Body e };

    fn from(fault: BodyFault) -> LineFault {
        LineFault::Body(fault)
    }
}

impl From<ManifestFault> for LineFault {
    ghost use Rattle.reg_cli_line.specs.declared.fault.LineFault.TheVariants.{Manifest};

    ghost from_gives = { λ e f. f ≡ Manifest e };

    fn from(fault: ManifestFault) -> LineFault {
        LineFault::Manifest(fault)
    }
}

impl From<AllocError> for LineFault {
    ghost use Rattle.reg_cli_line.specs.Faults.{memory};

    ghost from_gives = { λ _ f. f ≡ memory };

    fn from(_: AllocError) -> LineFault {
        LineFault::Manifest(ManifestFault::Memory)
    }
}

impl<T: Drop> From<AllocFailed<T>> for LineFault {
    ghost use Rattle.reg_cli_line.specs.Faults.{memory};

    ghost from_gives = { λ _ f. f ≡ memory };

    fn from(_: AllocFailed<T>) -> LineFault {
        LineFault::Manifest(ManifestFault::Memory)
    }
}
