//! Why a request's body cannot be read.

ghost use Rattle.std.specs.Prelude.{◌≡◌};

use reg_body::BodyFault;
use reg_manifest::ManifestFault;
use reg_model::Rule;
use std::alloc::AllocError;

/// Why a request's body cannot be read.
#[derive(Clone, Copy, PartialEq, Debug)]
pub(crate) enum RequestFault {
    /// The body breaks this rule, and none before it.
    Broken(Rule),
    /// Out of memory.
    Memory,
}

impl From<AllocError> for RequestFault {
    ghost use Rattle.reg_api_requests.specs.declared.fault.RequestFault.TheVariants.{Memory};

    ghost from_gives = { λ _ e. e ≡ Memory };

    fn from(_error: AllocError) -> RequestFault {
        RequestFault::Memory
    }
}

impl From<BodyFault> for RequestFault {
    ghost use Rattle.reg_model.specs.Faults.{rule_of_body};
    ghost use Rattle.reg_api_requests.specs.declared.fault.RequestFault.TheVariants.{Broken};

    ghost from_gives = { λ fault e. e ≡ Broken (rule_of_body fault) };

    fn from(fault: BodyFault) -> RequestFault {
        RequestFault::Broken(Rule::from(fault))
    }
}

impl From<ManifestFault> for RequestFault {
    ghost use Rattle.reg_api_requests.specs.Faults.{fault_of_manifest};

    ghost from_gives = { λ fault e. e ≡ fault_of_manifest fault };

    fn from(fault: ManifestFault) -> RequestFault {
        match fault {
            ManifestFault::NotJson => RequestFault::Broken(Rule::B4),
            ManifestFault::Field => RequestFault::Broken(Rule::B5),
            ManifestFault::Name => RequestFault::Broken(Rule::N1),
            ManifestFault::Version => RequestFault::Broken(Rule::V1),
            ManifestFault::Dependency => RequestFault::Broken(Rule::M1),
            ManifestFault::Memory => RequestFault::Memory,
        }
    }
}
