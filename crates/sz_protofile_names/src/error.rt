//! Why a file is refused.
use std::alloc::AllocError;
use sz_protofile::Fault;
use sz_types::{Place, Text};

/// Why a file is refused.
#[derive(Debug, Drop)]
pub enum ProtoError {
    /// The number of the rule that is broken, the place, and the name that broke it, if it was one.
    Refused {
        number: u8,
        place: Place,
        name: Option<Text>,
    },
    /// Memory ran out.
    NoMemory,
}

impl From<AllocError> for ProtoError {
    ghost use Rattle.std.specs.Prelude.{◌≡◌};
    ghost use Rattle.sz_protofile_names.specs.declared.error.ProtoError.TheVariants.{NoMemory};

    ghost from_gives = { λ _ e. e ≡ NoMemory };

    fn from(_error: AllocError) -> ProtoError {
        ProtoError::NoMemory
    }
}

impl From<Fault> for ProtoError {
    ghost use Rattle.std.specs.Prelude.{◌≡◌};
    ghost use Rattle.sz_protofile_names.specs.Outcome.{refusal};

    ghost from_gives = { λ f e. e ≡ refusal f };

    fn from(fault: Fault) -> ProtoError {
        let Fault {
            number,
            place,
            name,
        } = fault;
        ProtoError::Refused {
            number,
            place,
            name,
        }
    }
}
