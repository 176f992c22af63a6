//! Why a tree is no program.
use sz_check_names::JudgeError;
use sz_types::{Place, Text};

/// Why `check` gives no program.
#[derive(Drop)]
pub enum CheckError {
    /// The first refusal: the number of its cause, the place that it names, and the name that its text has.
    Refused {
        number: u8,
        place: Place,
        name: Option<Text>,
    },
    /// Memory ran out.
    NoMemory,
}

impl From<JudgeError> for CheckError {
    ghost use Rattle.std.specs.Prelude.{◌≡◌};
    ghost use Rattle.sz_check.specs.Answering.{numbered};

    ghost from_gives = { λ error made. made ≡ numbered error };

    fn from(error: JudgeError) -> CheckError {
        match error {
            JudgeError::Refused { cause, place, name } => CheckError::Refused {
                number: cause.number(),
                place,
                name,
            },
            JudgeError::NoMemory => CheckError::NoMemory,
        }
    }
}
