//! Why a program is not checked.
ghost use Rattle.std.specs.Prelude.{◌≡◌, Err, None as Nothing};
ghost use Rattle.sz_check_rules.specs.Refusals.{refused_for};
ghost use Rattle.sz_check_names.specs.Outcome.{Stops};
ghost use Rattle.sz_check_names.specs.declared.error.JudgeError.TheVariants.{Refused as refused};

use std::alloc::{AllocError, AllocFailed, Global};
use sz_check_rules::Cause;
use sz_tree::Name;
use sz_types::{Place, Text};

/// What a tree is judged to be, or why it is refused.
pub type Verdict<T> = Result<T, JudgeError>;

/// Why `check` gives no program.
#[derive(Drop)]
pub enum JudgeError {
    /// The first refusal: its cause, the place that it names, and the name that its text has.
    Refused {
        cause: Cause,
        place: Place,
        name: Option<Text>,
    },
    /// Memory ran out.
    NoMemory,
}

impl From<AllocError> for JudgeError {
    ghost use Rattle.std.specs.Prelude.{◌≡◌};
    ghost use Rattle.sz_check_names.specs.declared.error.JudgeError.TheVariants.{NoMemory};

    ghost from_gives = { λ _ e. e ≡ NoMemory };

    fn from(_e: AllocError) -> JudgeError {
        JudgeError::NoMemory
    }
}

impl<T: Drop> From<AllocFailed<T>> for JudgeError {
    ghost use Rattle.std.specs.Prelude.{◌≡◌};
    ghost use Rattle.sz_check_names.specs.declared.error.JudgeError.TheVariants.{NoMemory};

    ghost from_gives = { λ _ e. e ≡ NoMemory };

    fn from(_e: AllocFailed<T>) -> JudgeError {
        JudgeError::NoMemory
    }
}

impl JudgeError {
    /// A refusal at a place, whose text has no name.
    pub fn at(cause: Cause, place: Place) -> JudgeError
        ensures value { result ≡ refused cause place Nothing }
    {
        JudgeError::Refused {
            cause,
            place,
            name: None,
        }
    }

    /// A refusal at a name, which its text has; or that there is no memory to keep the name.
    pub fn of(alloc: Global, cause: Cause, name: &Name) -> JudgeError
        ensures value { Stops {Y = Unit} result (refused_for cause name.now) }
    {
        match Text::from_str(alloc, name.text().as_str()) {
            Ok(text) => JudgeError::Refused {
                cause,
                place: name.place(),
                name: Some(text),
            },
            Err(_) => JudgeError::NoMemory,
        }
    }
}
