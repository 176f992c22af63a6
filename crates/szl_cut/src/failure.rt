//! Why a file isn't cut.
ghost use Rattle.std.specs.Prelude.{◌≡◌};
ghost use Rattle.szl_cut.specs.Answers.{code_of};

use std::alloc::AllocError;
use sz_io::OutsideError;

/// Why a call ends without the places.
#[derive(Clone, Copy, Debug, PartialEq, Eq)]
pub enum Failure {
    /// The words are no command line.
    Usage,
    /// The file is damaged where a message would begin, at this byte from 0.
    Damaged(u64),
    /// The file passes a limit where a message would begin, at this byte from 0.
    Limit(u64),
    /// The file couldn't be opened or read.
    ReadFailed,
    /// The places couldn't be written.
    WriteFailed,
    /// There was not enough memory.
    NoMemory,
}

impl Failure {
    /// The exit status of the process, which is that of `szl` for the same cause.
    pub fn code(self) -> u8
        ensures value { result ≡ code_of self }
    {
        match self {
            Failure::Usage => 1,
            Failure::Damaged(_) => 4,
            Failure::ReadFailed => 5,
            Failure::WriteFailed => 6,
            Failure::NoMemory => 8,
            Failure::Limit(_) => 9,
        }
    }
}

impl From<AllocError> for Failure {
    ghost use Rattle.szl_cut.specs.declared.failure.Failure.TheVariants.{NoMemory};

    ghost from_gives = { λ _ failure. failure ≡ NoMemory };

    fn from(_: AllocError) -> Failure {
        Failure::NoMemory
    }
}

impl From<OutsideError> for Failure {
    ghost use Rattle.szl_cut.specs.Answers.{failure_of};

    ghost from_gives = { λ error failure. failure ≡ failure_of error };

    fn from(error: OutsideError) -> Failure {
        match error {
            OutsideError::Failed => Failure::ReadFailed,
            OutsideError::NoMemory => Failure::NoMemory,
        }
    }
}
