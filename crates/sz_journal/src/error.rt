//! Why a journal isn't opened.
ghost use Rattle.std.specs.Prelude.{◌≡◌};

use std::alloc::{AllocError, AllocFailed};
use sz_io::OutsideError;

/// Why a journal isn't opened.
#[derive(Clone, Copy, Debug, PartialEq, Eq)]
pub enum OpenError {
    /// The first entry is that of another job.
    OtherJob,
    /// An entry behind an open gate isn't whole, isn't of the format, or has no gate behind it. The number is the place of that gate: the
    /// byte of the disk, counted from 0.
    Damaged(u64),
    /// The disk failed, and its count of faults rose.
    Failed,
    /// Memory ran out.
    NoMemory,
}

impl From<AllocError> for OpenError {
    ghost use Rattle.sz_journal.specs.declared.error.OpenError.TheVariants.{NoMemory};

    ghost from_gives = { λ _ e. e ≡ NoMemory };

    fn from(_: AllocError) -> Self {
        OpenError::NoMemory
    }
}

impl<T: Drop> From<AllocFailed<T>> for OpenError {
    ghost use Rattle.sz_journal.specs.declared.error.OpenError.TheVariants.{NoMemory};

    ghost from_gives = { λ _ e. e ≡ NoMemory };

    fn from(_: AllocFailed<T>) -> Self {
        OpenError::NoMemory
    }
}

impl From<OutsideError> for OpenError {
    ghost use Rattle.sz_journal.specs.Opening.{open_error};

    ghost from_gives = { λ outside e. e ≡ open_error outside };

    fn from(error: OutsideError) -> Self {
        match error {
            OutsideError::Failed => OpenError::Failed,
            OutsideError::NoMemory => OpenError::NoMemory,
        }
    }
}
