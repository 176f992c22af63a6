//! Why bytes aren't read as saved tables.
use std::alloc::{AllocError, AllocFailed};

/// Why `read_saved` gives no tables.
#[derive(Debug, Drop)]
pub enum SavedError {
    /// The bytes aren't those of saved tables.
    NotSaved,
    /// Memory ran out.
    NoMemory,
}

impl From<AllocError> for SavedError {
    ghost use Rattle.std.specs.Prelude.{◌≡◌};
    ghost use Rattle.sz_save_format.specs.declared.error.SavedError.TheVariants.{NoMemory};

    ghost from_gives = { λ _ e. e ≡ NoMemory };

    fn from(_error: AllocError) -> SavedError {
        SavedError::NoMemory
    }
}

impl<T: Drop> From<AllocFailed<T>> for SavedError {
    ghost use Rattle.std.specs.Prelude.{◌≡◌};
    ghost use Rattle.sz_save_format.specs.declared.error.SavedError.TheVariants.{NoMemory};

    ghost from_gives = { λ _ e. e ≡ NoMemory };

    fn from(_failed: AllocFailed<T>) -> SavedError {
        SavedError::NoMemory
    }
}
