//! Why bytes aren't read as a value.
use std::alloc::{AllocError, AllocFailed};

/// Why `from_flat` gives no value.
#[derive(Debug, Drop)]
pub enum FlatError {
    /// The bytes spell no value.
    NotFlat,
    /// Memory ran out.
    NoMemory,
}

impl From<AllocError> for FlatError {
    ghost use Rattle.std.specs.Prelude.{◌≡◌};
    ghost use Rattle.sz_flat.specs.declared.error.FlatError.TheVariants.{NoMemory};

    ghost from_gives = { λ _ e. e ≡ NoMemory };

    fn from(_error: AllocError) -> FlatError {
        FlatError::NoMemory
    }
}

impl<T: Drop> From<AllocFailed<T>> for FlatError {
    ghost use Rattle.std.specs.Prelude.{◌≡◌};
    ghost use Rattle.sz_flat.specs.declared.error.FlatError.TheVariants.{NoMemory};

    ghost from_gives = { λ _ e. e ≡ NoMemory };

    fn from(_failed: AllocFailed<T>) -> FlatError {
        FlatError::NoMemory
    }
}
