//! Why a condition doesn't bound its variables.
use std::alloc::{AllocError, AllocFailed};

/// Why `bounds` gives no bounds.
#[derive(Debug, PartialEq, Eq)]
pub enum BoundsError {
    /// The variable with this number, counted from 0, is the first that has no bound.
    Unbounded(u32),
    /// Memory ran out.
    NoMemory,
}

impl From<AllocError> for BoundsError {
    ghost use Rattle.std.specs.Prelude.{◌≡◌};
    ghost use Rattle.sz_quant.specs.declared.error.BoundsError.TheVariants.{NoMemory};

    ghost from_gives = { λ _ e. e ≡ NoMemory };

    fn from(_e: AllocError) -> BoundsError {
        BoundsError::NoMemory
    }
}

impl<T: Drop> From<AllocFailed<T>> for BoundsError {
    ghost use Rattle.std.specs.Prelude.{◌≡◌};
    ghost use Rattle.sz_quant.specs.declared.error.BoundsError.TheVariants.{NoMemory};

    ghost from_gives = { λ _ e. e ≡ NoMemory };

    fn from(_e: AllocFailed<T>) -> BoundsError {
        BoundsError::NoMemory
    }
}
