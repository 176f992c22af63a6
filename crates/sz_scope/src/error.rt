//! Why a name isn't declared.
use std::alloc::AllocError;

/// Why `declare` leaves the blocks as they are.
#[derive(Clone, Copy, Debug, PartialEq, Eq)]
pub enum ScopeError {
    /// The innermost block has the name.
    Twice,
    /// Memory ran out.
    NoMemory,
}

impl From<AllocError> for ScopeError {
    ghost use Rattle.std.specs.Prelude.{◌≡◌};
    ghost use Rattle.sz_scope.specs.declared.error.ScopeError.TheVariants.{NoMemory};

    ghost from_gives = { λ _ e. e ≡ NoMemory };

    fn from(_failed: AllocError) -> ScopeError {
        ScopeError::NoMemory
    }
}
