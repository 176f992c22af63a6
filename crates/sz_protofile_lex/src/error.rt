//! Why a file has no tokens.
use std::alloc::AllocFailed;
use sz_types::Place;

/// Why `lex` gives no tokens.
#[derive(Debug, Drop)]
pub enum LexError {
    /// At this place stands a byte with which no token begins, or a string or a comment begins that isn't closed.
    Refused(Place),
    /// Memory ran out.
    NoMemory,
}

impl<T: Drop> From<AllocFailed<T>> for LexError {
    ghost use Rattle.std.specs.Prelude.{◌≡◌};
    ghost use Rattle.sz_protofile_lex.specs.declared.error.LexError.TheVariants.{NoMemory};

    ghost from_gives = { λ _ e. e ≡ NoMemory };

    fn from(_failed: AllocFailed<T>) -> LexError {
        LexError::NoMemory
    }
}
