//! Why a text has no tokens.
use std::alloc::AllocFailed;
use sz_types::Place;

/// Why `lex` gives no tokens.
#[derive(Debug, Drop)]
pub enum LexError {
    /// At this place stands a byte with which no token begins.
    BadChar(Place),
    /// At this place begins a number, a string, a bytes or a character literal that isn't of its form.
    BadLiteral(Place),
    /// At this place stands the first byte that isn't part of a valid front. It is looked for before the other two.
    NotUtf8(Place),
    /// Memory ran out.
    NoMemory,
}

impl<T: Drop> From<AllocFailed<T>> for LexError {
    ghost use Rattle.std.specs.Prelude.{◌≡◌};
    ghost use Rattle.sz_lex.specs.declared.error.LexError.TheVariants.{NoMemory};

    ghost from_gives = { λ _ e. e ≡ NoMemory };

    fn from(_failed: AllocFailed<T>) -> LexError {
        LexError::NoMemory
    }
}
