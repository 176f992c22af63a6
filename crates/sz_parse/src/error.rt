//! Why tokens spell no tree.
use std::alloc::AllocFailed;
use sz_types::Place;

/// Why `parse` gives no tree.
#[derive(Debug, Drop)]
pub enum ParseError {
    /// At this place stands the first token after the longest list of whole statements at the front.
    Syntax(Place),
    /// Memory ran out.
    NoMemory,
}

impl<T: Drop> From<AllocFailed<T>> for ParseError {
    ghost use Rattle.std.specs.Prelude.{◌≡◌};
    ghost use Rattle.sz_parse.specs.declared.error.ParseError.TheVariants.{NoMemory};

    ghost from_gives = { λ _ e. e ≡ NoMemory };

    fn from(_failed: AllocFailed<T>) -> ParseError {
        ParseError::NoMemory
    }
}
