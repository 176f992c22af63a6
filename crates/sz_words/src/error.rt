//! Why words give no settings.
use std::alloc::AllocError;

/// Why words give no settings.
#[derive(Clone, Copy, Debug, PartialEq, Eq)]
pub enum WordsError {
    /// The words are no command line, whatever the files hold that they name.
    Usage,
    /// There was no memory.
    NoMemory,
}

impl From<AllocError> for WordsError {
    ghost use Rattle.std.specs.Prelude.{◌≡◌};
    ghost use Rattle.sz_words.specs.declared.error.WordsError.TheVariants.{NoMemory};

    ghost from_gives = { λ _ e. e ≡ NoMemory };

    fn from(_: AllocError) -> Self {
        WordsError::NoMemory
    }
}
