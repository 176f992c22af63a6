//! Why a file has no lines.
use std::alloc::AllocFailed;
use sz_protofile_lex::LexError;
use sz_types::Place;

/// Why `lines` gives no lines.
#[derive(Debug, Drop)]
pub enum FileError {
    /// At this place stands the first byte that belongs to no token, or else the first token of the first part of the file
    /// that can't be read.
    Syntax(Place),
    /// Memory ran out.
    NoMemory,
}

impl From<LexError> for FileError {
    ghost use Rattle.sz_protofile.specs.Outcome.{refusal};
    ghost use Rattle.std.specs.Prelude.{◌≡◌};

    ghost from_gives = { λ e f. f ≡ refusal e };

    fn from(error: LexError) -> FileError {
        match error {
            LexError::Refused(place) => FileError::Syntax(place),
            LexError::NoMemory => FileError::NoMemory,
        }
    }
}

impl<T: Drop> From<AllocFailed<T>> for FileError {
    ghost use Rattle.std.specs.Prelude.{◌≡◌};
    ghost use Rattle.sz_protofile.specs.declared.error.FileError.TheVariants.{NoMemory};

    ghost from_gives = { λ _ e. e ≡ NoMemory };

    fn from(_failed: AllocFailed<T>) -> FileError {
        FileError::NoMemory
    }
}
