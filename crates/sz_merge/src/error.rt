//! Why a file isn't joined to those before it.
use std::alloc::AllocError;
use sz_save::SavedError;

/// Why a file isn't joined to those before it.
#[derive(Debug, Drop)]
pub enum MergeError {
    /// The bytes aren't those of saved tables.
    BadTables,
    /// The declarations differ from those of the first file.
    OtherTables,
    /// The bounds up to this file are together too large.
    TablesLimit,
    /// Memory ran out.
    NoMemory,
}

impl From<SavedError> for MergeError {
    ghost use Rattle.std.specs.Prelude.{◌≡◌};
    ghost use Rattle.sz_merge.specs.Files.{error_of_reading};

    ghost from_gives = { λ error failure. failure ≡ error_of_reading error };

    fn from(error: SavedError) -> MergeError {
        match error {
            SavedError::NotSaved => MergeError::BadTables,
            SavedError::NoMemory => MergeError::NoMemory,
        }
    }
}

impl From<AllocError> for MergeError {
    ghost use Rattle.std.specs.Prelude.{◌≡◌};
    ghost use Rattle.sz_merge.specs.declared.error.MergeError.TheVariants.{NoMemory};

    ghost from_gives = { λ _ e. e ≡ NoMemory };

    fn from(_error: AllocError) -> MergeError {
        MergeError::NoMemory
    }
}
