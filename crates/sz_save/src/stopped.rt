//! Why a file isn't joined to what is kept.
use std::alloc::AllocError;
use sz_save_format::SavedError;

/// Why a file isn't joined to what is kept.
#[derive(Debug, Drop)]
pub enum ReadJoinError {
    /// The bytes aren't those of saved tables.
    NotSaved,
    /// The declarations differ, where the bytes are those of saved tables at all.
    Other,
    /// Memory ran out.
    NoMemory,
}

impl From<SavedError> for ReadJoinError {
    ghost use Rattle.std.specs.Prelude.{◌≡◌};
    ghost use Rattle.sz_save.specs.Stopped.{error_of_reading};

    ghost from_gives = { λ error stop. stop ≡ error_of_reading error };

    fn from(error: SavedError) -> ReadJoinError {
        match error {
            SavedError::NotSaved => ReadJoinError::NotSaved,
            SavedError::NoMemory => ReadJoinError::NoMemory,
        }
    }
}

impl From<AllocError> for ReadJoinError {
    ghost use Rattle.std.specs.Prelude.{◌≡◌};
    ghost use Rattle.sz_save.specs.declared.stopped.ReadJoinError.TheVariants.{NoMemory};

    ghost from_gives = { λ _ e. e ≡ NoMemory };

    fn from(_error: AllocError) -> ReadJoinError {
        ReadJoinError::NoMemory
    }
}
