//! Why bytes aren't read as an entry of a journal.
use std::alloc::{AllocError, AllocFailed};
use sz_save_format::SavedError;

/// Why `read_job` gives no job, and `read_round` no round.
#[derive(Debug, Drop)]
pub enum EntryError {
    /// The bytes aren't those of such an entry.
    NotEntry,
    /// Memory ran out.
    NoMemory,
}

impl From<AllocError> for EntryError {
    ghost use Rattle.std.specs.Prelude.{◌≡◌};
    ghost use Rattle.sz_journal.specs.declared.entry_error.EntryError.TheVariants.{NoMemory};

    ghost from_gives = { λ _ e. e ≡ NoMemory };

    fn from(_error: AllocError) -> EntryError {
        EntryError::NoMemory
    }
}

impl<T: Drop> From<AllocFailed<T>> for EntryError {
    ghost use Rattle.std.specs.Prelude.{◌≡◌};
    ghost use Rattle.sz_journal.specs.declared.entry_error.EntryError.TheVariants.{NoMemory};

    ghost from_gives = { λ _ e. e ≡ NoMemory };

    fn from(_failed: AllocFailed<T>) -> EntryError {
        EntryError::NoMemory
    }
}

impl From<SavedError> for EntryError {
    ghost use Rattle.std.specs.Prelude.{◌≡◌};
    ghost use Rattle.sz_journal.specs.EntryReading.{entry_error};

    ghost from_gives = { λ saved e. e ≡ entry_error saved };

    fn from(error: SavedError) -> EntryError {
        match error {
            SavedError::NotSaved => EntryError::NotEntry,
            SavedError::NoMemory => EntryError::NoMemory,
        }
    }
}
