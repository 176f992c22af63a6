//! Why an input has no tables.
ghost use Rattle.std.specs.Prelude.{◌≡◌};

use std::alloc::AllocError;
use sz_io::OutsideError;
use sz_machine::Fault;

/// Why the run of an input ends without the tables of all its records.
#[derive(Drop)]
pub enum Stop {
    /// More records fault than may be passed over, and no shard up to the one with the first too many is lost.
    Fault {
        /// The number of the first record too many, counted from 1 in the whole input.
        record_no: u64,
        /// Its fault: the kind, and the place in the program.
        fault: Fault,
    },
    /// The first shard that decides is lost, as all attempts on it died: its number, counted from 0 in the whole input.
    Lost(u64),
    /// No shard decides, and the input is damaged where a record would begin, at this byte of it, counted from 0.
    Damaged(u64),
    /// No shard decides, and the input passes a limit where a record would begin, at this byte of it, counted from 0.
    Limit(u64),
    /// A piece couldn't be read. It comes only where the count of faults of the files rose.
    ReadFailed,
    /// There was not enough memory.
    NoMemory,
}

impl From<AllocError> for Stop {
    ghost use Rattle.sz_stream.specs.declared.stop.Stop.TheVariants.{NoMemory};

    ghost from_gives = { λ _ stop. stop ≡ NoMemory };

    fn from(_: AllocError) -> Stop {
        Stop::NoMemory
    }
}

impl From<OutsideError> for Stop {
    ghost use Rattle.sz_stream.specs.InputRuns.{stop_of};

    ghost from_gives = { λ error stop. stop ≡ stop_of error };

    fn from(error: OutsideError) -> Stop {
        match error {
            OutsideError::Failed => Stop::ReadFailed,
            OutsideError::NoMemory => Stop::NoMemory,
        }
    }
}
