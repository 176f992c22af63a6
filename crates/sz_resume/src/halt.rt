//! Why a resumed job has no tables.
ghost use Rattle.std.specs.Prelude.{◌≡◌};
ghost use Rattle.sz_resume.specs.Halts as halts;

use std::alloc::AllocError;
use sz_io::{Failed, OutsideError};
use sz_stream::Stop;

/// Why a job that goes on after its journal ends without the tables of all its records.
#[derive(Drop)]
pub enum Halt {
    /// The run of the input ends so. Records, shards and bytes are counted from the beginning of the input, those of the journal's rounds included.
    /// Want of memory comes so too, in whichever call.
    Stopped(Stop),
    /// The input is shorter than the rounds of the journal. This is the place of the gate after which the last of them stands, counted in bytes of
    /// the journal from 0.
    Short(u64),
    /// The disk failed. It comes only where its count of faults rose.
    DiskFailed,
}

impl From<AllocError> for Halt {
    ghost use Rattle.sz_resume.specs.Halts.{no_memory};

    ghost from_gives = { λ _ halt. halt ≡ no_memory };

    fn from(_: AllocError) -> Halt {
        Halt::Stopped(Stop::NoMemory)
    }
}

impl From<Failed> for Halt {
    ghost use Rattle.sz_resume.specs.Halts.{read_failed};

    ghost from_gives = { λ _ halt. halt ≡ read_failed };

    fn from(_: Failed) -> Halt {
        Halt::Stopped(Stop::ReadFailed)
    }
}

impl From<Stop> for Halt {
    ghost use Rattle.sz_resume.specs.declared.halt.Halt.TheVariants.{Stopped};

    ghost from_gives = { λ stop halt. halt ≡ Stopped stop };

    fn from(stop: Stop) -> Halt {
        Halt::Stopped(stop)
    }
}

/// The halt for an append that the disk failed, or for which there was no memory.
pub(crate) fn of_disk(error: OutsideError) -> Halt
    ensures value { result ≡ halts.of_disk error }
{
    match error {
        OutsideError::Failed => Halt::DiskFailed,
        OutsideError::NoMemory => Halt::Stopped(Stop::NoMemory),
    }
}

/// The halt for a read that failed, or for which there was no memory.
pub(crate) fn of_file(error: OutsideError) -> Halt
    ensures value { result ≡ halts.of_file error }
{
    Halt::Stopped(Stop::from(error))
}
