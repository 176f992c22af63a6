//! Why a call of the program ends without all its output.
ghost use Rattle.std.specs.Prelude.{◌≡◌};
ghost use Rattle.szl.specs.Failing.{status_of};
ghost use Rattle.sz_refusals.specs.Refusing.{refusal_at};
ghost use Rattle.szl.specs.declared.failure.Failure.TheVariants.{Refused as failed};

use crate::status::Status;
use std::alloc::AllocError;
use sz_check_rules::Cause;
use sz_io::OutsideError;
use sz_journal::OpenError;
use sz_lex::LexError;
use sz_machine::Fault;
use sz_parse::ParseError;
use sz_protofile::Fault as FileFault;
use sz_refusals::Refusal;
use sz_resume::Halt;
use sz_stream::Stop;
use sz_types::Place;
use sz_words::WordsError;

/// The causes, each with a status and a line of its own.
#[derive(Debug)]
pub enum Failure {
    /// The words are no command line.
    Usage,
    /// The program is refused.
    Refused(Refusal),
    /// A record faults. Records are numbered from 1; the number of a fault in a static is 0.
    Faulted(u64, Fault),
    /// All attempts on a shard died. Shards are numbered from 0.
    Lost(u64),
    /// The input is damaged where a record would begin, at this byte, counted from 0.
    Damaged(u64),
    /// The input passes a limit where a record would begin, at this byte, counted from 0; or a file to be joined has a byte of this number,
    /// which is one too many.
    Limit(u64),
    /// The file with this number among those to be joined, counted from 1, holds no saved tables.
    BadTables(u64),
    /// The tables of the file with this number, counted from 1, are declared otherwise than those of the first.
    OtherTables(u64),
    /// The bounds of the files up to the one with this number, counted from 1, pass the greatest one together.
    TablesLimit(u64),
    /// The `.proto` file is refused.
    BadProtoFile(FileFault),
    /// The journal is that of another job.
    OtherJob,
    /// The journal is damaged behind the gate at this byte of it, counted from 0; or the input is shorter than the round behind that gate says.
    JournalDamaged(u64),
    /// The disk of the journal failed.
    DiskFailed,
    /// A file couldn't be opened or read.
    ReadFailed,
    /// The text couldn't be written.
    WriteFailed,
    /// There was not enough memory.
    NoMemory,
}

impl Drop for Failure {
    fn drop(self) {
        match self {
            Failure::Usage
            | Failure::Refused(_)
            | Failure::Faulted(_, _)
            | Failure::Lost(_)
            | Failure::Damaged(_)
            | Failure::Limit(_)
            | Failure::BadTables(_)
            | Failure::OtherTables(_)
            | Failure::TablesLimit(_)
            | Failure::BadProtoFile(_)
            | Failure::OtherJob
            | Failure::JournalDamaged(_)
            | Failure::DiskFailed
            | Failure::ReadFailed
            | Failure::WriteFailed
            | Failure::NoMemory => {}
        }
    }
}

impl Failure {
    /// The exit status.
    pub fn status(&self) -> Status
        ensures value { result ≡ status_of self.now }
    {
        match self {
            Failure::Usage => Status::Usage,
            Failure::Refused(_) => Status::Program,
            Failure::Faulted(_, _) => Status::RecordFault,
            Failure::Lost(_) => Status::ShardLost,
            Failure::Damaged(_) => Status::Damaged,
            Failure::Limit(_) => Status::Limit,
            Failure::BadTables(_) => Status::BadTables,
            Failure::OtherTables(_) => Status::OtherTables,
            Failure::TablesLimit(_) => Status::TablesLimit,
            Failure::BadProtoFile(_) => Status::BadProtoFile,
            Failure::OtherJob => Status::OtherJob,
            Failure::JournalDamaged(_) => Status::JournalDamaged,
            Failure::DiskFailed => Status::DiskFailed,
            Failure::ReadFailed => Status::ReadFailed,
            Failure::WriteFailed => Status::WriteFailed,
            Failure::NoMemory => Status::NoMemory,
        }
    }
}

/// The failure of a program that is refused for a cause at a place.
pub fn refused(cause: Cause, place: Place) -> Failure
    ensures value { result ≡ failed (refusal_at cause place) }
{
    Failure::Refused(Refusal::at(cause, place))
}

impl From<AllocError> for Failure {
    ghost use Rattle.szl.specs.declared.failure.Failure.TheVariants.{NoMemory};

    ghost from_gives = { λ _ failure. failure ≡ NoMemory };

    fn from(_: AllocError) -> Failure {
        Failure::NoMemory
    }
}

impl From<OutsideError> for Failure {
    ghost use Rattle.szl.specs.ProgramRuns.{failure_of_opening};

    ghost from_gives = { λ error failure. failure ≡ failure_of_opening error };

    fn from(error: OutsideError) -> Failure {
        match error {
            OutsideError::Failed => Failure::ReadFailed,
            OutsideError::NoMemory => Failure::NoMemory,
        }
    }
}

impl From<Stop> for Failure {
    ghost use Rattle.szl.specs.ProgramRuns.{failure_of_stop};

    ghost from_gives = { λ stop failure. failure ≡ failure_of_stop stop };

    fn from(stop: Stop) -> Failure {
        match stop {
            Stop::Fault { record_no, fault } => Failure::Faulted(record_no, fault),
            Stop::Lost(shard) => Failure::Lost(shard),
            Stop::Damaged(byte) => Failure::Damaged(byte),
            Stop::Limit(byte) => Failure::Limit(byte),
            Stop::ReadFailed => Failure::ReadFailed,
            Stop::NoMemory => Failure::NoMemory,
        }
    }
}

impl From<OpenError> for Failure {
    ghost use Rattle.szl.specs.JournalRuns.{failure_of_journal};

    ghost from_gives = { λ error failure. failure ≡ failure_of_journal error };

    fn from(error: OpenError) -> Failure {
        match error {
            OpenError::OtherJob => Failure::OtherJob,
            OpenError::Damaged(gate) => Failure::JournalDamaged(gate),
            OpenError::Failed => Failure::DiskFailed,
            OpenError::NoMemory => Failure::NoMemory,
        }
    }
}

impl From<Halt> for Failure {
    ghost use Rattle.szl.specs.JournalRuns.{failure_of_halt};

    ghost from_gives = { λ halt failure. failure ≡ failure_of_halt halt };

    fn from(halt: Halt) -> Failure {
        match halt {
            Halt::Stopped(stop) => Failure::from(stop),
            Halt::Short(gate) => Failure::JournalDamaged(gate),
            Halt::DiskFailed => Failure::DiskFailed,
        }
    }
}

impl From<WordsError> for Failure {
    ghost use Rattle.szl.specs.Judging.{failure_of_words};

    ghost from_gives = { λ error failure. failure ≡ failure_of_words error };

    fn from(error: WordsError) -> Failure {
        match error {
            WordsError::Usage => Failure::Usage,
            WordsError::NoMemory => Failure::NoMemory,
        }
    }
}

impl From<LexError> for Failure {
    ghost use Rattle.szl.specs.Judging.{failure_of_lexing};

    ghost from_gives = { λ error failure. failure ≡ failure_of_lexing error };

    fn from(error: LexError) -> Failure {
        match error {
            LexError::BadChar(place) => refused(Cause::BadChar, place),
            LexError::BadLiteral(place) => refused(Cause::BadLiteral, place),
            LexError::NotUtf8(place) => refused(Cause::NotUtf8, place),
            LexError::NoMemory => Failure::NoMemory,
        }
    }
}

impl From<ParseError> for Failure {
    ghost use Rattle.szl.specs.Judging.{failure_of_parsing};

    ghost from_gives = { λ error failure. failure ≡ failure_of_parsing error };

    fn from(error: ParseError) -> Failure {
        match error {
            ParseError::Syntax(place) => refused(Cause::Syntax, place),
            ParseError::NoMemory => Failure::NoMemory,
        }
    }
}
