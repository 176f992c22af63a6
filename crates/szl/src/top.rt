//! The top call: from the words and the devices to the status.
ghost use Rattle.std.specs.Prelude.{◌≡◌, ◌≤◌, ◌⊎◌, [], Err, Ok, IfOk, length, map, string_bytes};
ghost use Rattle.sz_io.specs.Opened.{KeepsFiles};
ghost use Rattle.sz_io.specs.Rose.{Rose, DoNotFall};
ghost use Rattle.sz_words.specs.Settings.{settings_in};
ghost use Rattle.szl.specs.Failing.{line_of_failure};
ghost use Rattle.szl.specs.Printing.{Prints, PrintsNothing};
ghost use Rattle.szl.specs.Promise.{MeansSource, AreReadToEnd, names_asked, most_before};
ghost use Rattle.sz_io.specs.Calls.{GainsLine};
ghost use Rattle.szl.specs.Completeness.{Completes};
ghost use Rattle.szl.specs.Saving.{SavesOutput};
ghost use Rattle.szl.specs.ResumePromise.{ByCommand, IfJob, MeansJob, CompletesJob, KeepsJournal, job_asked, names_by, names_on_disk};
ghost use Rattle.sz_disk.specs.Crashing.{DoesNotFall};
ghost use Rattle.szl.specs.ProgramRuns.{vec_items_of};

use crate::failure::Failure;
use crate::heights::Stack;
use crate::lines::{
    bad_tables_line, damaged_line, fault_line, journal_damaged_line, limit_line, lost_line,
    other_tables_line, tables_limit_line,
};
use crate::proto::bad_file_line;
use crate::resuming::answer_on_disk;
use crate::setup::{NoDisk, Setup};
use crate::status::Status;
use std::alloc::{AllocError, Global};
use std::thread::Threads;
use sz_disk::Disk;
use sz_io::{Files, Gate, Sink, WriteError, write_line, write_whole};
use sz_refusals::refusal_line;

/// Runs the command line of these words, which come without the program's name: opens what it names in `files`,
/// writes its text to `out`, and the line that says why there is none to `err`. Only status 0 says that all of the text is there; after a write
/// that failed, or want of memory, a front of it may be, even all.
///
/// In lines records and the files of `merge` are counted from 1, and so are lines and columns of a program, the columns in bytes; a fault of a static
/// is one of record 0. Shards and bytes are counted from 0. A job that is resumed needs a disk: here its words are no command line.
///
/// Each round of shards is run by as many workers as the words ask for, or by one where the types of the program are very high. Each but
/// one has a thread, which is started for the round and ends with it. The gate is called before each attempt.
///
/// The caller has a large stack: calls go down one level for each level of a type.
pub fn szl_main<R: Threads + Sync, F: Files, O: Sink, E: Sink, G: Gate + Sync>(
    rt: &R,
    alloc: Global,
    words: &[String],
    files: &mut F,
    out: &mut O,
    err: &mut E,
    gate: &G,
) -> Status
    requires { length (F.names files.old) ≤ most_before (settings_in (map string_bytes words.now)) }

    ensures outcome { MeansSource F.Files O.Sink E.Sink (map string_bytes words.now) result files.old files.new out.old out.new err.old err.new }
    ensures end { result ≡ Status.Done → AreReadToEnd F.Files files.old files.new (names_asked (settings_in (map string_bytes words.now))) }
    ensures saved { result ≡ Status.Done → SavesOutput F.Files O.Sink (settings_in (map string_bytes words.now)) files.old out.old out.new }

    ensures read_failed { result ≡ Status.ReadFailed → Rose (F.faults files.old) (F.faults files.new) }
    ensures write_failed { result ≡ Status.WriteFailed → Rose (O.faults out.old) (O.faults out.new) }
    ensures complete { (Rose (F.faults files.old) (F.faults files.new) → ⊥) → (Rose (O.faults out.old) (O.faults out.new) → ⊥)
        → Completes F.Files O.Sink E.Sink (map string_bytes words.now) result files.old files.new out.old out.new err.old err.new }

    ensures kept { KeepsFiles F.held F.left F.given F.faults files.old files.new }
    ensures out_counts { DoNotFall O.faults O.refusals out.old out.new }
    ensures err_counts { DoNotFall E.faults E.refusals err.old err.new }
    ensures quiet { result ≡ Status.Done → err.new ≡ err.old }
{
    let setup = Setup {
        stack: Stack::Large,
        has_disk: false,
    };
    szl_disk_main_on(rt, alloc, words, files, out, err, gate, &mut NoDisk, setup)
}

/// The same as `szl_main` where there is a disk: a job that is resumed has its journal there, from the disk's first byte on, and places in its line
/// are bytes of the journal, counted from 0. No other command calls the disk. The journal is opened after the statics and before the input.
pub fn szl_disk_main<R: Threads + Sync, F: Files, O: Sink, E: Sink, G: Gate + Sync, K: Disk>(
    rt: &R,
    alloc: Global,
    words: &[String],
    files: &mut F,
    out: &mut O,
    err: &mut E,
    gate: &G,
    disk: &mut K,
) -> Status
    requires { length (F.names files.old) ≤ most_before (settings_in (map string_bytes words.now)) }

    ensures outcome { ByCommand (settings_in (map string_bytes words.now))
        (λ s. MeansJob F.Files O.Sink E.Sink K.Disk s result files.old files.new out.old out.new err.old err.new disk.old)
        (MeansSource F.Files O.Sink E.Sink (map string_bytes words.now) result files.old files.new out.old out.new err.old err.new) }
    ensures end { result ≡ Status.Done → AreReadToEnd F.Files files.old files.new (names_on_disk (settings_in (map string_bytes words.now))) }
    ensures saved { result ≡ Status.Done → SavesOutput F.Files O.Sink (settings_in (map string_bytes words.now)) files.old out.old out.new }
    ensures journal { ByCommand (settings_in (map string_bytes words.now)) (λ s. KeepsJournal F.Files K.Disk s result files.old disk.old disk.new)
        (disk.new ≡ disk.old) }

    ensures read_failed { result ≡ Status.ReadFailed → Rose (F.faults files.old) (F.faults files.new) }
    ensures write_failed { result ≡ Status.WriteFailed → Rose (O.faults out.old) (O.faults out.new) }
    ensures disk_failed { result ≡ Status.DiskFailed → Rose (K.faults disk.old) (K.faults disk.new) }
    ensures complete { (Rose (F.faults files.old) (F.faults files.new) → ⊥) → (Rose (O.faults out.old) (O.faults out.new) → ⊥)
        → ByCommand (settings_in (map string_bytes words.now)) (λ s. (Rose (K.faults disk.old) (K.faults disk.new) → ⊥)
        → CompletesJob F.Files O.Sink E.Sink K.Disk s result files.old files.new out.old out.new err.old err.new disk.old)
        (Completes F.Files O.Sink E.Sink (map string_bytes words.now) result files.old files.new out.old out.new err.old err.new) }

    ensures kept { KeepsFiles F.held F.left F.given F.faults files.old files.new }
    ensures out_counts { DoNotFall O.faults O.refusals out.old out.new }
    ensures err_counts { DoNotFall E.faults E.refusals err.old err.new }
    ensures quiet { result ≡ Status.Done → err.new ≡ err.old }
    ensures disk_counts { DoesNotFall (K.faults disk.old) (K.faults disk.new) }
{
    let setup = Setup {
        stack: Stack::Large,
        has_disk: true,
    };
    szl_disk_main_on(rt, alloc, words, files, out, err, gate, disk, setup)
}

/// The same as `szl_disk_main` for what the caller has: this stack, and the disk or none. Without one it is the same as `szl_main`.
pub fn szl_disk_main_on<R: Threads + Sync, F: Files, O: Sink, E: Sink, G: Gate + Sync, K: Disk>(
    rt: &R,
    alloc: Global,
    words: &[String],
    files: &mut F,
    out: &mut O,
    err: &mut E,
    gate: &G,
    disk: &mut K,
    setup: Setup,
) -> Status
    requires { length (F.names files.old) ≤ most_before (settings_in (map string_bytes words.now)) }

    ensures outcome { IfJob (job_asked setup.has_disk (settings_in (map string_bytes words.now)))
        (λ s. MeansJob F.Files O.Sink E.Sink K.Disk s result files.old files.new out.old out.new err.old err.new disk.old)
        (MeansSource F.Files O.Sink E.Sink (map string_bytes words.now) result files.old files.new out.old out.new err.old err.new) }
    ensures end { result ≡ Status.Done → AreReadToEnd F.Files files.old files.new
        (names_by (job_asked setup.has_disk (settings_in (map string_bytes words.now))) (settings_in (map string_bytes words.now))) }
    ensures saved { result ≡ Status.Done → SavesOutput F.Files O.Sink (settings_in (map string_bytes words.now)) files.old out.old out.new }
    ensures journal { IfJob (job_asked setup.has_disk (settings_in (map string_bytes words.now)))
        (λ s. KeepsJournal F.Files K.Disk s result files.old disk.old disk.new) (disk.new ≡ disk.old) }

    ensures read_failed { result ≡ Status.ReadFailed → Rose (F.faults files.old) (F.faults files.new) }
    ensures write_failed { result ≡ Status.WriteFailed → Rose (O.faults out.old) (O.faults out.new) }
    ensures disk_failed { result ≡ Status.DiskFailed → Rose (K.faults disk.old) (K.faults disk.new) }
    ensures complete { (Rose (F.faults files.old) (F.faults files.new) → ⊥) → (Rose (O.faults out.old) (O.faults out.new) → ⊥)
        → IfJob (job_asked setup.has_disk (settings_in (map string_bytes words.now))) (λ s. (Rose (K.faults disk.old) (K.faults disk.new) → ⊥)
        → CompletesJob F.Files O.Sink E.Sink K.Disk s result files.old files.new out.old out.new err.old err.new disk.old)
        (Completes F.Files O.Sink E.Sink (map string_bytes words.now) result files.old files.new out.old out.new err.old err.new) }

    ensures kept { KeepsFiles F.held F.left F.given F.faults files.old files.new }
    ensures out_counts { DoNotFall O.faults O.refusals out.old out.new }
    ensures err_counts { DoNotFall E.faults E.refusals err.old err.new }
    ensures quiet { result ≡ Status.Done → err.new ≡ err.old }
    ensures disk_counts { DoesNotFall (K.faults disk.old) (K.faults disk.new) }
{
    let answer = answer_on_disk(rt, alloc, words, files, gate, disk, setup);
    match print(out, answer) {
        Ok(()) => Status::Done,
        Err(failure) => tell(alloc, err, failure).status(),
    }
}

/// Writes the text of an answer, if it has one.
fn print<O: Sink>(out: &mut O, answer: Result<Vec<u8>, Failure>) -> Result<(), Failure>
    ensures value { Prints (O.taken out.old) (O.taken out.new) (vec_items_of answer) result }
    ensures nothing { PrintsNothing (vec_items_of answer) out.old out.new }
    ensures failed { result ≡ Err Failure.WriteFailed → (vec_items_of answer ≡ Err Failure.WriteFailed) ⊎ Rose (O.faults out.old) (O.faults out.new) }
    ensures kept { DoNotFall O.faults O.refusals out.old out.new }
{
    match answer {
        Ok(text) => print_text(out, &text),
        Err(failure) => Err(failure),
    }
}

/// Writes a text.
#[tactic(auto, using(crate::proofs::MainLemmas::some_bytes))]
fn print_text<O: Sink>(out: &mut O, text: &[u8]) -> Result<(), Failure>
    ensures value { Prints (O.taken out.old) (O.taken out.new) (Ok text.now) result }
    ensures nothing { text.now ≡ [] → out.new ≡ out.old }
    ensures failed { result ≡ Err Failure.WriteFailed → Rose (O.faults out.old) (O.faults out.new) }
    ensures kept { DoNotFall O.faults O.refusals out.old out.new }
{
    match write_whole(out, text) {
        Ok(()) => Ok(()),
        Err(WriteError::Failed(_)) => Err(Failure::WriteFailed),
        Err(WriteError::NoMemory(_)) => Err(Failure::NoMemory),
    }
}

/// Writes the line of a failure, and gives what was told: the failure, or want of memory where there was none for its line.
fn tell<E: Sink>(alloc: Global, err: &mut E, failure: Failure) -> Failure
    ensures told { (result ≡ failure) ⊎ (result ≡ Failure.NoMemory) }
    ensures line { GainsLine E.Sink err.old err.new (line_of_failure result) }
    ensures kept { DoNotFall E.faults E.refusals err.old err.new }
{
    match &failure {
        Failure::Usage => tell_line(err, b"bad command line\n", failure),
        Failure::Refused(refusal) => tell_made(err, refusal_line(alloc, refusal), failure),
        Failure::Faulted(number, fault) => tell_made(
            err,
            fault_line(alloc, *number, fault),
            failure,
        ),
        Failure::Lost(shard) => tell_made(err, lost_line(alloc, *shard), failure),
        Failure::Damaged(byte) => tell_made(err, damaged_line(alloc, *byte), failure),
        Failure::Limit(byte) => tell_made(err, limit_line(alloc, *byte), failure),
        Failure::BadTables(number) => tell_made(err, bad_tables_line(alloc, *number), failure),
        Failure::OtherTables(number) => tell_made(err, other_tables_line(alloc, *number), failure),
        Failure::BadProtoFile(fault) => tell_made(err, bad_file_line(alloc, fault), failure),
        Failure::TablesLimit(number) => tell_made(err, tables_limit_line(alloc, *number), failure),
        Failure::OtherJob => tell_line(err, b"other job in journal\n", failure),
        Failure::JournalDamaged(gate) => tell_made(
            err,
            journal_damaged_line(alloc, *gate),
            failure,
        ),
        Failure::DiskFailed => tell_line(err, b"disk failed\n", failure),
        Failure::ReadFailed => tell_line(err, b"read failed\n", failure),
        Failure::WriteFailed => tell_line(err, b"write failed\n", failure),
        Failure::NoMemory => tell_line(err, b"out of memory\n", failure),
    }
}

/// Writes the line that was made for a failure, and gives what was told: want of memory where there was none for the line.
fn tell_made<E: Sink>(err: &mut E, made: Result<Vec<u8>, AllocError>, failure: Failure) -> Failure
    requires { IfOk made (λ line. line.items ≡ line_of_failure failure) }
    ensures told { (result ≡ failure) ⊎ (result ≡ Failure.NoMemory) }
    ensures line { GainsLine E.Sink err.old err.new (line_of_failure result) }
    ensures kept { DoNotFall E.faults E.refusals err.old err.new }
{
    match made {
        Ok(line) => tell_line(err, &line, failure),
        Err(_) => tell_line(err, b"out of memory\n", Failure::NoMemory),
    }
}

/// Writes the line of a failure, which is told. A line that can't be written changes nothing more.
fn tell_line<E: Sink>(err: &mut E, line: &[u8], failure: Failure) -> Failure
    requires { line.now ≡ line_of_failure failure }
    ensures told { result ≡ failure }
    ensures line { GainsLine E.Sink err.old err.new (line_of_failure failure) }
    ensures kept { DoNotFall E.faults E.refusals err.old err.new }
{
    write_line(err, line);
    failure
}
