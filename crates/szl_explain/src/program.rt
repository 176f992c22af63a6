//! The call of the program: from the words and the devices to the status.
ghost use Rattle.std.specs.Prelude.{◌≡◌, ◌<◌, ◌++◌, ℕ, [], Err, OnOk, OnErr, IfSome, length, map, string_bytes};
ghost use Rattle.std.specs.Io.KnownBytes.{Appends};
ghost use Rattle.sz_io.specs.Rose.{Rose, DoNotFall};
ghost use Rattle.sz_io.specs.Opened.{KeepsFiles};
ghost use Rattle.sz_io.specs.Calls.{AppendsPart, GainsLine, NamesGain, ReadToEnd};
ghost use Rattle.szl_explain.specs.Answers.{asked_in, code_of, line_of, status_of, ran_out, Answers, IsAnswer, OpensAsked};
ghost use Rattle.szl_explain.specs.Writing.{Prints};

use crate::explanation::{Explanation, explain, explain_too_long};
use std::alloc::{AllocError, Global};
use sz_io::{
    Files, ReadError, Sink, WriteError, is_file_name, read_whole, write_line, write_whole,
};
use sz_refusals::{MOST_PROGRAM_BYTES, Refusal};

/// How a call ends, by the statuses that `szl` has for the same.
#[derive(Clone, Copy, Debug, PartialEq, Eq)]
pub enum Status {
    /// The program passes.
    Done,
    /// The words are not one name.
    Usage,
    /// The program is refused.
    Program,
    /// The program couldn't be opened or read.
    ReadFailed,
    /// The explanation couldn't be written.
    WriteFailed,
    /// There was not enough memory.
    NoMemory,
}

impl Status {
    /// The exit status.
    pub fn code(self) -> u8
        ensures value { result ≡ code_of self }
    {
        match self {
            Status::Done => 0,
            Status::Usage => 1,
            Status::Program => 2,
            Status::ReadFailed => 5,
            Status::WriteFailed => 6,
            Status::NoMemory => 8,
        }
    }

    /// The line that tells of it where there is no explanation, with its newline.
    fn line(self) -> &'static [u8]
        ensures value { result.now ≡ line_of self }
    {
        match self {
            Status::Done | Status::Program => b"",
            Status::Usage => b"bad command line\n",
            Status::ReadFailed => b"read failed\n",
            Status::WriteFailed => b"write failed\n",
            Status::NoMemory => b"out of memory\n",
        }
    }
}

/// Writes to `out` what is said of the program under the one name that the words are, or to `err` why there is no explanation. The name `-`
/// is standard input.
///
/// The caller has a large stack: calls go down one level for each level of a type.
pub fn explain_file<F: Files, O: Sink, E: Sink>(
    alloc: Global,
    words: &[String],
    files: &mut F,
    out: &mut O,
    err: &mut E,
) -> Status
    requires { length (F.names files.old) < 128 }
    ensures answer { Answers O.Sink (F.held files.old) (asked_in (map string_bytes words.now)) result out.old out.new }
    ensures line { GainsLine E.Sink err.old err.new (line_of result) }
    ensures quiet { line_of result ≡ [] → err.new ≡ err.old }

    ensures read_failed { result ≡ Status.ReadFailed → Rose (F.faults files.old) (F.faults files.new) }
    ensures write_failed { result ≡ Status.WriteFailed → Rose (O.faults out.old) (O.faults out.new) }

    ensures end { result ≡ Status.Done → IfSome (asked_in (map string_bytes words.now)) (ReadToEnd F.Files files.old files.new) }
    ensures names { OpensAsked F.Files (asked_in (map string_bytes words.now)) result files.old files.new }
    ensures kept { KeepsFiles F.held F.left F.given F.faults files.old files.new }
    ensures out_counts { DoNotFall O.faults O.refusals out.old out.new }
    ensures err_counts { DoNotFall E.faults E.refusals err.old err.new }
{
    let status = explain_words(alloc, words, files, out);
    write_line(err, status.line());
    status
}

/// Writes what is said of the program that the words name.
fn explain_words<F: Files, O: Sink>(
    alloc: Global,
    words: &[String],
    files: &mut F,
    out: &mut O,
) -> Status
    requires { length (F.names files.old) < 128 }
    ensures answer { Answers O.Sink (F.held files.old) (asked_in (map string_bytes words.now)) result out.old out.new }
    ensures read_failed { result ≡ Status.ReadFailed → Rose (F.faults files.old) (F.faults files.new) }
    ensures write_failed { result ≡ Status.WriteFailed → Rose (O.faults out.old) (O.faults out.new) }
    ensures end { result ≡ Status.Done → IfSome (asked_in (map string_bytes words.now)) (ReadToEnd F.Files files.old files.new) }
    ensures names { OpensAsked F.Files (asked_in (map string_bytes words.now)) result files.old files.new }
    ensures kept { KeepsFiles F.held F.left F.given F.faults files.old files.new }
    ensures out_counts { DoNotFall O.faults O.refusals out.old out.new }
{
    let [name] = words else {
        return Status::Usage;
    };
    if !is_file_name(name.as_bytes()) {
        return Status::Usage;
    }
    explain_named(alloc, name.as_str(), files, out)
}

/// Writes what is said of the program under a name.
fn explain_named<F: Files, O: Sink>(alloc: Global, name: &str, files: &mut F, out: &mut O) -> Status
    requires { length (F.names files.old) < 128 }
    ensures answer { IsAnswer O.Sink (F.held files.old name.now) result out.old out.new }
    ensures read_failed { result ≡ Status.ReadFailed → Rose (F.faults files.old) (F.faults files.new) }
    ensures write_failed { result ≡ Status.WriteFailed → Rose (O.faults out.old) (O.faults out.new) }
    ensures end { result ≡ Status.Done → ReadToEnd F.Files files.old files.new name.now }
    ensures names { NamesGain (ran_out result) (F.names files.old) (F.names files.new) name.now }
    ensures kept { KeepsFiles F.held F.left F.given F.faults files.old files.new }
    ensures out_counts { DoNotFall O.faults O.refusals out.old out.new }
{
    match read_whole(alloc, files, name, MOST_PROGRAM_BYTES) {
        Ok(text) => write_explained(out, explain(alloc, &text)),
        Err(ReadError::TooLong) => write_explained(out, explain_too_long(alloc)),
        Err(ReadError::Failed) => Status::ReadFailed,
        Err(ReadError::NoMemory) => Status::NoMemory,
    }
}

/// Writes an explanation, if there is one.
fn write_explained<O: Sink>(out: &mut O, explained: Result<Explanation, AllocError>) -> Status
    ensures printed { Prints O.Sink explained result out.old out.new }
    ensures read { result ≡ Status.ReadFailed → ⊥ }
    ensures failed { result ≡ Status.WriteFailed → Rose (O.faults out.old) (O.faults out.new) }
    ensures kept { DoNotFall O.faults O.refusals out.old out.new }
{
    let Ok(explanation) = explained else {
        return Status::NoMemory;
    };
    match write_both(out, &explanation.line, &explanation.more) {
        Ok(()) => status_of(&explanation.refusal),
        Err(WriteError::Failed(_)) => Status::WriteFailed,
        Err(WriteError::NoMemory(_)) => Status::NoMemory,
    }
}

/// The status of a program that was explained: that it passes, or is refused.
fn status_of(refusal: &Option<Refusal>) -> Status
    ensures value { result ≡ status_of refusal.now }
{
    match refusal {
        None => Status::Done,
        Some(_) => Status::Program,
    }
}

/// Writes the line of an explanation, and those that say more.
fn write_both<O: Sink>(out: &mut O, line: &[u8], more: &[u8]) -> Result<(), WriteError>
    ensures whole { OnOk result (Appends (O.taken out.old) (O.taken out.new) (line.now ++ more.now)) }
    ensures part { OnErr result (AppendsPart (O.taken out.old) (O.taken out.new) (line.now ++ more.now)) }
    ensures failed { (n : ℕ) → result ≡ Err (WriteError.Failed n) → Rose (O.faults out.old) (O.faults out.new) }
    ensures kept { DoNotFall O.faults O.refusals out.old out.new }
{
    write_whole(out, line)?;
    write_whole(out, more)
}
