//! From the words and the devices to the answer.
ghost use Rattle.std.specs.Prelude.{◌≡◌, ◌≤◌, ◌<◌, ◌⊎◌, IfSome, IfErr, IsErrOf, OnOk, OnErr, length, map, string_bytes};
ghost use Rattle.std.specs.Io.KnownBytes.{Appends};
ghost use Rattle.sz_io.specs.Rose.{Rose, DoNotFall};
ghost use Rattle.sz_io.specs.Opened.{KeepsFiles};
ghost use Rattle.sz_io.specs.Calls.{AppendsPart, GainsLine, ReadToEnd};
ghost use Rattle.szl_cut.specs.Answers.{asked_in, size_in, size_after, IsWhy, line_of};
ghost use Rattle.szl_cut.specs.Promise.{Writes, Leaves, OpensAsked, ran_out};

use crate::cut::cut_places;
use crate::failure::Failure;
use crate::lines::{line_of, places_text};
use std::alloc::Global;
use sz_io::{Files, Sink, WriteError, is_file_name, write_line, write_whole};
use sz_types::digits_up_to;

/// The most bytes of a part that can be asked for.
const MOST_SIZE: u64 = 1 << 40;

/// Cuts the file that the words name into parts of the size that they ask for: the places are written to `out`, each as a line, and the line
/// that says why there are none to `err`. The words come without the program's name.
pub fn cut_file<F: Files, O: Sink, E: Sink>(
    alloc: Global,
    words: &[String],
    files: &mut F,
    out: &mut O,
    err: &mut E,
) -> Result<(), Failure>
    requires { length (F.names files.old) < 128 }
    ensures done { OnOk result (Writes (F.held files.old) (asked_in (map string_bytes words.now)) (O.taken out.old) (O.taken out.new)) }
    ensures why { IfErr result (IsWhy (F.held files.old) (asked_in (map string_bytes words.now))) }
    ensures output { IfErr result (λ failure. Leaves O.Sink (F.held files.old) (asked_in (map string_bytes words.now)) failure out.old out.new) }
    ensures line { IfErr result (λ failure. GainsLine E.Sink err.old err.new (line_of failure)) }
    ensures quiet { OnOk result (err.new ≡ err.old) }

    ensures read_failed { IsErrOf result Failure.ReadFailed → Rose (F.faults files.old) (F.faults files.new) }
    ensures write_failed { IsErrOf result Failure.WriteFailed → Rose (O.faults out.old) (O.faults out.new) }

    ensures end { OnOk result (IfSome (asked_in (map string_bytes words.now)) (λ asked. ReadToEnd F.Files files.old files.new asked.name)) }
    ensures names { OpensAsked F.Files (asked_in (map string_bytes words.now)) (ran_out result) files.old files.new }
    ensures kept { KeepsFiles F.held F.left F.given F.faults files.old files.new }
    ensures out_counts { DoNotFall O.faults O.refusals out.old out.new }
    ensures err_counts { DoNotFall E.faults E.refusals err.old err.new }
{
    match write_places(alloc, words, files, out) {
        Ok(()) => Ok(()),
        Err(failure) => Err(tell(alloc, err, failure)),
    }
}

/// Writes the places that the words ask for.
fn write_places<F: Files, O: Sink>(
    alloc: Global,
    words: &[String],
    files: &mut F,
    out: &mut O,
) -> Result<(), Failure>
    requires { length (F.names files.old) < 128 }
    ensures done { OnOk result (Writes (F.held files.old) (asked_in (map string_bytes words.now)) (O.taken out.old) (O.taken out.new)) }
    ensures why { IfErr result (IsWhy (F.held files.old) (asked_in (map string_bytes words.now))) }
    ensures output { IfErr result (λ failure. Leaves O.Sink (F.held files.old) (asked_in (map string_bytes words.now)) failure out.old out.new) }
    ensures read_failed { IsErrOf result Failure.ReadFailed → Rose (F.faults files.old) (F.faults files.new) }
    ensures write_failed { IsErrOf result Failure.WriteFailed → Rose (O.faults out.old) (O.faults out.new) }
    ensures end { OnOk result (IfSome (asked_in (map string_bytes words.now)) (λ asked. ReadToEnd F.Files files.old files.new asked.name)) }
    ensures names { OpensAsked F.Files (asked_in (map string_bytes words.now)) (ran_out result) files.old files.new }
    ensures kept { KeepsFiles F.held F.left F.given F.faults files.old files.new }
    ensures out_counts { DoNotFall O.faults O.refusals out.old out.new }
{
    let [name, word] = words else {
        return Err(Failure::Usage);
    };
    let Some(size) = size_after(name.as_bytes(), word.as_bytes()) else {
        return Err(Failure::Usage);
    };
    let places = cut_places(alloc, files, name.as_str(), size)?;
    let text = places_text(alloc, &places)?;
    write_text(out, &text)
}

/// The size that a word asks for, if the one before it names a file.
fn size_after(name: &[u8], word: &[u8]) -> Option<u64>
    ensures value { result ≡ size_after name.now word.now }
    ensures some { IfSome result (λ size. 1 ≤ size) }
{
    if is_file_name(name) {
        size_in(word)
    } else {
        None
    }
}

/// The size of parts that a word asks for.
fn size_in(word: &[u8]) -> Option<u64>
    ensures value { result ≡ size_in word.now }
    ensures some { IfSome result (λ size. 1 ≤ size) }
{
    match digits_up_to(word, MOST_SIZE) {
        Some(size) if size >= 1 => Some(size),
        _ => None,
    }
}

/// Writes a text.
fn write_text<O: Sink>(out: &mut O, text: &[u8]) -> Result<(), Failure>
    ensures done { OnOk result (Appends (O.taken out.old) (O.taken out.new) text.now) }
    ensures why { IfErr result (λ failure. (failure ≡ Failure.NoMemory) ⊎ (failure ≡ Failure.WriteFailed)) }
    ensures part { OnErr result (AppendsPart (O.taken out.old) (O.taken out.new) text.now) }
    ensures failed { IsErrOf result Failure.WriteFailed → Rose (O.faults out.old) (O.faults out.new) }
    ensures kept { DoNotFall O.faults O.refusals out.old out.new }
{
    match write_whole(out, text) {
        Ok(()) => Ok(()),
        Err(WriteError::Failed(_)) => Err(Failure::WriteFailed),
        Err(WriteError::NoMemory(_)) => Err(Failure::NoMemory),
    }
}

/// Writes the line of a failure, and gives what was told: the failure, or want of memory where there was none for its line.
fn tell<E: Sink>(alloc: Global, err: &mut E, failure: Failure) -> Failure
    ensures told { (result ≡ failure) ⊎ (result ≡ Failure.NoMemory) }
    ensures line { GainsLine E.Sink err.old err.new (line_of result) }
    ensures kept { DoNotFall E.faults E.refusals err.old err.new }
{
    match line_of(alloc, failure) {
        Ok(line) => tell_line(err, &line, failure),
        Err(_) => tell_line(err, b"out of memory\n", Failure::NoMemory),
    }
}

/// Writes the line of a failure, which is told. A line that can't be written changes nothing more.
fn tell_line<E: Sink>(err: &mut E, line: &[u8], failure: Failure) -> Failure
    requires { line.now ≡ line_of failure }
    ensures told { result ≡ failure }
    ensures line { GainsLine E.Sink err.old err.new (line_of failure) }
    ensures kept { DoNotFall E.faults E.refusals err.old err.new }
{
    write_line(err, line);
    failure
}
