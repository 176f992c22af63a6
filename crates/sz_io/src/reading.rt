//! A whole file into memory.
ghost use Rattle.std.specs.Prelude.{◌≡◌, ◌<◌, ◌≤◌, ◌+◌, ◌-◌, ◌++◌, ℕ, List, length, take, replicate, vec_len, Option};
ghost use Rattle.std.specs.Prelude.{IsTrue, IfOk, OnOk, OnErr, IfSome, IsErrOf};
ghost use Rattle.std.specs.Io.KnownBytes.{Consumes, IsAtEnd};
ghost use Rattle.sz_io.specs.Rose.{Rose};
ghost use Rattle.sz_io.specs.Opened.{KeepsFiles, KeepsOtherFiles};
ghost use Rattle.sz_io.specs.Calls.{NamesGain, OpensOne, ReadToEnd, ran_out};

use crate::{Failed, Files, OutsideError, ReadError};
use std::alloc::{AllocError, Global};

/// The room for the first read, in bytes.
const FIRST_ROOM: usize = 8192;

/// Opens the file under the name and reads it to its end. `limit` is the most bytes that it may have; of a longer
/// file at most one byte more than that is read.
pub fn read_whole<F: Files>(
    alloc: Global,
    files: &mut F,
    name: &str,
    limit: usize,
) -> Result<Vec<u8>, ReadError>
    requires { length (F.names files.old) < 128 }

    ensures bytes { IfOk result (λ bytes. IfSome (F.held files.old name.now) (λ held. bytes.items ≡ held)) }
    ensures within { IfOk result (λ bytes. length bytes.items ≤ limit) }
    ensures end { OnOk result (ReadToEnd F.Files files.old files.new name.now) }
    ensures names { NamesGain (ran_out result) (F.names files.old) (F.names files.new) name.now }

    ensures too_long { IsErrOf result ReadError.TooLong → IfSome (F.held files.old name.now) (λ held. limit < length held) }
    ensures opened { IsErrOf result ReadError.TooLong → OpensOne F.Files files.old files.new }
    ensures failed { IsErrOf result ReadError.Failed → Rose (F.faults files.old) (F.faults files.new) }

    ensures kept { KeepsFiles F.held F.left F.given F.faults files.old files.new }
{
    match files.open_file(name) {
        Ok(file) => read_to_end(alloc, files, file, limit),
        Err(OutsideError::Failed) => Err(ReadError::Failed),
        Err(OutsideError::NoMemory) => Err(ReadError::NoMemory),
    }
}

/// Reads what is left of an opened file.
fn read_to_end<F: Files>(
    alloc: Global,
    files: &mut F,
    file: u32,
    limit: usize,
) -> Result<Vec<u8>, ReadError>
    requires { IsTrue (F.given files.old file) }

    ensures bytes { IfOk result (λ bytes. Consumes (F.left files.old file) (F.left files.new file) bytes.items) }
    ensures within { IfOk result (λ bytes. length bytes.items ≤ limit) }
    ensures end { OnOk result (IsAtEnd (F.left files.new file)) }

    ensures too_long { IsErrOf result ReadError.TooLong → IfSome (F.left files.old file) (λ left. limit < length left) }
    ensures failed { IsErrOf result ReadError.Failed → Rose (F.faults files.old) (F.faults files.new) }

    ensures kept { KeepsOtherFiles F.held F.left F.given F.names F.faults file files.old files.new }
{
    let mut bytes = Vec::new(alloc);
    let mut filled = 0;
    while filled <= limit {
        if filled == bytes.len() {
            make_room(&mut bytes, limit)?;
        }
        match read_after(files, file, &mut bytes, filled) {
            Ok(0) => {
                bytes.truncate(filled);
                return Ok(bytes);
            }
            Ok(count) => filled += count,
            Err(Failed) => return Err(ReadError::Failed),
        }
    }
    Err(ReadError::TooLong)
}

/// Reads a piece of an opened file into the room after the first `filled` bytes.
fn read_after<F: Files>(
    files: &mut F,
    file: u32,
    bytes: &mut [u8],
    filled: usize,
) -> Result<usize, Failed>
    requires given { IsTrue (F.given files.old file) }
    requires in_range { filled ≤ length bytes.old }

    ensures within { IfOk result (λ count. filled + count ≤ length bytes.new) }

    // What an earlier state gave as the first `filled` bytes goes on with what this read gives.
    ensures bytes { (before : Option (List ℕ)) → Consumes before (F.left files.old file) (take filled bytes.old)
        → IfOk result (λ count. Consumes before (F.left files.new file) (take (filled + count) bytes.new)) }
    ensures end { filled < length bytes.old → IfOk result (λ count. count ≡ 0 → IsAtEnd (F.left files.new file)) }

    ensures failed { OnErr result (Rose (F.faults files.old) (F.faults files.new)) }

    ensures kept { KeepsOtherFiles F.held F.left F.given F.names F.faults file files.old files.new }
{
    files.read(file, &mut bytes[filled..])
}

/// Makes the bytes about twice as long, but at most one longer than `limit`. The new ones are 0.
fn make_room(bytes: &mut Vec<u8>, limit: usize) -> Result<(), AllocError>
    requires { vec_len bytes.old ≤ limit }
    ensures ok { OnOk result (bytes.new.items ≡ bytes.old.items ++ replicate (vec_len bytes.new - vec_len bytes.old) 0) }
    ensures longer { OnOk result (vec_len bytes.old < vec_len bytes.new) }
    ensures within { OnOk result (vec_len bytes.new ≤ limit + 1) }
{
    let len = bytes.len();
    let added = len.max(FIRST_ROOM).min(limit - len);
    bytes.resize(len + added + 1, 0)
}
