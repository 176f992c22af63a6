//! Where a file is cut.
ghost use Rattle.std.specs.Prelude.{◌<◌, ◌≤◌, length, IsTrue, IfSome, IfOk, IfErr, OnOk, IsErrOf};
ghost use Rattle.sz_io.specs.Rose.{Rose};
ghost use Rattle.sz_io.specs.Calls.{NamesGain, ReadToEnd};
ghost use Rattle.sz_io.specs.Opened.{KeepsFiles, KeepsOtherFiles};
ghost use Rattle.szl_cut.specs.Cuts.{IsCutAt};
ghost use Rattle.szl_cut.specs.Answers.{IsFor};
ghost use Rattle.szl_cut.specs.Promise.{ran_out};
ghost use Rattle.szl_cut.specs.Reading.{IsReadOut, Reads, StopsReading};

use crate::failure::Failure;
use crate::progress::Progress;
use std::alloc::Global;
use sz_io::{Failed, Files};

/// How many bytes are read at most by one call.
const PIECE_BYTES: usize = 65_536;

/// The places at which the file under a name is cut into parts of about `size` bytes, or why it isn't cut. A place is a byte, counted from 0, at
/// which a message begins, its length in front: the first one at a multiple of the size, or past it. So a part begins with a message and ends with
/// one. It may be longer than the size by a message, and shorter by the message with which the part before it ends. The beginning of the file is
/// no place.
///
/// `Damaged` and `Limit` come exactly where the messages of the file end so, and `ReadFailed` only where the count of faults rose.
///
/// The file is read in pieces, and what is kept of it is a piece, the messages in it, the beginning of the next one, and the places.
pub fn cut_places<F: Files>(
    alloc: Global,
    files: &mut F,
    name: &str,
    size: u64,
) -> Result<Vec<u64>, Failure>
    requires names { length (F.names files.old) < 128 }
    requires size { 1 ≤ size }
    ensures places { IfOk result (λ places. IfSome (F.held files.old name.now) (λ file. IsCutAt size file places.items)) }
    ensures why { IfErr result (IsFor (F.held files.old name.now)) }
    ensures failed { IsErrOf result Failure.ReadFailed → Rose (F.faults files.old) (F.faults files.new) }
    ensures end { OnOk result (ReadToEnd F.Files files.old files.new name.now) }
    ensures names { NamesGain (ran_out result) (F.names files.old) (F.names files.new) name.now }
    ensures kept { KeepsFiles F.held F.left F.given F.faults files.old files.new }
{
    let file = files.open_file(name)?;
    cut_opened(alloc, files, file, size)
}

/// The same for a file that is opened.
fn cut_opened<F: Files>(
    alloc: Global,
    files: &mut F,
    file: u32,
    size: u64,
) -> Result<Vec<u64>, Failure>
    requires given { IsTrue (F.given files.old file) }
    requires size { 1 ≤ size }
    ensures places { IfOk result (λ places. IfSome (F.left files.old file) (λ bytes. IsCutAt size bytes places.items)) }
    ensures why { IfErr result (IsFor (F.left files.old file)) }
    ensures failed { IsErrOf result Failure.ReadFailed → Rose (F.faults files.old) (F.faults files.new) }
    ensures end { OnOk result (IsReadOut (F.left files.old file) (F.left files.new file)) }
    ensures kept { KeepsOtherFiles F.held F.left F.given F.names F.faults file files.old files.new }
{
    let mut buffer = Vec::new(alloc);
    buffer.resize(PIECE_BYTES, 0)?;
    let mut progress = Progress::new(alloc, size);
    while read_next(&mut progress, files, file, &mut buffer)? {}
    progress.finish()
}

/// Reads the next piece of a file and takes it in. The answer is whether more may come.
fn read_next<F: Files>(
    progress: &mut Progress,
    files: &mut F,
    file: u32,
    buffer: &mut [u8],
) -> Result<bool, Failure>
    requires given { IsTrue (F.given files.old file) }
    requires room { 0 < length buffer.old }
    requires size { 1 ≤ progress.old.size }
    ensures read { IfOk result (Reads progress.old progress.new (F.left files.old file) (F.left files.new file)) }
    ensures why { IfErr result (StopsReading progress.old (F.left files.old file)) }
    ensures failed { IsErrOf result Failure.ReadFailed → Rose (F.faults files.old) (F.faults files.new) }
    ensures kept { KeepsOtherFiles F.held F.left F.given F.names F.faults file files.old files.new }
{
    match files.read(file, buffer) {
        Ok(0) => Ok(false),
        Ok(count) => {
            progress.take(&buffer[..count])?;
            Ok(true)
        }
        Err(Failed) => Err(Failure::ReadFailed),
    }
}
