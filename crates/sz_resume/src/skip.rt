//! The front of an input, which is read and dropped.
ghost use Rattle.std.specs.Prelude.{◌≡◌, ◌<◌, ◌≤◌, length, IsTrue, IfOk, OnErr};
ghost use Rattle.std.specs.Io.KnownBytes.{ConsumesCount, IsAtEnd};
ghost use Rattle.sz_io.specs.Rose.{Rose};
ghost use Rattle.sz_io.specs.Opened.{KeepsOtherFiles};
ghost use Rattle.sz_resume.specs.Runs.{Skips};

use sz_io::{Failed, Files};

/// Reads so many bytes of a file and drops them. The answer is whether there were so many.
pub(crate) fn skip<F: Files>(
    files: &mut F,
    file: u32,
    buffer: &mut [u8],
    bytes: u64,
) -> Result<bool, Failed>
    requires given { IsTrue (F.given files.old file) }
    requires room { 0 < length buffer.old }
    ensures value { IfOk result (λ all. Skips (F.left files.old file) (F.left files.new file) bytes all) }
    ensures failed { OnErr result (Rose (F.faults files.old) (F.faults files.new)) }
    ensures room { length buffer.new ≡ length buffer.old }
    ensures kept { KeepsOtherFiles F.held F.left F.given F.names F.faults file files.old files.new }
{
    let mut left = bytes;
    while left > 0 {
        let dropped = skip_piece(files, file, buffer, left)?;
        if dropped == 0 {
            return Ok(false);
        }
        left -= dropped;
    }
    Ok(true)
}

/// Reads some of so many bytes of a file, drops them, and tells how many they were: none where the file is at its end.
fn skip_piece<F: Files>(
    files: &mut F,
    file: u32,
    buffer: &mut [u8],
    left: u64,
) -> Result<u64, Failed>
    requires given { IsTrue (F.given files.old file) }
    requires room { 0 < length buffer.old }
    requires some { 0 < left }
    ensures value { ConsumesCount (F.left files.old file) (F.left files.new file) result }
    ensures within { IfOk result (λ count. count ≤ left) }
    ensures end { IfOk result (λ count. count ≡ 0 → IsAtEnd (F.left files.new file)) }
    ensures failed { OnErr result (Rose (F.faults files.old) (F.faults files.new)) }
    ensures room { length buffer.new ≡ length buffer.old }
    ensures kept { KeepsOtherFiles F.held F.left F.given F.names F.faults file files.old files.new }
{
    let most = left.min(buffer.len() as u64) as usize;
    let count = files.read(file, &mut buffer[..most])?;
    Ok(count as u64)
}
