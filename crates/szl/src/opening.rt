//! The files of a command line.
ghost use Rattle.std.specs.Prelude.{◌≢◌, ◌<◌, length, OnOk};
ghost use Rattle.sz_io.specs.Rose.{Rose};
ghost use Rattle.sz_io.specs.Opened.{KeepsFiles};
ghost use Rattle.sz_io.specs.Calls.{NamesGain, OpensOne, ReadToEnd};
ghost use Rattle.szl.specs.Opening.{ReadsText, ran_out, status_of_answer};
ghost use Rattle.szl.specs.Promise.{IfRead};
ghost use Rattle.szl.specs.ProgramRuns.{vec_items_of};

use crate::failure::Failure;
use std::alloc::Global;
use sz_io::{Files, ReadError, read_whole};

/// Reads a whole file of at most `limit` bytes. `past` is the failure for a file with more; it isn't `ReadFailed`.
pub fn read_text<F: Files>(
    alloc: Global,
    files: &mut F,
    name: &str,
    limit: usize,
    past: Failure,
) -> Result<Vec<u8>, Failure>
    requires few { length (F.names files.old) < 128 }
    requires past { past ≢ Failure.ReadFailed }
    ensures text { ReadsText (F.held files.old name.now) limit past (Rose (F.faults files.old) (F.faults files.new)) (vec_items_of result) }
    ensures names { NamesGain (ran_out (vec_items_of result)) (F.names files.old) (F.names files.new) name.now }
    ensures opened { IfRead (status_of_answer (vec_items_of result)) (OpensOne F.Files files.old files.new) }
    ensures end { OnOk result (ReadToEnd F.Files files.old files.new name.now) }
    ensures kept { KeepsFiles F.held F.left F.given F.faults files.old files.new }
{
    match read_whole(alloc, files, name, limit) {
        Ok(bytes) => Ok(bytes),
        Err(ReadError::TooLong) => Err(past),
        Err(ReadError::Failed) => Err(Failure::ReadFailed),
        Err(ReadError::NoMemory) => Err(Failure::NoMemory),
    }
}
