//! The top call over devices of which no call fails.
ghost use Rattle.std.specs.Prelude.{◌≡◌, ◌≤◌, length, map, string_bytes};
ghost use Rattle.sz_io.specs.Opened.{KeepsFiles};
ghost use Rattle.sz_io.specs.Rose.{DoNotFall};
ghost use Rattle.sz_io.specs.SureFiles.{sure_names};
ghost use Rattle.sz_words.specs.Settings.{settings_in};
ghost use Rattle.szl.specs.Completeness.{Completes};
ghost use Rattle.szl.specs.Saving.{SavesOutput};
ghost use Rattle.szl.specs.Promise.{AreReadToEnd, names_asked, most_before};

use crate::status::Status;
use crate::top::szl_main;
use std::alloc::Global;
use std::thread::Threads;
use sz_io::{Files, Gate, Sink, SureFiles, SureSink};

/// The same as `szl_main` over files and sinks in memory of which no call fails: it answers the outcome, whatever the words and the bytes are,
/// and only want of memory may stand in its place.
pub fn szl_in_memory<R: Threads + Sync, G: Gate + Sync>(
    rt: &R,
    alloc: Global,
    words: &[String],
    files: &mut SureFiles,
    out: &mut SureSink,
    err: &mut SureSink,
    gate: &G,
) -> Status
    requires { length (sure_names files.old) ≤ most_before (settings_in (map string_bytes words.now)) }
    ensures complete { Completes ⟦<SureFiles as Files>⟧ ⟦<SureSink as Sink>⟧ ⟦<SureSink as Sink>⟧ (map string_bytes words.now) result
        files.old files.new out.old out.new err.old err.new }
    ensures end { result ≡ Status.Done
        → AreReadToEnd ⟦<SureFiles as Files>⟧ files.old files.new (names_asked (settings_in (map string_bytes words.now))) }
    ensures saved { result ≡ Status.Done
        → SavesOutput ⟦<SureFiles as Files>⟧ ⟦<SureSink as Sink>⟧ (settings_in (map string_bytes words.now)) files.old out.old out.new }

    ensures kept { KeepsFiles ⟦<SureFiles as Files>⟧.held ⟦<SureFiles as Files>⟧.left ⟦<SureFiles as Files>⟧.given ⟦<SureFiles as Files>⟧.faults
        files.old files.new }
    ensures out_counts { DoNotFall ⟦<SureSink as Sink>⟧.faults ⟦<SureSink as Sink>⟧.refusals out.old out.new }
    ensures err_counts { DoNotFall ⟦<SureSink as Sink>⟧.faults ⟦<SureSink as Sink>⟧.refusals err.old err.new }
    ensures quiet { result ≡ Status.Done → err.new ≡ err.old }
{
    szl_main(rt, alloc, words, files, out, err, gate)
}
