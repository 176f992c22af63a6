//! What holds of all texts, of all files of types, of all records, of all numbers of workers, of all attempts that die, and of all saved files. The
//! calls do nothing: they promise laws of `specs/Judgement.antt`, `specs/ProtoFiles.antt`, `specs/Shards.antt`, `specs/Workers.antt`,
//! `specs/Deaths.antt`, `specs/Merging.antt` and `specs/SavedRuns.antt`.
ghost use Rattle.szl.specs.Deaths.{ForgetsTheDeaths, IsAsIfNoneDied};
ghost use Rattle.szl.specs.Judgement.{EveryTextIsRead, HasOneReading};
ghost use Rattle.szl.specs.Merging.{EveryListIsMerged, IsMergedOnce};
ghost use Rattle.szl.specs.ProtoFiles.{EveryFileIsRead, HasOneFileReading};
ghost use Rattle.szl.specs.SavedRuns.{MergesToOneRun, SavesItsAnswer};
ghost use Rattle.szl.specs.Shards.{SizesAreShards};
ghost use Rattle.szl.specs.Workers.{JobForgetsTheWorkers, ResumeForgetsTheWorkers, RunForgetsTheWorkers, SelftestForgetsTheWorkers};

use sz_merge::{merging_forgets_the_order, saved_runs_join};
use sz_save::one_spelling;

/// A text has just one reading, so the outcome of a command line is determined by its words and the bytes of its files.
pub fn readings_are_unique()
    ensures some { EveryTextIsRead }
    ensures one { HasOneReading }
{}

/// A `.proto` file has just one reading too: its types, or what it is refused for.
pub fn files_are_read_once()
    ensures some { EveryFileIsRead }
    ensures one { HasOneFileReading }
{}

/// Records are cut into shards of the sizes that the outcome has, which are the only ones.
pub fn sizes_are_shards()
    ensures cut { SizesAreShards }
{}

/// The outcome of a run, of a self test and of a job that is resumed is the same whatever the number of workers, which is no part of the job
/// either, by which a journal is judged. That of a run is the same, too, whichever shards have a second ticket.
pub fn outcomes_forget_the_workers()
    ensures run { RunForgetsTheWorkers }
    ensures selftest { SelftestForgetsTheWorkers }
    ensures resume { ResumeForgetsTheWorkers }
    ensures job { JobForgetsTheWorkers }
{}

/// The outcome of a run is the same whichever attempts die and however often they are made anew, where the same shards are lost. Where none is,
/// it is that of the run in which no attempt dies.
pub fn outcomes_forget_the_deaths()
    ensures same { ForgetsTheDeaths }
    ensures none_lost { IsAsIfNoneDied }
{}

/// Merging 1 to 64 files ends in just one way, so the outcome of a command line that merges is determined by its words and the bytes of its
/// files.
pub fn merging_ends_once()
    ensures some { EveryListIsMerged }
    ensures one { IsMergedOnce }
{
    one_spelling();
    merging_forgets_the_order();
}

/// Files that were saved by runs of one program, with one budget, are merged to what one run over all their records saves, and to its text:
/// whatever the order of the files, and of the inputs in that run.
pub fn merged_runs_are_one_run()
    ensures merged { MergesToOneRun }
    ensures saved { SavesItsAnswer }
{
    one_spelling();
    merging_forgets_the_order();
    saved_runs_join();
}
