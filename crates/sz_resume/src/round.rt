//! A round as an entry of the journal, and what of an input is done after the rounds of one.
ghost use Rattle.std.specs.Prelude.{◌≡◌, ◌+◌, ◌<◌, ◌≤◌, ◌^◌, List, IfOk};
ghost use Rattle.sz_types.specs.Tables.{Declaration};
ghost use Rattle.sz_mean.specs.Marked.{all_tables};
ghost use Rattle.sz_tabs.specs.Data.{EmitDatum};
ghost use Rattle.sz_save.specs.Saving.{HaveSpelling};
ghost use Rattle.sz_attempt.specs.Shards.{IsJob};
ghost use Rattle.sz_workers.specs.Outcomes.{emitted, outcome_from};
ghost use Rattle.sz_workers.specs.Rounds.{EndsRound, shards_of};
ghost use Rattle.sz_workers.specs.declared.round.RoundEnd.TheVariants as ends;
ghost use Rattle.sz_journal.specs.declared.job.JobBytes.{JobBytes};
ghost use Rattle.sz_journal.specs.declared.round.RoundEntry.{RoundEntry};
ghost use Rattle.sz_journal.specs.Rounds.{AreRounds, last_progress};
ghost use Rattle.sz_stream.specs.Intakes.{CanGoOn};
ghost use Rattle.sz_stream.specs.InputRuns.{HasRound};
ghost use Rattle.sz_resume.specs.Entries.{done_of, IsNext};

use std::alloc::Global;
use sz_attempt::Job;
use sz_journal::{Progress, RoundEntry};
use sz_save::save;
use sz_stream::{Done, Intake};
use sz_total::Total;
use sz_value::NoMemory;

/// What of its input is done where a job has come so far.
pub(crate) fn done_after(progress: Progress) -> Done
    ensures value { result ≡ done_of progress }
    ensures can { (name : JobBytes) (decls : List Declaration) (rounds : List RoundEntry) → AreRounds name decls rounds → progress ≡ last_progress rounds
        → CanGoOn result }
    ensures passed { (name : JobBytes) (decls : List Declaration) (rounds : List RoundEntry) → AreRounds name decls rounds → progress ≡ last_progress rounds
        → result.passed ≤ name.skip }
{
    Done {
        shards: progress.shards,
        records: progress.records,
        bytes: progress.bytes,
        passed: progress.passed,
    }
}

/// The entry of the round at hand with these tables, of whose records so many were passed over.
pub(crate) fn round_entry<'a>(
    alloc: Global,
    job: &Job,
    intake: &Intake,
    tables: &Total<'a>,
    passed: u32,
) -> Result<RoundEntry, NoMemory>
    requires job { IsJob job.now }
    requires spelled { HaveSpelling (all_tables job.now.compiled) }
    requires round { (emits : List EmitDatum) × HasRound job.now intake.now emits }
    requires part { EndsRound job.now.compiled (outcome_from job.now intake.now.round.passed (shards_of intake.now.round)) (ends.Tables tables.now passed) }
    requires fits { intake.now.round.passed + passed < 2 ^ 32 }
    ensures value { (emits : List EmitDatum) → outcome_from job.now intake.now.round.passed (shards_of intake.now.round) ≡ emitted emits passed
        → IfOk result (λ round. IsNext job.now intake.now passed emits round) }
{
    let done = intake.done_with(passed);
    let bound = (done.records - intake.records_run()) * job.budget;
    let saved = save(alloc, tables, job.compiled.tables(), bound)?;
    // a saved state tells that it can be saved
    let _ = saved.bound();
    Ok(RoundEntry {
        next_shard: done.shards,
        records: done.records,
        next_byte: done.bytes,
        passed: done.passed,
        saved,
    })
}
