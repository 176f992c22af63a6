//! Jobs and rounds, and the bytes that they are read from.
ghost use Rattle.std.specs.Prelude.{[], IfOk, IsErrOf};
ghost use Rattle.sz_journal.specs.declared.entry_error.EntryError.TheVariants as errors;
ghost use Rattle.sz_journal.specs.declared.job.JobBytes as jobs;
ghost use Rattle.sz_journal.specs.declared.round.RoundEntry as rounds;
ghost use Rattle.sz_journal.specs.Jobs.{IsOfJob};
ghost use Rattle.sz_journal.specs.Rounds.{IsOfRound};
ghost use Rattle.sz_journal.specs.EntryReading.{Reads, job_at, progress_at};

use crate::entry_error::EntryError;
use crate::job::JobBytes;
use crate::numbers::{read_count, read_short};
use crate::parts::{read_doubled, read_flag, read_frame, read_kills, read_mark, read_text};
use crate::progress::Progress;
use crate::round::RoundEntry;
use std::alloc::Global;
use sz_save_format::read_saved;

/// The job that the bytes are those of, all of them.
#[tactic(auto, using(crate::proofs::JobLemmas::job_read, crate::proofs::JobLemmas::job_refused))]
pub fn read_job(alloc: Global, bytes: &[u8]) -> Result<JobBytes, EntryError>
    ensures value { IfOk result (λ job. IsOfJob bytes.now job) }
    ensures not_entry { IsErrOf result errors.NotEntry → (job : jobs.JobBytes) → IsOfJob bytes.now job → ⊥ }
{
    find_job(alloc, bytes)
}

// The job in front, with nothing behind it.
#[tactic(auto, unfolding(crate::specs::EntryReading::job_at))]
fn find_job(alloc: Global, flat: &[u8]) -> Result<JobBytes, EntryError>
    ensures value { Reads (λ job. (job, [])) (job_at flat.now) result }
{
    let rest = read_mark(flat)?;
    let (frame, rest) = read_frame(rest)?;
    let (shard, rest) = read_short(rest)?;
    let (attempts, rest) = read_short(rest)?;
    let (budget, rest) = read_count(rest)?;
    let (ignoring, rest) = read_flag(rest)?;
    let (skip, rest) = read_short(rest)?;
    let (kills, rest) = read_kills(alloc, rest)?;
    let (doubled, rest) = read_doubled(alloc, rest)?;
    let (program, rest) = read_text(alloc, rest)?;
    let (proto, rest) = read_text(alloc, rest)?;
    if !rest.is_empty() {
        return Err(EntryError::NotEntry);
    }
    Ok(JobBytes {
        frame,
        shard,
        attempts,
        budget,
        ignoring,
        skip,
        kills,
        doubled,
        program,
        proto,
    })
}

/// The round that the bytes are those of, all of them.
pub fn read_round(alloc: Global, bytes: &[u8]) -> Result<RoundEntry, EntryError>
    ensures value { IfOk result (λ round. IsOfRound bytes.now round) }
    ensures not_entry { IsErrOf result errors.NotEntry → (round : rounds.RoundEntry) → IsOfRound bytes.now round → ⊥ }
{
    let (progress, rest) = read_progress(bytes)?;
    let saved = read_saved(alloc, rest)?;
    Ok(RoundEntry {
        next_shard: progress.shards,
        records: progress.records,
        next_byte: progress.bytes,
        passed: progress.passed,
        saved,
    })
}

// How far the job has come, in front of the tables of a round.
#[tactic(auto, unfolding(crate::specs::EntryReading::progress_at))]
fn read_progress(flat: &[u8]) -> Result<(Progress, &[u8]), EntryError>
    ensures value { Reads (λ r. (r.0, r.1.now)) (progress_at flat.now) result }
{
    let (shards, rest) = read_count(flat)?;
    let (records, rest) = read_count(rest)?;
    let (bytes, rest) = read_count(rest)?;
    let (passed, rest) = read_short(rest)?;
    let progress = Progress {
        shards,
        records,
        bytes,
        passed,
    };
    Ok((progress, rest))
}
