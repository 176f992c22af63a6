//! The bytes of jobs and rounds.
ghost use Rattle.std.specs.Prelude.{◌≡◌, IfOk};
ghost use Rattle.sz_journal.specs.Jobs as jobs;
ghost use Rattle.sz_journal.specs.Jobs.{job_bytes};
ghost use Rattle.sz_journal.specs.Rounds.{round_bytes};

use crate::NoMemory;
use crate::job::JobBytes;
use crate::put::{put_count, put_doubled, put_kills, put_short, put_text};
use crate::round::RoundEntry;
use std::alloc::Global;
use sz_save_format::write_saved;
use sz_types::Frame;

/// How the bytes of a job begin.
pub(crate) const MARK: &[u8] = b"SZJOB001";

/// The bytes of a job.
pub fn write_job(alloc: Global, job: &JobBytes) -> Result<Vec<u8>, NoMemory>
    ensures value { IfOk result (λ bytes. bytes.items ≡ job_bytes job.now) }
{
    let mut out = Vec::new(alloc);
    out.extend_from_slice(MARK)?;
    out.push(frame_byte(job.frame))?;
    put_short(job.shard, &mut out)?;
    put_short(job.attempts, &mut out)?;
    put_count(job.budget, &mut out)?;
    out.push(u8::from(job.ignoring))?;
    put_short(job.skip, &mut out)?;
    put_kills(job.kills.as_slice(), &mut out)?;
    put_doubled(job.doubled.as_slice(), &mut out)?;
    put_text(job.program.as_slice(), &mut out)?;
    put_text(job.proto.as_slice(), &mut out)?;
    Ok(out)
}

// The byte of a way to tell records apart.
fn frame_byte(frame: Frame) -> u8
    ensures value { result ≡ jobs.frame_byte frame }
{
    match frame {
        Frame::Lines => 0,
        Frame::Delimited => 1,
    }
}

/// The bytes of a round.
pub fn write_round(alloc: Global, round: &RoundEntry) -> Result<Vec<u8>, NoMemory>
    ensures value { IfOk result (λ bytes. bytes.items ≡ round_bytes round.now) }
{
    let saved = write_saved(alloc, &round.saved)?;
    let mut out = Vec::new(alloc);
    put_count(round.next_shard, &mut out)?;
    put_count(round.records, &mut out)?;
    put_count(round.next_byte, &mut out)?;
    put_short(round.passed, &mut out)?;
    out.extend_from_slice(saved.as_slice())?;
    Ok(out)
}
