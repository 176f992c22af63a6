//! Attempts on the shards of a round.
ghost use Rattle.std.specs.Prelude.{◌<◌, length, IfOk};
ghost use Rattle.sz_attempt.specs.Shards.{IsJob};
ghost use Rattle.sz_workers.specs.Rounds.{IsRound};
ghost use Rattle.sz_workers.specs.Ends.{IsEndOf};

use crate::Round;
use std::alloc::Global;
use sz_attempt::{AttemptEnd, Job, attempt_in};
use sz_io::Gate;
use sz_machine::Room;
use sz_value::NoMemory;

/// Runs an attempt of the shard at a place of the round. The gate is called before.
pub(crate) fn run_attempt<'a, G: Gate>(
    alloc: Global,
    room: &mut Room<'a>,
    job: &'a Job,
    round: &Round,
    gate: &G,
    ticket: u32,
    place: u32,
    number: u32,
) -> Result<AttemptEnd<'a>, NoMemory>
    requires job { IsJob job.now }
    requires round { IsRound round.now }
    requires within { place < length round.now.shards }
    requires number { number < job.now.attempts }
    ensures value { IfOk result (λ end. IsEndOf job.now round.now place number end) }
{
    let shard_no = round.first_shard + u64::from(place);
    gate.at(ticket, shard_no, number);
    let shard = round.shards.get(place as usize);
    attempt_in(alloc, room, job, &round.records, shard, shard_no, number)
}
