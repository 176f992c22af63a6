//! One attempt by itself, in a room of its own.
ghost use Rattle.std.specs.Prelude.{◌<◌, ◌≤◌, length};
ghost use Rattle.sz_attempt.specs.Shards.{IsJob};
ghost use Rattle.sz_workers.specs.Rounds.{IsRound};

use crate::given::{doubled_job, round_of_two};
use std::alloc::Global;
use sz_attempt::{AttemptEnd, Job, attempt};
use sz_workers::Round;

// How an attempt ends: with so many emits, and so many records that were passed over; or with so many records that fault.
#[derive(Clone, Copy, PartialEq)]
enum End {
    Part(u64, usize),
    Bad(usize),
    Died,
}

// How many records may be passed over, the lines of two shards, and how the first attempt of each shard ends.
struct Row {
    skip: u32,
    text: &'static [u8],
    ends: [End; 2],
}

const ROWS: &[Row] = &[
    Row {
        skip: 0,
        text: b"3\n-1\n",
        ends: [End::Part(3, 0), End::Part(3, 0)],
    },
    Row {
        skip: 0,
        text: b"3\n\n",
        ends: [End::Part(3, 0), End::Bad(1)],
    },
    Row {
        skip: 1,
        text: b"\n-1\n",
        ends: [End::Part(0, 1), End::Part(3, 0)],
    },
];

fn rows() -> &'static [Row] {
    ROWS
}

// How the first attempt of a shard of the round ends, if it ends.
fn end_of(alloc: Global, job: &Job, round: &Round, place: u32) -> Option<End>
    requires job { IsJob job.now }
    requires attempts { 1 ≤ job.now.attempts }
    requires round { IsRound round.now }
    requires within { place < length round.now.shards }
{
    let shard = round.shards.get(place as usize);
    match attempt(alloc, job, &round.records, shard, u64::from(place), 0) {
        Ok(AttemptEnd::Part(total, faults)) => Some(End::Part(total.emits(), faults.len())),
        Ok(AttemptEnd::Bad(faults)) => Some(End::Bad(faults.len())),
        Ok(AttemptEnd::Died(_)) => Some(End::Died),
        Err(_) => None,
    }
}

// Whether the attempts of the two shards end so.
fn holds(alloc: Global, row: &Row) -> bool {
    let Some(job) = doubled_job(alloc, row.skip) else {
        return false;
    };
    let Some(round) = round_of_two(alloc, row.text) else {
        return false;
    };
    let [first, second] = row.ends;
    round.shards.len() == 2
        && end_of(alloc, &job, &round, 0) == Some(first)
        && end_of(alloc, &job, &round, 1) == Some(second)
}

#[test]
fn an_attempt_passes_over_as_many_records_as_its_job_says(rt: HostRuntime) {
    for row in rows() {
        assert!(rt; holds(rt.alloc(), row));
    }
}
