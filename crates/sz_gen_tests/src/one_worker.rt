//! One worker, with one pass and one lane, does all the work of a round.
ghost use Rattle.std.specs.Prelude.{◌≡◌, ◌≤◌};
ghost use Rattle.sz_attempt.specs.Shards.{IsJob};
ghost use Rattle.sz_workers.specs.Rounds.{IsRound};

use crate::given::{doubled_job, round_of_two};
use std::alloc::Global;
use std::marker::Brand;
use sz_attempt::Job;
use sz_book::{Closed, Lane, NoMemory};
use sz_claims::Ledger;
use sz_io::NoGate;
use sz_workers::{Round, RoundName, RoundPart, plan_of, work};

// What the worker leaves: the ledger, closed, and its pocket.
fn worked<'a, N: RoundName>(
    alloc: Global,
    job: &'a Job,
    round: &Round,
) -> Result<(Closed<RoundPart<'a, N>>, Lane<RoundPart<'a, N>>), NoMemory>
    requires job { (job.now ≡ N.job) × IsJob job.now }
    requires attempts { (1 ≤ job.now.attempts) × (job.now.attempts ≤ 8) }
    requires round { (round.now ≡ N.round) × IsRound round.now }
    requires passed { round.now.passed ≤ job.now.skip }
{
    let plan = plan_of(alloc, job, round)?;
    let load: RoundPart<'a, N> = RoundPart::empty(alloc, &plan, job.compiled.tables())?;
    let mut lanes = Vec::new(alloc);
    lanes.push(Lane::new(alloc, load, plan.shards())?)?;
    let (ledger, mut pass) = Ledger::make(alloc, plan, lanes, 1)?;
    let pocket = work::<N, NoGate>(alloc, job, round, &ledger, &mut pass, 0, &NoGate)?;
    Ok((ledger.close(pass), pocket))
}

// Whether the one lane has both shards, each settled by attempt 0, with no death and no mark, and the pocket has none.
fn is_all_in_the_lane<'a, N: RoundName>(
    closed: &Closed<RoundPart<'a, N>>,
    pocket: &Lane<RoundPart<'a, N>>,
) -> bool {
    let [lane] = closed.lanes.as_slice() else {
        return false;
    };
    pocket.shards().is_empty()
        && lane.shards().as_slice() == [0, 1].as_slice()
        && closed.settled.as_slice() == [1, 1].as_slice()
        && closed.deaths.as_slice() == [0, 0].as_slice()
        && closed.least_bad.is_none()
}

// Whether the worker leaves all in the lane.
fn fills_the_lane<'a, N: RoundName>(alloc: Global, job: &'a Job, round: &Round) -> bool
    requires job { (job.now ≡ N.job) × IsJob job.now }
    requires attempts { (1 ≤ job.now.attempts) × (job.now.attempts ≤ 8) }
    requires round { (round.now ≡ N.round) × IsRound round.now }
    requires passed { round.now.passed ≤ job.now.skip }
{
    match worked::<N>(alloc, job, round) {
        Ok((closed, pocket)) => is_all_in_the_lane(&closed, &pocket),
        Err(_) => false,
    }
}

// The same of the job with doubled shards.
fn holds(alloc: Global) -> bool {
    let Some(job) = doubled_job(alloc, 0) else {
        return false;
    };
    let Some(round) = round_of_two(alloc, b"3\n-1\n") else {
        return false;
    };
    fills_the_lane::<Brand>(alloc, &job, &round)
}

#[test]
fn one_worker_puts_all_shards_into_its_lane(rt: HostRuntime) {
    assert!(rt; holds(rt.alloc()));
}
