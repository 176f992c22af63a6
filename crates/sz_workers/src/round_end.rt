//! The end of a round whose workers are done: the shards that none of them settled, and what comes of all.
ghost use Rattle.std.specs.Prelude.{◌≡◌, ◌++◌, ◌∷◌, [], ◌+◌, ◌-◌, ◌^◌, ◌<◌, ◌≤◌, ◌==◌, length, IfOk, IfSome, IfNone};
ghost use Rattle.sz_attempt.specs.Shards.{IsJob};
ghost use Rattle.sz_workers.specs.Outcomes.{outcome_from};
ghost use Rattle.sz_workers.specs.Rounds.{IsRound, shards_of, EndsRound};
ghost use Rattle.sz_workers.specs.Parts.{HoldsShards};
ghost use Rattle.sz_book_rules.specs.History.{IsAmong};
ghost use Rattle.sz_workers.specs.RoundRuns.{IsSet, AreWords, HasFront, IsPooled, NoneInFront, RestEnds, one_too_many, in_front};

use crate::attempts::run_attempt;
use crate::first_faults::{first_faults, first_of_both};
use crate::part::{RoundName, RoundPart};
use crate::pool::{Pool, add_shard};
use crate::{Round, RoundEnd};
use std::alloc::Global;
use std::marker::PhantomData;
use sz_attempt::{AttemptEnd, Faults, Job, Skipped};
use sz_book::{NoMemory, Plan, Words};
use sz_io::Gate;
use sz_machine::Room;
use sz_total::{Total, tables_forget_the_order};

/// What comes of a shard that the caller runs.
#[derive(Drop)]
pub(crate) enum Rest<'a> {
    /// The tables of its emits, and its records that fault.
    Part(Total<'a>, Faults),
    /// More of its records fault than may be passed over: the first of them.
    Bad(Faults),
    /// All attempts on it died.
    Lost,
}

// Runs attempts of the shard at a place until one doesn't die.
fn run_shard<'a, G: Gate>(
    alloc: Global,
    room: &mut Room<'a>,
    job: &'a Job,
    round: &Round,
    gate: &G,
    ticket: u32,
    place: u32,
) -> Result<Rest<'a>, NoMemory>
    requires job { IsJob job.now }
    requires round { IsRound round.now }
    requires within { place < length round.now.shards }
    ensures value { IfOk result (λ rest. RestEnds job.now round.now place rest) }
{
    for number in 0..job.attempts {
        match run_attempt(alloc, room, job, round, gate, ticket, place, number)? {
            AttemptEnd::Died(_) => {}
            AttemptEnd::Bad(faults) => return Ok(Rest::Bad(faults)),
            AttemptEnd::Part(total, faults) => return Ok(Rest::Part(total, faults)),
        }
    }
    Ok(Rest::Lost)
}

// Whether all of so many attempts are in a word of deaths.
fn all_died(deaths: u64, attempts: u32) -> bool
    requires few { (1 ≤ attempts) × (attempts ≤ 8) }
    ensures value { result ≡ (deaths == 2 ^ attempts - 1) }
{
    deaths == (1 << attempts) - 1
}

// The record that is one too many after those in front of the round, if there is one among these.
fn one_too_many(job: &Job, round: &Round, faults: &[Skipped]) -> Option<Skipped>
    requires passed { round.now.passed ≤ job.now.skip }
    ensures value { result ≡ one_too_many job.now round.now faults.now }
{
    let place = (job.skip - round.passed) as usize;
    if place < faults.len() {
        Some(faults[place])
    } else {
        None
    }
}

// That record, if it stands in front of the one with this number.
fn one_in_front(job: &Job, round: &Round, faults: &[Skipped], first: u64) -> Option<Skipped>
    requires passed { round.now.passed ≤ job.now.skip }
    ensures value { result ≡ in_front first (one_too_many job.now round.now faults.now) }
{
    match one_too_many(job, round, faults) {
        Some(one) if one.record_no < first => Some(one),
        _ => None,
    }
}

// How many records these are, which are at most so many.
fn count_of(faults: &[Skipped], most: u32) -> u32
    requires few { length faults.now ≤ most }
    ensures value { result ≡ length faults.now }
{
    faults.len() as u32
}

// The end of a round that is decided by a record too many.
fn fault_end<'a>(one: Skipped) -> RoundEnd<'a>
    ensures value { result ≡ RoundEnd.Fault one.record_no one.fault }
{
    RoundEnd::Fault {
        record_no: one.record_no,
        fault: one.fault,
    }
}

// Runs the shard at a place, if it isn't in the pool and not all of its attempts died: the end of the round, if it decides, or if a
// shard in front does.
fn complete<'a, G: Gate, N: RoundName>(
    alloc: Global,
    room: &mut Room<'a>,
    job: &'a Job,
    round: &Round,
    plan: &Plan,
    gate: &G,
    settled: &Words,
    deaths: &Words,
    pool: &mut Pool<'a, N>,
    place: u32,
) -> Result<Option<RoundEnd<'a>>, NoMemory>
    requires set { IsSet N.job N.round job.now round.now plan.now }
    requires within { place < length round.now.shards }
    requires words { AreWords N.job N.round settled.now deaths.now }
    requires holds { HoldsShards N.job N.round pool.old.part.total pool.old.part.first pool.old.shards }
    requires pooled { IsPooled settled.now pool.old.shards place }
    ensures holds { IfOk result (λ end. IfNone end (HoldsShards N.job N.round pool.new.part.total pool.new.part.first pool.new.shards)) }
    ensures pooled { IfOk result (λ end. IfNone end (IsPooled settled.now pool.new.shards (place + 1))) }
    ensures value { IfOk result (λ end. IfSome end (λ e.
        EndsRound job.now.compiled (outcome_from job.now round.now.passed (shards_of round.now)) e)) }
{
    if *settled.get(place as usize) != 0 {
        return Ok(None);
    }
    let first = round.shards.get(place as usize).first;
    let faults = pool.part.first.faults.as_slice();
    if let Some(one) = one_in_front(job, round, faults, first) {
        return Ok(Some(fault_end(one)));
    }
    if all_died(*deaths.get(place as usize), job.attempts) {
        return Ok(Some(RoundEnd::Lost(round.first_shard + u64::from(place))));
    }
    run_left(alloc, room, job, round, plan, gate, pool, place)
}

// Runs the shard at a place, which isn't in the pool, while no shard in front decides: the end of the round, if it decides.
fn run_left<'a, G: Gate, N: RoundName>(
    alloc: Global,
    room: &mut Room<'a>,
    job: &'a Job,
    round: &Round,
    plan: &Plan,
    gate: &G,
    pool: &mut Pool<'a, N>,
    place: u32,
) -> Result<Option<RoundEnd<'a>>, NoMemory>
    requires set { IsSet N.job N.round job.now round.now plan.now }
    requires within { place < length round.now.shards }
    requires holds { HoldsShards N.job N.round pool.old.part.total pool.old.part.first pool.old.shards }
    requires front { HasFront pool.old.shards place }
    requires absent { ¬ IsAmong place pool.old.shards }
    requires open { NoneInFront job.now round.now place }
    ensures holds { IfOk result (λ end. IfNone end (HoldsShards N.job N.round pool.new.part.total pool.new.part.first pool.new.shards)) }
    ensures more { IfOk result (λ end. IfNone end (pool.new.shards ≡ pool.old.shards ++ place ∷ [])) }
    ensures value { IfOk result (λ end. IfSome end (λ e.
        EndsRound job.now.compiled (outcome_from job.now round.now.passed (shards_of round.now)) e)) }
{
    let ticket = plan.ticket_count() as u32;
    match run_shard(alloc, room, job, round, gate, ticket, place)? {
        Rest::Lost => Ok(Some(RoundEnd::Lost(round.first_shard + u64::from(place)))),
        Rest::Bad(faults) => {
            let theirs = first_faults(alloc, job.skip, faults);
            let both = first_of_both(&pool.part.first, &theirs)?;
            Ok(Some(fault_end(*both.faults.get((job.skip - round.passed) as usize))))
        }
        Rest::Part(total, faults) => {
            let part = RoundPart {
                total,
                first: first_faults(alloc, job.skip, faults),
                of: PhantomData,
            };
            add_shard(pool, place, part)?;
            Ok(None)
        }
    }
}

/// The end of a round whose workers are done, with what all of them won in the pool. A shard that none of them settled is lost where
/// the words tell that all its attempts died; else it is run here. This goes in order until one decides, so a shard that a worker
/// reported as bad is run again, and its fault comes of that. No ticket of the plan is drawn for it: the gate is told the number after
/// the last one.
pub(crate) fn finish<'a, G: Gate, N: RoundName>(
    alloc: Global,
    job: &'a Job,
    round: &Round,
    plan: &Plan,
    gate: &G,
    settled: &Words,
    deaths: &Words,
    mut pool: Pool<'a, N>,
) -> Result<RoundEnd<'a>, NoMemory>
    requires set { IsSet N.job N.round job.now round.now plan.now }
    requires words { AreWords N.job N.round settled.now deaths.now }
    requires holds { HoldsShards N.job N.round pool.part.total pool.part.first pool.shards }
    requires pooled { IsPooled settled.now pool.shards 0 }
    ensures value { IfOk result (λ end.
        EndsRound job.now.compiled (outcome_from job.now round.now.passed (shards_of round.now)) end) }
{
    let mut room = Room::new(alloc);
    for place in 0..plan.shards() {
        if let Some(end) = complete(
            alloc, &mut room, job, round, plan, gate, settled, deaths, &mut pool, place,
        )? {
            return Ok(end);
        }
    }
    tables_forget_the_order();
    let RoundPart {
        total,
        first,
        of: _,
    } = pool.part;
    let faults = first.faults.as_slice();
    match one_too_many(job, round, faults) {
        Some(one) => Ok(fault_end(one)),
        None => Ok(RoundEnd::Tables(total, count_of(faults, job.skip))),
    }
}
