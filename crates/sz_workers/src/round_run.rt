//! Rounds, run by workers.
ghost use Rattle.std.specs.Prelude.{◌≡◌, ◌+◌, ◌<◌, ◌≤◌, [], length, min, max, IfOk};
ghost use denote.Param.Send.{IsSend, IsSync};
ghost use Rattle.sz_mean.specs.Marked.{all_tables};
ghost use Rattle.sz_book_rules.specs.Plan.{count_of};
ghost use Rattle.sz_claims.specs.Known.{LedgerData, AreEmpty};
ghost use Rattle.sz_attempt.specs.Shards.{IsJob};
ghost use Rattle.sz_workers.specs.Outcomes.{outcome_from};
ghost use Rattle.sz_workers.specs.Rounds.{IsRound, shards_of, EndsRound};
ghost use Rattle.sz_workers.specs.Closing.{AreFresh, AreBack, IsAlone, IsBack, IsLeft};
ghost use Rattle.sz_workers.specs.Parts.{plan_for, Dies};
ghost use Rattle.sz_workers.specs.RoundRuns.{IsSet};
ghost use Rattle.sz_workers.specs.Starting.{CanWork, lanes_for};

use crate::part::{RoundName, RoundPart, empty_lane};
use crate::pool::{empty_pool, pour_all};
use crate::round_end::finish;
use crate::worker::{Back, Worker};
use crate::{Round, RoundEnd, close_all, plan_of};
use std::alloc::Global;
use std::marker::Brand;
use std::thread::Threads;
use std::{mem, thread};
use sz_attempt::Job;
use sz_book::{Closed, Lane, NoMemory, Plan};
use sz_claims::{Ledger, Pass};
use sz_io::Gate;
use sz_types::TableDecls;

/// Runs the attempts of a round by so many workers. The gate is called before each attempt, with the number of the shard in the input.
///
/// The workers are threads, where threads can be started; else they work one after the other. Values go as deep as the types of the
/// program, and a thread has the stack that the system gives it, so a program with high types is for one worker. The parts of shards
/// that were won count; a shard that no worker settled is run by the caller, unless all of its attempts died.
pub fn run_round<'a, R: Threads + Sync, G: Gate + Sync>(
    rt: &R,
    alloc: Global,
    job: &'a Job,
    round: &Round,
    workers: u32,
    gate: &G,
) -> Result<RoundEnd<'a>, NoMemory>
    requires job { IsJob job.now }
    requires attempts { (1 ≤ job.now.attempts) × (job.now.attempts ≤ 8) }
    requires round { IsRound round.now }
    requires passed { round.now.passed ≤ job.now.skip }
    requires workers { (1 ≤ workers) × (workers ≤ 64) }
    ensures value { IfOk result (λ end.
        EndsRound job.now.compiled (outcome_from job.now round.now.passed (shards_of round.now)) end) }
{
    let plan = plan_of(alloc, job, round)?;
    run_named::<R, G, Brand>(rt, alloc, job, round, &plan, workers, gate)
}

// Runs a round that has a name.
fn run_named<'a, R: Threads + Sync, G: Gate + Sync, N: RoundName + Send + Sync>(
    rt: &R,
    alloc: Global,
    job: &'a Job,
    round: &Round,
    plan: &Plan,
    workers: u32,
    gate: &G,
) -> Result<RoundEnd<'a>, NoMemory>
    requires set { IsSet N.job N.round job.now round.now plan.now }
    requires workers { (1 ≤ workers) × (workers ≤ 64) }
    ensures value { IfOk result (λ end.
        EndsRound job.now.compiled (outcome_from job.now round.now.passed (shards_of round.now)) end) }
{
    let useful = useful_workers(plan, workers);
    let (mut closed, pockets) = run_all::<R, G, N>(rt, alloc, job, round, plan, useful, gate)?;
    let lanes = mem::replace(&mut closed.lanes, Vec::new(alloc));
    let mut pool = empty_pool(alloc, plan, job.compiled.tables())?;
    pour_all(rt, workers, &mut pool, lanes)?;
    pour_all(rt, workers, &mut pool, pockets)?;
    finish(
        alloc,
        job,
        round,
        plan,
        gate,
        &closed.settled,
        &closed.deaths,
        pool,
    )
}

// How many of so many workers find a ticket, or one where there is none.
fn useful_workers(plan: &Plan, workers: u32) -> u32
    requires some { 1 ≤ workers }
    ensures value { result ≡ max (min (count_of plan.now) workers) 1 }
    ensures within { (1 ≤ result) × (result ≤ workers) }
{
    plan.ticket_count().min(workers as usize).max(1) as u32
}

// Runs the workers of a round over a ledger of its own: what they leave.
fn run_all<'a, R: Threads + Sync, G: Gate + Sync, N: RoundName + Send + Sync>(
    rt: &R,
    alloc: Global,
    job: &'a Job,
    round: &Round,
    plan: &Plan,
    workers: u32,
    gate: &G,
) -> Result<(Closed<RoundPart<'a, N>>, Vec<Lane<RoundPart<'a, N>>>), NoMemory>
    requires set { IsSet N.job N.round job.now round.now plan.now }
    requires workers { (1 ≤ workers) × (workers ≤ 64) }
    ensures left { IfOk result (λ left.
        IsLeft (λ s k. Dies N.job (shards_of N.round) s k) plan.now left.0.lanes.items left.1.items left.0.settled left.0.deaths) }
{
    let copy = plan.copied(alloc)?;
    let lanes = empty_lanes(
        alloc,
        plan,
        job.compiled.tables(),
        workers.div_ceil(2),
        workers > 1,
    )?;
    let (ledger, mut first) = Ledger::make(alloc, copy, lanes, workers + 1)?;
    let ready = ready_workers(alloc, job, round, &ledger, gate, &mut first, workers)?;
    let back = run_workers(rt, ready)?;
    close_all(alloc, ledger, first, back)
}

// So many lanes that stand for no shards, for one worker or also for others.
fn empty_lanes<'a, N: RoundName>(
    alloc: Global,
    plan: &Plan,
    decls: &'a TableDecls,
    count: u32,
    others: bool,
) -> Result<Vec<Lane<RoundPart<'a, N>>>, NoMemory>
    requires job { IsJob N.job }
    requires round { IsRound N.round }
    requires plan { plan.now ≡ plan_for N.job N.round }
    requires decls { decls.now ≡ all_tables N.job.compiled }
    ensures empty { IfOk result (λ lanes. AreEmpty plan.now lanes.items) }
    ensures count { IfOk result (λ lanes. length lanes.items ≡ count) }
{
    let mut lanes = Vec::new(alloc);
    for _made in 0..count {
        let lane: Lane<RoundPart<'a, N>> = empty_lane(alloc, plan, decls, others)?;
        lanes.push(lane)?;
    }
    Ok(lanes)
}

// So many workers, each with a pass made of the first one. Worker w, counted from 0, asks for the lane w modulo the number of lanes.
fn ready_workers<'a, 'r, G: Gate, N: RoundName>(
    alloc: Global,
    job: &'a Job,
    round: &'r Round,
    ledger: &'r Ledger<RoundPart<'a, N>>,
    gate: &'r G,
    first: &mut Pass<RoundPart<'a, N>>,
    count: u32,
) -> Result<Vec<Worker<'a, 'r, G, N>>, NoMemory>
    requires set { CanWork N.job N.round job.now round.now ledger.now }
    requires lanes { (1 ≤ count) × (ledger.now.lanes ≡ lanes_for count) }
    requires alone { IsAlone ledger.now 0 first.old }
    ensures fresh { IfOk result (λ workers. AreFresh ledger.now 1 workers.items) }
    ensures alone { IfOk result (λ workers. IsAlone ledger.now (length workers.items) first.new) }
{
    let lanes = count.div_ceil(2);
    let mut workers = Vec::new(alloc);
    for number in 0..count {
        let Some(pass) = ledger.split(first) else {
            return Ok(workers);
        };
        workers.push(Worker {
            alloc,
            job,
            round,
            ledger,
            gate,
            pass,
            lane_no: number % lanes,
        })?;
    }
    Ok(workers)
}

// What comes back of workers, each in a thread of its own where one can be started.
fn run_workers<'a, 'r, R: Threads + Sync, G: Gate + Sync, N: RoundName + Send + Sync>(
    rt: &R,
    ready: Vec<Worker<'a, 'r, G, N>>,
) -> Result<Vec<Back<'a, N>>, NoMemory>
    requires send { IsSync G.row × IsSend N.row × IsSync N.row }
    ensures count { IfOk result (λ back. length back.items ≡ length ready.entry.items) }
    ensures back { IfOk result (λ back. (ledger : LedgerData) → AreFresh ledger 1 ready.entry.items → AreBack ledger 1 back.items) }
{
    let back = thread::map_vec(
        rt,
        ready,
        &|worker: Worker<G, N>| -> Back<N>
            ensures { IfOk result (λ back. IsBack worker.entry.ledger worker.entry.number back.0 back.1) }
        { worker.run() },
    )?;
    Ok(back)
}
