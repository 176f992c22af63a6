//! The parts of all workers together.
ghost use Rattle.std.specs.Prelude.{◌≡◌, ◌≤◌, ◌++◌, ◌∷◌, [], IfOk, OnOk};
ghost use Rattle.sz_mean.specs.Marked.{all_tables};
ghost use Rattle.sz_book_rules.specs.History.{IsAmong, AreApart, AreDistinct};
ghost use Rattle.sz_attempt.specs.Shards.{IsJob};
ghost use Rattle.sz_workers.specs.Rounds.{IsRound};
ghost use Rattle.sz_workers.specs.Closing.{shards_in};
ghost use Rattle.sz_workers.specs.Parts.{plan_for, HoldsShards};

use crate::part::{RoundName, RoundPart};
use std::alloc::Global;
use std::thread::Threads;
use sz_book::{Lane, Load, NoMemory, Plan, Shards};
use sz_types::TableDecls;

/// A part, and the shards that it stands for.
#[derive(Drop)]
pub(crate) struct Pool<'a, N: RoundName> {
    pub(crate) part: RoundPart<'a, N>,
    pub(crate) shards: Shards,
}

/// A pool without shards.
pub(crate) fn empty_pool<'a, N: RoundName>(
    alloc: Global,
    plan: &Plan,
    decls: &'a TableDecls,
) -> Result<Pool<'a, N>, NoMemory>
    requires job { IsJob N.job }
    requires round { IsRound N.round }
    requires plan { plan.now ≡ plan_for N.job N.round }
    requires decls { decls.now ≡ all_tables N.job.compiled }
    ensures holds { IfOk result (λ pool. HoldsShards N.job N.round pool.part.total pool.part.first pool.shards) }
    ensures empty { IfOk result (λ pool. pool.shards ≡ []) }
{
    let part = RoundPart::empty(alloc, plan, decls)?;
    Ok(Pool {
        part,
        shards: Shards::new(alloc),
    })
}

/// Takes in the parts of lanes, one after the other, each in at most so many threads. No shard stands in two lanes, or in the pool already.
pub(crate) fn pour_all<'a, R: Threads + Sync, N: RoundName>(
    rt: &R,
    threads: u32,
    pool: &mut Pool<'a, N>,
    lanes: Vec<Lane<RoundPart<'a, N>>>,
) -> Result<(), NoMemory>
    requires threads { 1 ≤ threads }
    requires holds { HoldsShards N.job N.round pool.old.part.total pool.old.part.first pool.old.shards }
    requires distinct { AreDistinct (pool.old.shards ++ shards_in lanes.items) }
    ensures holds { OnOk result (HoldsShards N.job N.round pool.new.part.total pool.new.part.first pool.new.shards) }
    ensures all { OnOk result (pool.new.shards ≡ pool.old.shards ++ shards_in lanes.entry.items) }
{
    for lane in lanes {
        pour(rt, threads, pool, lane)?;
    }
    Ok(())
}

// Takes in a lane, none of whose shards is there yet.
fn pour<'a, R: Threads + Sync, N: RoundName>(
    rt: &R,
    threads: u32,
    pool: &mut Pool<'a, N>,
    lane: Lane<RoundPart<'a, N>>,
) -> Result<(), NoMemory>
    requires threads { 1 ≤ threads }
    requires holds { HoldsShards N.job N.round pool.old.part.total pool.old.part.first pool.old.shards }
    requires apart { AreApart pool.old.shards lane.shards }
    ensures holds { OnOk result (HoldsShards N.job N.round pool.new.part.total pool.new.part.first pool.new.shards) }
    ensures all { OnOk result (pool.new.shards ≡ pool.old.shards ++ lane.entry.shards) }
{
    let (part, shards) = lane.take();
    pool.part.absorb_by(rt, threads, part)?;
    pool.shards.append(shards)
}

/// Takes in the part of one shard, which isn't there yet.
pub(crate) fn add_shard<'a, N: RoundName>(
    pool: &mut Pool<'a, N>,
    place: u32,
    part: RoundPart<'a, N>,
) -> Result<(), NoMemory>
    requires holds { HoldsShards N.job N.round pool.old.part.total pool.old.part.first pool.old.shards }
    requires absent { ¬ IsAmong place pool.old.shards }
    requires one { HoldsShards N.job N.round part.total part.first (place ∷ []) }
    ensures value { OnOk result (HoldsShards N.job N.round pool.new.part.total pool.new.part.first pool.new.shards) }
    ensures more { OnOk result (pool.new.shards ≡ pool.old.shards ++ place ∷ []) }
{
    match pool.part.absorb(part) {
        Ok(()) => pool.shards.push(place),
        Err(_) => Err(NoMemory),
    }
}
