//! Parts of a round, which stand for shards.
ghost use Rattle.std.specs.Prelude.{◌≡◌, ◌≤◌, ◌++◌, ℕ, List, [], false, IfOk, OnOk};
ghost use Rattle.sz_mean.specs.Marked.{all_tables};
ghost use Rattle.sz_book_rules.specs.History.{AreApart};
ghost use Rattle.sz_book_rules.specs.Plan.{IsPlan};
ghost use Rattle.sz_attempt.specs.declared.job.Job.{Job};
ghost use Rattle.sz_attempt.specs.Shards.{IsJob};
ghost use Rattle.sz_workers.specs.declared.round.Round.{Round};
ghost use Rattle.sz_workers.specs.Rounds.{shards_of, IsRound};
ghost use Rattle.sz_workers.specs.Parts.{plan_for, Dies, Bad, HoldsShards};

use crate::first_faults::{FirstFaults, first_of_both, no_faults};
use std::alloc::Global;
use std::marker::{Brand, PhantomData};
use std::thread::Threads;
use sz_book::{Lane, Load, NoMemory, Plan};
use sz_total::Total;
use sz_types::TableDecls;

/// Names a round for contracts: a type of it has no values. Each run of a round picks one.
pub trait RoundName {
    /// The job.
    ghost job: { Job };

    /// The round.
    ghost round: { Round };
}

impl RoundName for Brand {
    ghost job = { record {
      compiled = record { core = record { items = []; locals = [] }; ignoring = false };
      statics = [];
      budget = 0;
      skip = 0;
      attempts = 0;
      kills = [];
      twice = [];
    } };

    ghost round = { record { records = record { items = []; ends = [] }; shards = []; first_shard = 0; passed = 0 } };
}

/// The tables of what some shards of a round emit, and the first of their records that fault.
#[derive(Drop)]
pub struct RoundPart<'a, N: RoundName> {
    pub(crate) total: Total<'a>,
    pub(crate) first: FirstFaults,
    pub(crate) of: PhantomData<N>,
}

impl<'a, N: RoundName> Load for RoundPart<'a, N> {
    ghost died = { λ s k. Dies N.job (shards_of N.round) s k };

    ghost is_bad = { λ s. Bad N.job (shards_of N.round) s };

    ghost plan = { λ part. plan_for N.job N.round };

    ghost stands = { λ part ss. HoldsShards N.job N.round part.total part.first ss };

    fn absorb(&mut self, part: RoundPart<'a, N>) -> Result<(), RoundPart<'a, N>> {
        let RoundPart {
            total,
            first,
            of: _,
        } = part;
        let Ok(both) = first_of_both(&self.first, &first) else {
            return Err(RoundPart {
                total,
                first,
                of: PhantomData,
            });
        };
        match self.total.absorb(total) {
            Ok(()) => {
                self.first = both;
                Ok(())
            }
            Err(total) => Err(RoundPart {
                total,
                first,
                of: PhantomData,
            }),
        }
    }
}

impl<'a, N: RoundName> RoundPart<'a, N> {
    /// Takes in the part of other shards as `absorb` does, in at most so many threads. Where there was no memory, the other part is dropped.
    pub(crate) fn absorb_by<R: Threads + Sync>(
        &mut self,
        rt: &R,
        threads: u32,
        part: RoundPart<'a, N>,
    ) -> Result<(), NoMemory>
        requires threads { 1 ≤ threads }
        requires apart { (ss : List ℕ) × (ts : List ℕ) × HoldsShards N.job N.round self.old.total self.old.first ss
            × HoldsShards N.job N.round part.total part.first ts × AreApart ss ts }
        ensures ok { (ss ts : List ℕ) → HoldsShards N.job N.round self.old.total self.old.first ss
            → HoldsShards N.job N.round part.entry.total part.entry.first ts → AreApart ss ts
            → OnOk result (HoldsShards N.job N.round self.new.total self.new.first (ss ++ ts)) }
    {
        let both = first_of_both(&self.first, &part.first)?;
        match self.total.absorb_by(rt, threads as usize, part.total) {
            Ok(()) => {
                self.first = both;
                Ok(())
            }
            Err(_) => Err(NoMemory),
        }
    }

    /// The tables before any emit, of a round with this plan and a job with these declarations.
    pub fn empty(
        alloc: Global,
        plan: &Plan,
        decls: &'a TableDecls,
    ) -> Result<RoundPart<'a, N>, NoMemory>
        requires job { IsJob N.job }
        requires round { IsRound N.round }
        requires plan { plan.now ≡ plan_for N.job N.round }
        requires decls { decls.now ≡ all_tables N.job.compiled }
        ensures value { IfOk result (λ part. HoldsShards N.job N.round part.total part.first []) }
    {
        // the plan is for the contract alone
        let _ = plan;
        let total = Total::new(alloc, decls)?;
        Ok(RoundPart {
            total,
            first: no_faults(alloc),
            of: PhantomData,
        })
    }
}

/// A lane that stands for no shards, of a round with this plan and a job with these declarations. Where other workers fill lanes at the
/// same time (`others`), its large tables are dealt out to parts as it takes in the parts of shards.
pub(crate) fn empty_lane<'a, N: RoundName>(
    alloc: Global,
    plan: &Plan,
    decls: &'a TableDecls,
    others: bool,
) -> Result<Lane<RoundPart<'a, N>>, NoMemory>
    requires job { IsJob N.job }
    requires round { IsRound N.round }
    requires plan { plan.now ≡ plan_for N.job N.round }
    requires decls { decls.now ≡ all_tables N.job.compiled }
    ensures value { IfOk result (λ lane. lane ≡ record { plan = plan_for N.job N.round; shards = [] }) }
    ensures plans { IsPlan plan.now }
{
    let shards = plan.shards();
    let mut load: RoundPart<'a, N> = RoundPart::empty(alloc, plan, decls)?;
    load.total.deal_early(others);
    Lane::new(alloc, load, shards)
}
