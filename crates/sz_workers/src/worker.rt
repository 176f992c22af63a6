//! What one thread does for a round.
ghost use Rattle.std.specs.Prelude.{◌≡◌, ◌<◌, ◌≤◌, IfOk, IfErr};
ghost use Rattle.sz_attempt.specs.Shards.{IsJob};
ghost use Rattle.sz_workers.specs.Rounds.{IsRound, shards_of};
ghost use Rattle.sz_workers.specs.Working.{Goes, IsInPlace};
ghost use Rattle.sz_workers.specs.Advances.{HasWorked, HasBegun};
ghost use Rattle.sz_workers.specs.Closing.{IsPocket, IsBack};
ghost use Rattle.sz_workers.specs.Parts.{plan_for, Dies, Bad};
ghost use Rattle.sz_workers.specs.Starting.{HoldsNothing};

use crate::Round;
use crate::making::RoundMaker;
use crate::part::{RoundName, RoundPart, empty_lane};
use crate::working::run_tickets;
use std::alloc::Global;
use std::marker::{Model, PhantomData};
use sz_attempt::Job;
use sz_book::{Lane, NoMemory};
use sz_claims::{Ledger, Pass};
use sz_io::Gate;
use sz_machine::Room;

/// Draws tickets of the ledger until none is left, and runs their attempts. The part of a shard that it wins goes into the lane with
/// this number where no other worker has it, and else into the pocket that is given back. The gate is called before each attempt.
///
/// `Err` comes where there was no memory: then a ticket may be left on its way, and the pass has no lane.
pub fn work<'a, N: RoundName, G: Gate + Sync>(
    alloc: Global,
    job: &'a Job,
    round: &Round,
    ledger: &Ledger<RoundPart<'a, N>>,
    pass: &mut Pass<RoundPart<'a, N>>,
    lane_no: u32,
    gate: &G,
) -> Result<Lane<RoundPart<'a, N>>, NoMemory>
    requires job { (job.now ≡ N.job) × IsJob job.now }
    requires round { (round.now ≡ N.round) × IsRound round.now }
    requires passed { round.now.passed ≤ job.now.skip }
    requires plan { ledger.now.plan ≡ plan_for N.job N.round }
    requires pass { (pass.old.ledger ≡ ledger.now) × HoldsNothing pass.old }
    requires lane { lane_no < ledger.now.lanes }
    ensures goes { Goes pass.old pass.new }
    ensures place { IsInPlace pass.new }
    ensures plan { IfOk result (λ pocket. pocket.plan ≡ ledger.now.plan) }
    ensures worked { IfOk result (λ pocket. IsPocket pass.new.mine pocket × HasWorked
        (λ s k. Dies N.job (shards_of N.round) s k) (λ s. Bad N.job (shards_of N.round) s) ledger.now.plan pass.old pass.new) }
    ensures begun { IfErr result (λ why. HasBegun
        (λ s k. Dies N.job (shards_of N.round) s k) (λ s. Bad N.job (shards_of N.round) s) ledger.now.plan pass.old pass.new) }
{
    pass.saw_a_legal_history();
    // a part comes into a pocket only where another worker has the lane
    let mut pocket: Lane<RoundPart<'a, N>> = empty_lane(
        alloc,
        ledger.plan(),
        job.compiled.tables(),
        true,
    )?;
    let mut maker: RoundMaker<'a, '_, G, N> = RoundMaker {
        alloc,
        room: Room::new(alloc),
        job,
        round,
        gate,
        of: PhantomData,
    };
    run_tickets(&mut maker, ledger, pass, &mut pocket, lane_no)?;
    Ok(pocket)
}

/// A worker of a round before it begins: what all workers share, a pass of its own, and the number of the lane that it asks for.
///
/// Contracts see its pass.
#[derive(Drop)]
pub(crate) struct Worker<'a, 'r, G: Gate, N: RoundName> {
    pub(crate) alloc: Global,
    pub(crate) job: &'a Job,
    pub(crate) round: &'r Round,
    pub(crate) ledger: &'r Ledger<RoundPart<'a, N>>,
    pub(crate) gate: &'r G,
    pub(crate) pass: Pass<RoundPart<'a, N>>,
    pub(crate) lane_no: u32,
}

impl<'a, 'r, G: Gate, N: RoundName> Model for Worker<'a, 'r, G, N> {
    ghost use Rattle.sz_claims.specs.Known.{PassData};
    ghost use Rattle.sz_workers.specs.Starting.{IsReady};

    ghost Value = { PassData };

    ghost view = { λ w. w.pass };

    ghost invariant = { λ w. IsReady N.job N.round w.job.now w.round.now w.ledger.now w.pass w.lane_no };
}

/// What comes back of a worker: its pass and its pocket.
pub(crate) type Back<'a, N> = Result<(Pass<RoundPart<'a, N>>, Lane<RoundPart<'a, N>>), NoMemory>;

impl<'a, 'r, G: Gate + Sync, N: RoundName> Worker<'a, 'r, G, N> {
    /// Works until no ticket is left: its pass, and its pocket.
    pub(crate) fn run(self) -> Back<'a, N>
        ensures back { IfOk result (λ back. IsBack self.entry.ledger self.entry.number back.0 back.1) }
    {
        let Worker {
            alloc,
            job,
            round,
            ledger,
            gate,
            mut pass,
            lane_no,
        } = self;
        let pocket = work::<N, G>(alloc, job, round, ledger, &mut pass, lane_no, gate)?;
        Ok((pass, pocket))
    }
}
