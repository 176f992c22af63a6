//! The attempts of a round, made by a worker.
ghost use Rattle.std.specs.Prelude.{◌≡◌, ◌<◌, [], ◌∷◌, IfOk, OnOk, IfErr};
ghost use Rattle.sz_attempt.specs.Shards.{IsJob};
ghost use Rattle.sz_workers.specs.Rounds.{IsRound, shards_of};
ghost use Rattle.sz_workers.specs.Ends.{IsEndOf};
ghost use Rattle.sz_workers.specs.Makers.{IsTrueMiss, GivesEmits};
ghost use Rattle.sz_workers.specs.Parts.{Dies, Bad, HoldsShards};

use crate::attempts::run_attempt;
use crate::first_faults::first_faults;
use crate::part::{RoundName, RoundPart};
use crate::{Maker, Missed, Round};
use std::alloc::Global;
use std::marker::{Model, PhantomData};
use sz_attempt::{AttemptEnd, Job};
use sz_book::Claim;
use sz_io::Gate;
use sz_machine::Room;

/// Makes the attempts of a round in a room of its own.
#[derive(Drop)]
pub(crate) struct RoundMaker<'a, 'r, G: Gate, N: RoundName> {
    pub(crate) alloc: Global,
    pub(crate) room: Room<'a>,
    pub(crate) job: &'a Job,
    pub(crate) round: &'r Round,
    pub(crate) gate: &'r G,
    pub(crate) of: PhantomData<N>,
}

impl<'a, 'r, G: Gate, N: RoundName> Model for RoundMaker<'a, 'r, G, N> {
    ghost use Rattle.std.specs.Prelude.{◌≡◌};
    ghost use Rattle.sz_book_rules.specs.Plan.{PlanData};
    ghost use Rattle.sz_attempt.specs.Shards.{IsJob};
    ghost use Rattle.sz_workers.specs.Rounds.{IsRound};
    ghost use Rattle.sz_workers.specs.Parts.{plan_for};

    ghost Value = { PlanData };

    ghost view = { λ m. plan_for N.job N.round };

    ghost invariant = { λ m. (m.job.now ≡ N.job) × (m.round.now ≡ N.round) × IsJob N.job × IsRound N.round };
}

// The part that an attempt gave, or why it gave none.
fn part_of<'a, N: RoundName>(
    alloc: Global,
    skip: u32,
    place: u32,
    number: u32,
    end: AttemptEnd<'a>,
) -> Result<RoundPart<'a, N>, Missed>
    requires job { IsJob N.job }
    requires round { IsRound N.round }
    requires number { number < N.job.attempts }
    requires skip { skip ≡ N.job.skip }
    requires end { IsEndOf N.job N.round place number end }
    ensures part { IfOk result (λ part. HoldsShards N.job N.round part.total part.first (place ∷ [])) }
    ensures gave { OnOk result (GivesEmits
        (λ s k. Dies N.job (shards_of N.round) s k) (λ s. Bad N.job (shards_of N.round) s) place number) }
    ensures missed { IfErr result (λ why. IsTrueMiss
        (λ s k. Dies N.job (shards_of N.round) s k) (λ s. Bad N.job (shards_of N.round) s) place number why) }
{
    match end {
        AttemptEnd::Part(total, faults) => Ok(RoundPart {
            total,
            first: first_faults(alloc, skip, faults),
            of: PhantomData,
        }),
        AttemptEnd::Bad(_) => Err(Missed::Bad),
        AttemptEnd::Died(_) => Err(Missed::Died),
    }
}

impl<'a, 'r, G: Gate, N: RoundName> Maker<RoundPart<'a, N>> for RoundMaker<'a, 'r, G, N> {
    ghost plan = { λ m. m };

    fn attempt(&mut self, claim: &Claim, number: u32) -> Result<RoundPart<'a, N>, Missed> {
        let job = self.job;
        let round = self.round;
        match run_attempt(
            self.alloc,
            &mut self.room,
            job,
            round,
            self.gate,
            claim.ticket,
            claim.shard,
            number,
        ) {
            Ok(end) => part_of(self.alloc, job.skip, claim.shard, number, end),
            Err(_) => Err(Missed::NoMemory),
        }
    }
}
