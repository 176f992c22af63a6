//! Who makes attempts.
ghost use Rattle.std.specs.Prelude.{◌≡◌, ◌<◌, [], ◌∷◌, IfOk, OnOk, IfErr};
ghost use Rattle.sz_book_rules.specs.Plan.{PlanData};
ghost use Rattle.sz_book.specs.Books.{IsClaim};
ghost use Rattle.sz_workers.specs.Makers.{IsTrueMiss, GivesEmits};

use sz_book::{Claim, Load};

/// Why an attempt gave no part.
#[derive(Clone, Copy, Debug, PartialEq, Eq)]
pub enum Missed {
    /// It died.
    Died,
    /// Its shard is bad: more of its records fault than may be passed over, and not all its attempts died.
    Bad,
    /// There was no memory.
    NoMemory,
}

/// Makes the attempts on the shards of a plan. Each worker has one of its own.
pub trait Maker<T: Load> {
    /// The plan.
    ghost plan: { Self → PlanData };

    /// Makes attempt `number` on the claim's shard, counted from 0.
    fn attempt(&mut self, claim: &Claim, number: u32) -> Result<T, Missed>
        requires claim { IsClaim (plan self.old) claim.now }
        requires within { claim.now.shard < (plan self.old).shards }
        requires number { number < (plan self.old).attempts }
        ensures part { IfOk result (λ part. (T.plan part ≡ plan self.old) × T.stands part (claim.now.shard ∷ [])) }
        ensures gave { OnOk result (GivesEmits T.died T.is_bad claim.now.shard number) }
        ensures missed { IfErr result (λ why. IsTrueMiss T.died T.is_bad claim.now.shard number why) }
        ensures plan { plan self.new ≡ plan self.old };
}
