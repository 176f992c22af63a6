//! Settlements, and the receipt of one that was won.
ghost use Rattle.std.specs.Prelude.{◌≡◌, ◌<◌};

use crate::plan::Plan;
use std::marker::Model;
use std::snapshot::Snapshot;
use sz_book_rules::Claim;

/// Shows that a settlement was won. It can't be copied. At run time it keeps the shard alone; contracts know the plan too.
pub struct Receipt {
    shard: u32,
    plan: Snapshot<Plan>,
}

impl Drop for Receipt {
    fn drop(self) {
        let Receipt { shard: _, plan: _ } = self;
    }
}

impl Model for Receipt {
    ghost use Rattle.sz_book.specs.Lanes.{ReceiptData};

    ghost Value = { ReceiptData };

    ghost view = { λ receipt. record { plan = receipt.plan.value; shard = receipt.shard } };
}

impl Receipt {
    /// The receipt of a settlement of the claim's shard. Ledgers call it where a settlement is won.
    pub fn won(plan: &Plan, claim: &Claim) -> Receipt
        requires within { claim.now.shard < plan.now.shards }
        ensures value { result ≡ record { plan = plan.now; shard = claim.now.shard } }
    {
        Receipt {
            shard: claim.shard,
            plan: Snapshot::of(plan),
        }
    }

    /// The shard that was won.
    pub fn shard(&self) -> u32
        ensures value { result ≡ self.now.shard }
    {
        self.shard
    }
}

/// The answer to a settlement.
#[derive(Drop)]
pub enum Settled {
    /// The shard was not settled before.
    Won(Receipt),
    /// The shard was settled by the attempt with this number.
    Late(u32),
}
