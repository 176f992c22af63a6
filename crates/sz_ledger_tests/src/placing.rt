//! What was made of a shard goes into a lane.
ghost use Rattle.std.specs.Prelude.{◌≡◌, ◌<◌, [], ◌∷◌};
ghost use Rattle.sz_book_rules.specs.Plan.{IsPlan};
ghost use Rattle.sz_claims.specs.Known.{AreInHand};
ghost use Rattle.sz_ledger_tests.specs.Keeping.{KeepsPlace};

use crate::tally::{Tally, tally_of};
use std::alloc::Global;
use sz_book::{NoMemory, Plan, Receipt};
use sz_claims::{Ledger, Pass};

/// Puts the tally of a shard that was won into a lane. Whether the lane was home, and took it.
pub fn place(
    alloc: Global,
    ledger: &Ledger<Tally>,
    pass: &mut Pass<Tally>,
    plan: &Plan,
    receipt: Receipt,
    lane_no: u32,
) -> Result<bool, NoMemory>
    requires of { (pass.old.ledger ≡ ledger.now) × (lane_no < ledger.now.lanes) × (pass.old.lane ≡ 0) }
    requires plan { IsPlan plan.now × (ledger.now.plan ≡ plan.now) × (receipt.plan ≡ plan.now) }
    requires won { AreInHand (receipt.shard ∷ []) pass.old.mine }
    ensures kept { KeepsPlace pass.old pass.new }
{
    let part = tally_of(alloc, plan, &[receipt.shard()])?;
    let Some(mut lane) = ledger.lend(pass, lane_no) else {
        return Ok(false);
    };
    match lane.put(receipt, part) {
        Ok(()) => {
            ledger.give(pass, lane_no, lane);
            Ok(true)
        }
        Err(_) => {
            ledger.give(pass, lane_no, lane);
            Ok(false)
        }
    }
}
