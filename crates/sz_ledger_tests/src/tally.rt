//! A load that keeps just the list that it stands for.
ghost use Rattle.std.specs.Prelude.{◌≡◌, ◌<◌, [], ◌∷◌, length, IfOk, IfSome};
ghost use Rattle.sz_book.specs.Books.{HaveNoShards};
ghost use Rattle.sz_claims.specs.Known.{AreEmpty};

use std::alloc::Global;
use std::snapshot::Snapshot;
use sz_book::{Lane, Load, NoMemory, Plan, Receipt, Shards};
use sz_list::Items;

/// It stands for the shards in its list. All attempts may die, and all shards may be bad.
#[derive(Drop)]
pub struct Tally {
    pub shards: Shards,
    pub plan: Snapshot<Plan>,
    pub alloc: Global,
}

impl Load for Tally {
    ghost died = { λ s k. Unit {0} };

    ghost is_bad = { λ s. Unit {0} };

    ghost plan = { λ tally. tally.plan.value };

    ghost stands = { λ tally ss. tally.shards ≡ ss };

    fn absorb(&mut self, part: Tally) -> Result<(), Tally> {
        let Ok(copy) = Items::copied(self.alloc, part.shards.as_slice()) else {
            return Err(part);
        };
        if self.shards.append(copy).is_err() {
            return Err(part);
        }
        Ok(())
    }
}

/// The tally of these shards.
pub fn tally_of(alloc: Global, plan: &Plan, shards: &[u32]) -> Result<Tally, NoMemory>
    ensures value { IfOk result (λ tally. (tally.shards ≡ shards.now) × (tally.plan.value ≡ plan.now)) }
{
    let shards = Items::copied(alloc, shards)?;
    Ok(Tally {
        shards,
        plan: Snapshot::of(plan),
        alloc,
    })
}

/// One lane with no shards.
pub fn one_lane(alloc: Global, plan: &Plan) -> Result<Vec<Lane<Tally>>, NoMemory>
    ensures value { IfOk result (λ lanes. HaveNoShards lanes.items × (length lanes.items < 2)) }
{
    let lane = Lane::new(alloc, tally_of(alloc, plan, &[])?, 1)?;
    let mut lanes = Vec::new(alloc);
    lanes.push(lane)?;
    Ok(lanes)
}

/// A lane with the one shard that was won.
pub fn lane_with(
    alloc: Global,
    plan: &Plan,
    receipt: Receipt,
) -> Result<Option<Lane<Tally>>, NoMemory>
    requires { receipt.plan ≡ plan.now }
    ensures { IfOk result (λ found. IfSome found (λ lane. (lane.plan ≡ plan.now) × (lane.shards ≡ receipt.shard ∷ []))) }
{
    let mut lane = Lane::new(alloc, tally_of(alloc, plan, &[])?, 1)?;
    let part = tally_of(alloc, plan, &[receipt.shard()])?;
    match lane.put(receipt, part) {
        Ok(()) => Ok(Some(lane)),
        Err(_) => Ok(None),
    }
}

/// So many empty lanes.
pub fn empty_lanes(alloc: Global, plan: &Plan, count: u32) -> Result<Vec<Lane<Tally>>, NoMemory>
    ensures value { IfOk result (λ lanes. AreEmpty plan.now lanes.items × (length lanes.items ≡ count)) }
{
    let mut lanes = Vec::new(alloc);
    for _ in 0..count {
        let load = tally_of(alloc, plan, &[])?;
        let lane = Lane::new(alloc, load, 4)?;
        lanes.push(lane)?;
    }
    Ok(lanes)
}

/// How often a shard stands in the lanes.
pub fn times_in(lanes: &[Lane<Tally>], shard: u32) -> u32 {
    let mut count = 0u32;
    for lane in lanes {
        for other in lane.shards().as_slice() {
            if *other == shard {
                count = count.wrapping_add(1);
            }
        }
    }
    count
}
