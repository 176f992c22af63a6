//! Lanes take in shards and other lanes; a plan tells its numbers.
use crate::plans::{FIRST, four_shards};
use crate::tally::{Tally, lane_with};
use std::alloc::Global;
use std::process::Abort;
use sz_book::{Claim, Lane, NoMemory, Receipt};

// Whether a lane has the shards 0 and 1, and so has its load.
fn has_both(lane: Lane<Tally>) -> bool {
    let is_listed = lane.shards().as_slice() == [0u32, 1].as_slice();
    let (load, shards) = lane.take();
    is_listed && load.shards.as_slice() == shards.as_slice()
}

// Whether two lanes, each with a shard that was won, are one.
fn are_joined(alloc: Global) -> Result<bool, NoMemory> {
    let plan = four_shards(alloc)?;
    let one = Claim {
        ticket: 1,
        shard: 1,
    };
    let Some(mut lane) = lane_with(alloc, &plan, Receipt::won(&plan, &FIRST))? else {
        return Ok(false);
    };
    let Some(other) = lane_with(alloc, &plan, Receipt::won(&plan, &one))? else {
        return Ok(false);
    };
    let is_merged = lane.merge(other).is_ok();
    Ok(is_merged && has_both(lane))
}

// Whether a plan tells its numbers.
fn is_told(alloc: Global) -> Result<bool, NoMemory> {
    let plan = four_shards(alloc)?;
    let other = Claim {
        ticket: 3,
        shard: 2,
    };
    let numbers = (plan.shards(), plan.attempts(), plan.ticket_count());
    Ok(numbers == (4, 1, 4) && !plan.names(&other))
}

#[test]
fn lanes_stand_for_what_was_put_and_a_plan_tells_its_numbers(rt: HostRuntime) {
    let found = [are_joined(rt.alloc()), is_told(rt.alloc())];
    assert_eq!(rt; found, [Ok(true), Ok(true)]);
}
