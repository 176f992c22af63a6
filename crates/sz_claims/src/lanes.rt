//! A lane leaves its slot, and comes back.
ghost use Rattle.std.specs.Prelude.{◌≡◌, ◌+◌, ◌<◌, ◌≤◌, ℕ, List, [], ◌∷◌, ◌++◌, Some, None, false, length, drop, map, slice_index_or, IfOk};
ghost use Rattle.std.specs.Mem.Slots.{IsFull, slots_items, slots_filled, slots_len};
ghost use Rattle.std.specs.Vec.{vec_len, vec_capacity};
ghost use Rattle.sz_book.specs.Lanes.{LaneData};
ghost use Rattle.sz_claims.specs.Rule.{view_of, slots_out, Lent, IsAsked, Given, lane_data, turn_at};
ghost use Rattle.sz_claims.specs.Known.{AreInHand};

use crate::rule::{Gives, Lends, OfLane};
use crate::steps::{Place, Shared};
use atomic_table::Closed;
use std::alloc::Global;
use std::marker::Brand;
use sz_book::{Lane, Load, NoMemory};

fn lend_as<T: Load, C: OfLane>(
    shared: &Shared<T>,
    seat: &mut Place<T>,
    turn: usize,
    lane_no: u32,
) -> u64
    requires table { (seat.old.table_id ≡ shared.now.table_id) × (turn < shared.now.table_id.words) }
    requires lane { (C.lane < shared.now.key.lanes) × (turn ≡ turn_at shared.now.key.plan C.lane) }
    requires idle { (0 < (view_of seat.old.me).weight) × ((view_of seat.old.me).lane ≡ 0) }
    ensures same { seat.new.table_id ≡ seat.old.table_id }
    ensures lent { Lent C.lane seat.old.me result seat.new.me }
{
    shared.compare_exchange::<Lends<C>>(seat, turn, 0, 1)
}

/// Takes a lane out of its slot, where it is home. Its turn is the word that says so.
pub fn take_out<T: Load>(
    shared: &Shared<T>,
    seat: &mut Place<T>,
    turn: usize,
    lane_no: u32,
) -> Option<Lane<T>>
    requires table { (seat.old.table_id ≡ shared.now.table_id) × (turn < shared.now.table_id.words) }
    requires lane { (lane_no < shared.now.key.lanes) × (turn ≡ turn_at shared.now.key.plan lane_no) }
    requires idle { (0 < (view_of seat.old.me).weight) × ((view_of seat.old.me).lane ≡ 0) × (slots_out seat.old.me ≡ []) }
    ensures same { seat.new.table_id ≡ seat.old.table_id }
    ensures asked { IsAsked lane_no seat.old.me result seat.new.me }
{
    let found = lend_as::<T, Brand>(shared, seat, turn, lane_no);
    if found == 0 {
        shared.exchange(seat, lane_no as usize, None)
    } else {
        None
    }
}

fn give_as<T: Load, C: OfLane>(shared: &Shared<T>, seat: &mut Place<T>, turn: usize, lane_no: u32)
    requires table { (seat.old.table_id ≡ shared.now.table_id) × (turn < shared.now.table_id.words) × (turn ≡ turn_at shared.now.key.plan C.lane) }
    requires has_lane { (0 < (view_of seat.old.me).weight) × ((view_of seat.old.me).lane ≡ C.lane + 1) × (slots_out seat.old.me ≡ (C.lane, Some (lane_data (view_of seat.old.me).plan ((view_of seat.old.me).lent ++ C.shards))) ∷ []) }
    requires further { AreInHand C.shards (view_of seat.old.me).mine }
    ensures same { seat.new.table_id ≡ seat.old.table_id }
    ensures given { Given C.lane C.shards seat.old.me seat.new.me }
{
    shared.store::<Gives<C>>(seat, turn, 0);
}

/// Puts a lane back into its slot, and then frees its turn.
pub fn bring_home<T: Load>(
    shared: &Shared<T>,
    seat: &mut Place<T>,
    turn: usize,
    lane_no: u32,
    lane: Lane<T>,
)
    requires table { (seat.old.table_id ≡ shared.now.table_id) × (turn < shared.now.table_id.words) × (turn ≡ turn_at shared.now.key.plan lane_no) }
    requires has_lane { (0 < (view_of seat.old.me).weight) × ((view_of seat.old.me).lane ≡ lane_no + 1) × (slots_out seat.old.me ≡ (lane_no, None) ∷ []) }
    requires lane { lane ≡ lane_data (view_of seat.old.me).plan ((view_of seat.old.me).lent ++ drop (length (view_of seat.old.me).lent) lane.shards) }
    requires further { AreInHand (drop (length (view_of seat.old.me).lent) lane.shards) (view_of seat.old.me).mine }
    ensures same { seat.new.table_id ≡ seat.old.table_id }
    ensures given { Given lane_no (drop (length (view_of seat.old.me).lent) lane.shards) seat.old.me seat.new.me }
{
    shared.exchange(seat, lane_no as usize, Some(lane));
    give_as::<T, Brand>(shared, seat, turn, lane_no);
}

/// The lanes, each as what lies in its slot.
pub fn slots_of<T: Load>(
    alloc: Global,
    lanes: Vec<Lane<T>>,
) -> Result<Vec<Option<Lane<T>>>, NoMemory>
    ensures value { IfOk result (λ slots. slots.items ≡ map (λ lane. Some lane) lanes.items) }
{
    let mut slots = Vec::with_capacity(alloc, lanes.len())?;
    for lane in lanes {
        slots.push(Some(lane))?;
    }
    Ok(slots)
}

/// Takes the lanes of a closed table, all of which are home.
pub fn take_lanes<T: Load>(closed: &mut Closed<Option<Lane<T>>, Global>, lanes: &mut Vec<Lane<T>>)
    requires full { IsFull closed.old.slots }
    requires home { (all : List LaneData) × (slots_items closed.old.slots ≡ map (λ lane. Some lane) all) }
    requires room { (vec_len lanes.old ≡ 0) × (slots_len closed.old.slots ≤ vec_capacity lanes.old) }
    ensures value { map (λ lane. Some lane) lanes.new.items ≡ slots_items closed.old.slots }
    ensures taken { (closed.new.words ≡ closed.old.words) × ((k : ℕ) → k < slots_len closed.new.slots → slice_index_or (slots_filled closed.new.slots) k false ≡ false) }
{
    for i in 0..closed.slot_count() {
        if let Some(lane) = closed.take(i) {
            lanes.push_reserved(lane);
        }
    }
}
