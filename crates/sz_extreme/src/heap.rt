//! A heap of ranks with their values: the least ones, at most so many, with the greatest of them on top.
ghost use Rattle.std.specs.Prelude.{◌≡◌, ◌<◌, ◌≤◌, ◌+◌, ◌∷◌, ◌++◌, [], length, map, IsFalse, OnOk, OnErr};
ghost use Rattle.std.specs.BinaryHeap.{IsHeap, heap_items, heap_len, heap_capacity};
ghost use Rattle.sz_value.specs.Seen.{seen};
ghost use Rattle.std.specs.Ordering.{is_lt};
ghost use Rattle.sz_extreme.specs.Ranks.{by_rank, rank_order, seen_rank, HoldsLeast};

use std::alloc::Global;
use std::collections::BinaryHeap;
use sz_tabs::NoMemory;
use sz_value::{Value, copy};

/// Ranks with their values.
pub(crate) type Heap = BinaryHeap<(i64, Value)>;

// Puts a copy of the value with its rank among those kept, if it is among the least `limit` ones.
pub(crate) fn hold(
    alloc: Global,
    heap: &mut Heap,
    limit: usize,
    rank: i64,
    value: &Value,
) -> Result<(), NoMemory>
    requires heap { IsHeap rank_order (heap_items heap.old) }
    requires few { length (heap_items heap.old) ≤ limit }
    ensures heap { IsHeap rank_order (heap_items heap.new) }
    ensures few { length (heap_items heap.new) ≤ limit }
    ensures ok { OnOk result (HoldsLeast limit (map seen_rank (heap_items heap.old) ++ (rank, seen value.now) ∷ []) (map seen_rank (heap_items heap.new))) }
    ensures err { OnErr result (heap_items heap.new ≡ heap_items heap.old) }
    ensures capacity { heap_capacity heap.old ≤ heap_capacity heap.new }
{
    if takes(heap, limit, rank, value) {
        let value = copy(alloc, value)?;
        heap.reserve(1)?;
        put(heap, limit, (rank, value));
    }
    Ok(())
}

// Whether the value with its rank would be among the least `limit` ones.
fn takes(heap: &Heap, limit: usize, rank: i64, value: &Value) -> bool
    requires heap { IsHeap rank_order (heap_items heap.now) }
    requires few { length (heap_items heap.now) ≤ limit }
    ensures not { IsFalse result → HoldsLeast limit (map seen_rank (heap_items heap.now) ++ (rank, seen value.now) ∷ []) (map seen_rank (heap_items heap.now)) }
{
    if heap.len() < limit {
        return true;
    }
    match heap.peek() {
        Some(worst) => is_before(rank, value, worst),
        None => false,
    }
}

// Whether the value with its rank comes before the other.
fn is_before(rank: i64, value: &Value, other: &(i64, Value)) -> bool
    ensures value { result ≡ is_lt (by_rank (rank, seen value.now) (seen_rank other.now)) }
{
    rank.cmp(&other.0).then(value.cmp(&other.1)).is_lt()
}

// Puts the value with its rank among those kept, of which only the least `limit` ones stay. There is room for one more.
pub(crate) fn put(heap: &mut Heap, limit: usize, ranked: (i64, Value))
    requires heap { IsHeap rank_order (heap_items heap.old) }
    requires room { heap_len heap.old < heap_capacity heap.old }
    ensures heap { IsHeap rank_order (heap_items heap.new) }
    ensures few { length (heap_items heap.new) ≤ limit }
    ensures value { HoldsLeast limit (map seen_rank (heap_items heap.old) ++ seen_rank ranked ∷ []) (map seen_rank (heap_items heap.new)) }
    ensures capacity { heap_capacity heap.old ≤ heap_capacity heap.new }
{
    let _ = heap.push(ranked);
    trim(heap, limit);
}

// Moves the other values with their ranks to those kept, of which only the least `limit` ones stay. There is room for them.
pub(crate) fn put_all(heap: &mut Heap, limit: usize, others: &mut Heap)
    requires heap { IsHeap rank_order (heap_items heap.old) }
    requires room { heap_len heap.old + heap_len others.old ≤ heap_capacity heap.old }
    ensures heap { IsHeap rank_order (heap_items heap.new) }
    ensures few { length (heap_items heap.new) ≤ limit }
    ensures value { HoldsLeast limit (map seen_rank (heap_items heap.old) ++ map seen_rank (heap_items others.old)) (map seen_rank (heap_items heap.new)) }
    ensures capacity { heap_capacity heap.old ≤ heap_capacity heap.new }
{
    let _ = heap.append(others);
    trim(heap, limit);
}

// Drops the greatest of those kept until there are no more than the limit.
fn trim(heap: &mut Heap, limit: usize)
    requires heap { IsHeap rank_order (heap_items heap.old) }
    ensures heap { IsHeap rank_order (heap_items heap.new) }
    ensures few { length (heap_items heap.new) ≤ limit }
    ensures value { HoldsLeast limit (map seen_rank (heap_items heap.old)) (map seen_rank (heap_items heap.new)) }
    ensures capacity { heap_capacity heap.new ≡ heap_capacity heap.old }
{
    while heap.len() > limit {
        heap.pop();
    }
}
