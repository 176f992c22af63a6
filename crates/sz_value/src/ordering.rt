//! The order of values, and when two are equal.
ghost use Rattle.std.specs.Prelude.{◌≡◌, ◌↔◌, IsTrue};
ghost use Rattle.sz_value.specs.Data.{data_of, entries_of};
ghost use Rattle.sz_value.specs.Order.{compare, compare_data, compare_entries, compare_pairs, kind};
ghost use Rattle.sz_value.specs.Seen.{seen, seen_pair};

use crate::value::{List, Pair, Pairs, Value};
use std::cmp::Ordering;

/// Compares two values: numbers and times by number, false before true, texts and bytes by bytes, arrays and tuples
/// by the first part that differs, where a front comes first, and maps as the list of their pairs.
/// Values of different kinds stand in the order of `Value`'s variants.
#[cycle(order)]
pub fn order(a: &Value, b: &Value) -> Ordering
    ensures value { result ≡ compare (seen a.now) (seen b.now) }
{
    match (a, b) {
        (Value::Bool(a), Value::Bool(b)) => a.cmp(b),
        (Value::Int(a), Value::Int(b)) => a.cmp(b),
        (Value::Time(a), Value::Time(b)) => a.cmp(b),
        (Value::Str(a), Value::Str(b)) => a.as_str().cmp(b.as_str()),
        (Value::Bytes(a), Value::Bytes(b)) => a.as_slice().cmp(b.as_slice()),
        (Value::Array(a), Value::Array(b)) => order_lists(a, b),
        (Value::Tuple(a), Value::Tuple(b)) => order_lists(a, b),
        (Value::Map(a), Value::Map(b)) => order_maps(a, b),
        _ => kind_of(a).cmp(&kind_of(b)),
    }
}

/// Whether two values are the same.
pub fn equal(a: &Value, b: &Value) -> bool
    ensures value { IsTrue result ↔ (seen a.now ≡ seen b.now) }
{
    order(a, b).is_eq()
}

// Compares two lists by the first parts that differ; a front comes first.
#[cycle(order)]
#[tactic(auto, using(crate::proofs::OrderLemmas::list_end))]
fn order_lists(a: &List, b: &List) -> Ordering
    ensures value { result ≡ compare_data (data_of a.now) (data_of b.now) }
{
    for i in 0..a.values.len().min(b.values.len()) {
        let found = order(&a.values[i], &b.values[i]);
        if found.is_ne() {
            return found;
        }
    }
    a.values.len().cmp(&b.values.len())
}

// Compares two maps by the first pairs that differ; a front comes first.
#[cycle(order)]
#[tactic(auto, using(crate::proofs::OrderLemmas::pairs_end, crate::proofs::PlaceLemmas::pair_fewer))]
fn order_maps(a: &Pairs, b: &Pairs) -> Ordering
    ensures value { result ≡ compare_entries (entries_of a.now) (entries_of b.now) }
{
    for i in 0..a.len().min(b.len()) {
        let found = order_pairs(a.pair(i), b.pair(i));
        if found.is_ne() {
            return found;
        }
    }
    a.len().cmp(&b.len())
}

// Compares the keys, and where they are equal the values.
#[cycle(order)]
fn order_pairs(a: &Pair, b: &Pair) -> Ordering
    ensures value { result ≡ compare_pairs (seen_pair a.now) (seen_pair b.now) }
{
    match order(&a.key, &b.key) {
        Ordering::Equal => order(&a.value, &b.value),
        found => found,
    }
}

// The place of a value's variant in the order of the variants.
pub(crate) fn kind_of(value: &Value) -> u8
    ensures value { result ≡ kind (seen value.now) }
{
    match value {
        Value::Bool(_) => 0,
        Value::Int(_) => 1,
        Value::Time(_) => 2,
        Value::Str(_) => 3,
        Value::Bytes(_) => 4,
        Value::Array(_) => 5,
        Value::Tuple(_) => 6,
        Value::Map(_) => 7,
    }
}
