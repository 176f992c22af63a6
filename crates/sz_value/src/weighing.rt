//! What a value weighs.
ghost use Rattle.std.specs.Prelude.{◌≡◌, ◌-◌, ◌^◌, min};
ghost use Rattle.sz_value.specs.Data.{data_of, entries_of};
ghost use Rattle.sz_value.specs.Seen.{seen};
ghost use Rattle.sz_value.specs.Weight.{weight_of, data_weight, entries_weight};

use crate::value::{List, Pairs, Value};

/// The weight of a value: 1 for a number, a time or a truth value, 1 plus the number of bytes for a text or a byte
/// string, and 1 plus the weights of the parts for an array, a tuple or a map, whose parts are its keys and its values.
/// It stays at 2^64 - 1.
#[cycle(weight)]
pub fn weight(value: &Value) -> u64
    ensures value { result ≡ weight_of (seen value.now) }
{
    match value {
        Value::Bool(_) | Value::Int(_) | Value::Time(_) => 1,
        Value::Str(text) => (text.len() as u64).saturating_add(1),
        Value::Bytes(bytes) => (bytes.len() as u64).saturating_add(1),
        Value::Array(list) => weight_of_list(list).saturating_add(1),
        Value::Tuple(list) => weight_of_list(list).saturating_add(1),
        Value::Map(pairs) => weight_of_pairs(pairs).saturating_add(1),
    }
}

// The weights of all parts.
#[cycle(weight)]
#[tactic(auto, using(crate::proofs::WeightLemmas::list_weighed))]
fn weight_of_list(list: &List) -> u64
    ensures value { result ≡ min (data_weight (data_of list.now)) (2 ^ 64 - 1) }
{
    let mut total: u64 = 0;
    for value in &list.values {
        total = total.saturating_add(weight(value));
    }
    total
}

// The weights of all keys and values.
#[cycle(weight)]
#[tactic(auto, using(crate::proofs::WeightLemmas::pairs_weighed, crate::proofs::WeightLemmas::pairs_left, crate::proofs::PlaceLemmas::key_fewer, crate::proofs::PlaceLemmas::value_fewer))]
fn weight_of_pairs(pairs: &Pairs) -> u64
    ensures value { result ≡ min (entries_weight (entries_of pairs.now)) (2 ^ 64 - 1) }
{
    let mut total: u64 = 0;
    for place in 0..pairs.len() {
        let pair = pairs.pair(place);
        let both = weight(&pair.key).saturating_add(weight(&pair.value));
        total = total.saturating_add(both);
    }
    total
}
