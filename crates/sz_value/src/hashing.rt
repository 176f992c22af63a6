//! Rust's hash of values.
ghost use Rattle.std.specs.Prelude.{◌≡◌, ◌++◌};
ghost use Rattle.std.specs.List.{fold};
ghost use Rattle.sz_value.specs.Data.{data_of, entries_of};
ghost use Rattle.sz_value.specs.Hashing.{hash_writes, data_writes, entries_writes, equal_values_hash_alike};
ghost use Rattle.sz_value.specs.Seen.{seen};

use crate::ordering::kind_of;
use crate::value::{List, Pair, Pairs, Value};
use std::hash::{Hash, Hasher};

impl Hash for Value {
    ghost hash_input = { λ value. hash_writes (seen value) };

    ghost respects_eq = { equal_values_hash_alike };

    fn hash<H: Hasher>(&self, state: &mut H) {
        feed(self, state);
    }
}

// Feeds the number of the value's kind, and then what is in it.
#[cycle(hash)]
fn feed<H: Hasher>(value: &Value, state: &mut H)
    ensures value { state.new ≡ fold H.write state.old (hash_writes (seen value.now)) }
{
    kind_of(value).hash(state);
    match value {
        Value::Bool(truth) => truth.hash(state),
        Value::Int(number) => number.hash(state),
        Value::Time(number) => number.hash(state),
        Value::Str(text) => text.as_str().hash(state),
        Value::Bytes(bytes) => bytes.as_slice().hash(state),
        Value::Array(list) => feed_list(list, state),
        Value::Tuple(list) => feed_list(list, state),
        Value::Map(pairs) => feed_pairs(pairs, state),
    }
}

// Feeds each part, and 8 at the end.
#[cycle(hash)]
fn feed_list<H: Hasher>(list: &List, state: &mut H)
    ensures value { state.new ≡ fold H.write state.old (data_writes (data_of list.now)) }
{
    for value in &list.values {
        feed(value, state);
    }
    8u8.hash(state);
}

// Feeds each key and its value, and 8 at the end.
#[cycle(hash)]
#[tactic(auto, using(crate::proofs::PlaceLemmas::pair_fewer))]
fn feed_pairs<H: Hasher>(pairs: &Pairs, state: &mut H)
    ensures value { state.new ≡ fold H.write state.old (entries_writes (entries_of pairs.now)) }
{
    for place in 0..pairs.len() {
        feed_pair(pairs.pair(place), state);
    }
    8u8.hash(state);
}

// Feeds the key and then the value.
#[cycle(hash)]
fn feed_pair<H: Hasher>(pair: &Pair, state: &mut H)
    ensures value { state.new ≡ fold H.write state.old (hash_writes (seen pair.now.key) ++ hash_writes (seen pair.now.value)) }
{
    feed(&pair.key, state);
    feed(&pair.value, state);
}
