//! The calls of the pairs of a map.
ghost use Rattle.std.specs.Prelude.{◌≡◌, ◌==◌, ◌<◌, ◌^◌, [], length, slice_get, IfOk, IfErr, IfSome, IfNone, OnOk, OnErr, IsOk, IsSome, Some, None};
ghost use Rattle.std.specs.Option.{option_map};
ghost use Rattle.sz_value.specs.Seen.{seen, seen_pair, seen_pairs};
ghost use Rattle.sz_value.specs.Order.{KeysRise};
ghost use Rattle.sz_value.specs.Maps.{value_at, with_pair, with_pairs};
ghost use Rattle.sz_value.specs.Places.{IsPlaceOf};

use crate::NoMemory;
use crate::ordering::order;
use crate::run::put_in;
use crate::runs::{pair_at, place_in, put, replace, value_in};
use crate::value::{Pair, Pairs, Run, Value};
use std::alloc::Global;

// No more pairs than a list can have.
const MOST: usize = isize::MAX as usize;

impl Pairs {
    /// No pairs, which takes no memory. They keep the allocator for their calls.
    pub fn new(alloc: Global) -> Pairs
        ensures value { result ≡ [] }
    {
        Pairs {
            runs: Vec::new(alloc),
            count: 0,
        }
    }

    /// The pairs of a map from pairs in any order: of equal keys the last one stands. They are sorted once, so falling keys
    /// cost no more than rising ones.
    pub fn from_pairs(alloc: Global, pairs: Vec<Pair>) -> Result<Pairs, NoMemory>
        ensures value { IfOk result (λ made. made ≡ with_pairs [] (seen_pairs pairs.items)) }
    {
        Pairs::from_rising(alloc, gathered(alloc, sorted(pairs)?)?)
    }

    /// The pairs of a map from pairs whose keys rise. They stay where they lie.
    pub fn from_rising(alloc: Global, pairs: Vec<Pair>) -> Result<Pairs, NoMemory>
        requires rising { KeysRise (seen_pairs pairs.items) }
        ensures value { IfOk result (λ made. made ≡ seen_pairs pairs.items) }
    {
        let count = pairs.len();
        if count == 0 {
            return Ok(Pairs::new(alloc));
        }
        let mut runs = Vec::with_capacity(alloc, 1)?;
        runs.push(Run { pairs, end: count })?;
        Ok(Pairs { runs, count })
    }

    /// The number of pairs. Their keys are in ascending order.
    pub fn len(&self) -> usize
        ensures value { result ≡ length self.now }
        ensures rising { KeysRise self.now }
        ensures small { result < 2 ^ 63 }
    {
        self.count
    }

    /// Whether there are no pairs.
    pub fn is_empty(&self) -> bool
        ensures value { result ≡ (length self.now == 0) }
    {
        self.count == 0
    }

    /// The pair at a place.
    pub fn pair(&self, place: usize) -> &Pair
        requires within { place < length self.now }
        ensures value { slice_get self.now place ≡ Some (seen_pair result.now) }
    {
        pair_at(&self.runs, place)
    }

    /// The place of the pair with this key, if there is one.
    pub fn place_of(&self, key: &Value) -> Option<usize>
        ensures found { IfSome result (λ place. IsPlaceOf (seen key.now) place self.now) }
        ensures none { IfNone result (value_at (seen key.now) self.now ≡ None) }
    {
        place_in(&self.runs, key)
    }

    /// The value at a key, if the key is there.
    pub fn get(&self, key: &Value) -> Option<&Value>
        ensures value { option_map (λ found. seen found.now) result ≡ value_at (seen key.now) self.now }
    {
        value_in(&self.runs, key)
    }

    /// Puts the value at the key: in the stead of the value there, which is dropped, or as a new pair at its place in
    /// the order. Where there is no memory for a new pair the key and the value are dropped.
    pub fn insert(&mut self, key: Value, value: Value) -> Result<(), NoMemory>
        ensures ok { OnOk result (self.new ≡ with_pair (seen key) (seen value) self.old) }
        ensures err { OnErr result (self.new ≡ self.old) }

        // A key that is there already needs no memory.
        ensures room { IsSome (value_at (seen key) self.old) → IsOk result }
    {
        let added = put(&mut self.runs, key, value, MOST - self.count)?;
        self.count += added;
        Ok(())
    }

    /// Puts the value in the stead of that at the key, and gives that one back. Where the key isn't there the value
    /// itself is given back, as the error. It takes no memory.
    pub fn replace(&mut self, key: &Value, value: Value) -> Result<Value, Value>
        ensures ok { OnOk result (self.new ≡ with_pair (seen key.now) (seen value) self.old) }
        ensures found { IfOk result (λ old. value_at (seen key.now) self.old ≡ Some (seen old)) }

        ensures err { OnErr result (self.new ≡ self.old) }
        ensures none { IfErr result (λ given. (given ≡ value) × (value_at (seen key.now) self.old ≡ None)) }
    {
        replace(&mut self.runs, key, value)
    }
}

// The pairs in ascending order of their keys, those of one key in the order in which they came.
fn sorted(mut pairs: Vec<Pair>) -> Result<Vec<Pair>, NoMemory>
    ensures value { IfOk result (λ sorted. with_pairs [] (seen_pairs sorted.items) ≡ with_pairs [] (seen_pairs pairs.items)) }
{
    pairs.sort_by(|one, two| order(&one.key, &two.key))?;
    Ok(pairs)
}

// The pairs put in one after another, each at the end where their keys don't fall.
fn gathered(alloc: Global, pairs: Vec<Pair>) -> Result<Vec<Pair>, NoMemory>
    ensures value { IfOk result (λ made. seen_pairs made.items ≡ with_pairs [] (seen_pairs pairs.items)) }
    ensures rising { IfOk result (λ made. KeysRise (seen_pairs made.items)) }
{
    let mut made = Vec::with_capacity(alloc, pairs.len())?;
    for pair in pairs {
        put_in(&mut made, pair.key, pair.value, MOST)?;
    }
    Ok(made)
}
