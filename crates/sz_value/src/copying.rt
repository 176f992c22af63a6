//! Copies of values.
ghost use Rattle.std.specs.Prelude.{◌≡◌, IfOk};
ghost use Rattle.sz_value.specs.Seen.{seen, seen_pair};

use crate::NoMemory;
use crate::octets::Octets;
use crate::value::{List, Pair, Pairs, Value};
use std::alloc::Global;

/// A copy of the value.
#[cycle(copy)]
pub fn copy(alloc: Global, value: &Value) -> Result<Value, NoMemory>
    ensures value { IfOk result (λ made. seen made ≡ seen value.now) }
{
    match value {
        Value::Bool(truth) => Ok(Value::Bool(*truth)),
        Value::Int(number) => Ok(Value::Int(*number)),
        Value::Time(number) => Ok(Value::Time(*number)),
        Value::Str(text) => Ok(Value::Str(text.copy(alloc)?)),
        Value::Bytes(bytes) => Ok(Value::Bytes(Octets::from_slice(alloc, bytes.as_slice())?)),
        Value::Array(list) => Ok(Value::Array(copy_list(alloc, list)?)),
        Value::Tuple(list) => Ok(Value::Tuple(copy_list(alloc, list)?)),
        Value::Map(pairs) => Ok(Value::Map(copy_pairs(alloc, pairs)?)),
    }
}

/// A copy of the list.
#[cycle(copy)]
pub fn copy_list(alloc: Global, list: &List) -> Result<List, NoMemory>
    ensures value { IfOk result (λ made. made ≡ list.now) }
{
    let mut made = Vec::with_capacity(alloc, list.values.len())?;
    for value in &list.values {
        made.push(copy(alloc, value)?)?;
    }
    Ok(List { values: made })
}

/// A copy of the pairs.
#[cycle(copy)]
#[tactic(auto, using(crate::proofs::PlaceLemmas::pair_fewer))]
pub fn copy_pairs(alloc: Global, pairs: &Pairs) -> Result<Pairs, NoMemory>
    ensures value { IfOk result (λ made. made ≡ pairs.now) }
{
    let count = pairs.len();
    let mut made = Vec::with_capacity(alloc, count)?;
    for place in 0..count {
        made.push(copy_pair(alloc, pairs.pair(place))?)?;
    }
    Pairs::from_rising(alloc, made)
}

// A copy of a key and its value.
#[cycle(copy)]
fn copy_pair(alloc: Global, pair: &Pair) -> Result<Pair, NoMemory>
    ensures value { IfOk result (λ made. seen_pair made ≡ seen_pair pair.now) }
{
    let key = copy(alloc, &pair.key)?;
    let value = copy(alloc, &pair.value)?;
    Ok(Pair { key, value })
}
