//! The functions that each program has.
ghost use Rattle.std.specs.Prelude.{◌≡◌, ◌<◌, ◌^◌, pos, length, IfOk, is_some};
ghost use Rattle.std.specs.Map.{keys_of};
ghost use Rattle.sz_value.specs.Maps.{value_at};
ghost use Rattle.sz_value.specs.Seen.{seen_slot};
ghost use Rattle.sz_value.specs.declared.value.Value.TheVariants.{Int};
ghost use Rattle.sz_value.specs.declared.slots.Slot.TheVariants.{Defined};
ghost use Rattle.sz_builtin.specs.Predeclared.{len, keys, haskey};
ghost use Rattle.sz_builtin.specs.Views.{seen_view};

use crate::characters::letters_count;
use crate::view::{Kind, View};
use std::alloc::Global;
use sz_value::{List, NoMemory, Pairs, Slot, Value, copy};

// The number of characters, bytes, elements or pairs.
#[tactic(auto, using(crate::proofs::Parts::parts_back, crate::proofs::Parts::pairs_back))]
pub fn len(value: &View<'_>) -> Slot
    ensures value { seen_slot result ≡ len (seen_view value.now) }
{
    match value.kind() {
        Kind::Str(text) => count(letters_count(&text)),
        Kind::Bytes(octets) => count(octets.len()),
        Kind::Array(list) => count(list_len(list)),
        Kind::Map(pairs) => count(pairs.len()),
        _ => Slot::Undefined,
    }
}

// The number of values of a list.
fn list_len(list: &List) -> usize
    ensures value { result ≡ length list.now }
    ensures small { result < 2 ^ 63 }
{
    list.as_slice().len()
}

// A number of elements as a value.
fn count(count: usize) -> Slot
    requires { count < 2 ^ 63 }
    ensures value { result ≡ Defined (Int (pos count)) }
{
    Slot::Defined(Value::Int(count as i64))
}

// The keys of a map.
#[tactic(auto, using(crate::proofs::Parts::pairs_back))]
pub fn keys(alloc: Global, value: &View<'_>) -> Result<Slot, NoMemory>
    ensures value { IfOk result (λ slot. seen_slot slot ≡ keys (seen_view value.now)) }
{
    match value.kind() {
        Kind::Map(pairs) => Ok(Slot::Defined(Value::Array(copied_keys(alloc, pairs)?))),
        _ => Ok(Slot::Undefined),
    }
}

// Copies of the keys of the pairs.
fn copied_keys(alloc: Global, pairs: &Pairs) -> Result<List, NoMemory>
    ensures value { IfOk result (λ list. list ≡ keys_of pairs.now) }
{
    let mut list = List::with_capacity(alloc, pairs.len())?;
    for place in 0..pairs.len() {
        list.push(copy(alloc, &pairs.pair(place).key)?)?;
    }
    Ok(list)
}

// Whether a map has a key.
#[tactic(auto, using(crate::proofs::Parts::pairs_back))]
pub fn haskey(alloc: Global, value: &View<'_>, key: &View<'_>) -> Result<Slot, NoMemory>
    ensures value { IfOk result (λ slot. seen_slot slot ≡ haskey (seen_view value.now) (seen_view key.now)) }
{
    match value.kind() {
        Kind::Map(pairs) => Ok(Slot::Defined(Value::Bool(has(alloc, pairs, key)?))),
        _ => Ok(Slot::Undefined),
    }
}

// Whether the pairs have a key.
fn has(alloc: Global, pairs: &Pairs, key: &View<'_>) -> Result<bool, NoMemory>
    ensures value { IfOk result (λ has. has ≡ is_some (value_at (seen_view key.now) pairs.now)) }
{
    let key = key.lent(alloc)?;
    Ok(pairs.get(key.value()).is_some())
}
