//! The value that bytes spell.
ghost use Rattle.std.specs.Prelude.{◌∷◌, map, IfOk, IsErrOf};
ghost use Rattle.sz_value.specs.Data.{Datum};
ghost use Rattle.sz_value.specs.Seen.{seen, seen_pair, seen_pairs};
ghost use Rattle.sz_flat.specs.declared.error.FlatError.TheVariants as errors;
ghost use Rattle.sz_flat.specs.Spelling.{Spells};
ghost use Rattle.sz_flat.specs.Lists.{SpellsAll, SpellNone};
ghost use Rattle.sz_flat.specs.Reading.{Reads, values, pair, all_of};

use crate::error::FlatError;
use crate::parts::{keys_rise, read_length, read_number, read_string};
use std::alloc::Global;
use sz_value::{List, Octets, Pair, Pairs, Text, Value};

/// The value that the bytes spell, all of them.
pub fn from_flat(alloc: Global, flat: &[u8]) -> Result<Value, FlatError>
    ensures value { IfOk result (λ found. Spells flat.now (seen found)) }
    ensures not_flat { IsErrOf result errors.NotFlat → (d : Datum) → Spells flat.now d → ⊥ }
{
    let (value, rest) = read_value(alloc, flat)?;
    if !rest.is_empty() {
        return Err(FlatError::NotFlat);
    }
    Ok(value)
}

// The values that the bytes spell, one after the other.
pub(crate) fn read_all(alloc: Global, flat: &[u8]) -> Result<List, FlatError>
    ensures value { IfOk result (λ list. SpellsAll flat.now list) }
    ensures not_flat { IsErrOf result errors.NotFlat → SpellNone flat.now }
{
    // A list of one value takes room for no others.
    let mut values = Vec::with_capacity(alloc, flat.len().min(1))?;
    let mut rest = flat;
    while !rest.is_empty() {
        let (value, after) = read_value(alloc, rest)?;
        values.push(value)?;
        rest = after;
    }
    Ok(List::from_vec(values))
}

// The value in front.
#[cycle(read)]
#[tactic(auto, using(crate::proofs::ReadingLemmas::other_kind))]
fn read_value(alloc: Global, flat: &[u8]) -> Result<(Value, &[u8]), FlatError>
    ensures value { Reads values (λ r. seen r.0) (λ r. r.1.now) flat.now result }
{
    let [kind, rest @ ..] = flat else {
        return Err(FlatError::NotFlat);
    };
    match *kind {
        1 => read_truth(rest),
        2 => read_int(rest),
        3 => read_time(rest),
        4 => read_text(alloc, rest),
        5 => read_octets(alloc, rest),
        6 => read_array(alloc, rest),
        7 => read_tuple(alloc, rest),
        8 => read_map(alloc, rest),
        _ => Err(FlatError::NotFlat),
    }
}

// A truth value, after the byte of its kind.
#[tactic(auto, using(crate::proofs::ReadingLemmas::no_truth, crate::proofs::ReadingLemmas::other_truth))]
fn read_truth(flat: &[u8]) -> Result<(Value, &[u8]), FlatError>
    ensures value { Reads values (λ r. seen r.0) (λ r. r.1.now) (1 ∷ flat.now) result }
{
    let [byte, rest @ ..] = flat else {
        return Err(FlatError::NotFlat);
    };
    match *byte {
        0 => Ok((Value::Bool(false), rest)),
        1 => Ok((Value::Bool(true), rest)),
        _ => Err(FlatError::NotFlat),
    }
}

// A number, after the byte of its kind.
fn read_int(flat: &[u8]) -> Result<(Value, &[u8]), FlatError>
    ensures value { Reads values (λ r. seen r.0) (λ r. r.1.now) (2 ∷ flat.now) result }
{
    let (number, rest) = read_number(flat)?;
    Ok((Value::Int(number), rest))
}

// A time, after the byte of its kind.
fn read_time(flat: &[u8]) -> Result<(Value, &[u8]), FlatError>
    ensures value { Reads values (λ r. seen r.0) (λ r. r.1.now) (3 ∷ flat.now) result }
{
    let (number, rest) = read_number(flat)?;
    Ok((Value::Time(number), rest))
}

// A text, after the byte of its kind.
fn read_text(alloc: Global, flat: &[u8]) -> Result<(Value, &[u8]), FlatError>
    ensures value { Reads values (λ r. seen r.0) (λ r. r.1.now) (4 ∷ flat.now) result }
{
    let (string, rest) = read_string(flat)?;
    match str::from_utf8(string) {
        Ok(text) => Ok((Value::Str(Text::new(alloc, text)?), rest)),
        Err(_) => Err(FlatError::NotFlat),
    }
}

// Bytes, after the byte of their kind.
fn read_octets(alloc: Global, flat: &[u8]) -> Result<(Value, &[u8]), FlatError>
    ensures value { Reads values (λ r. seen r.0) (λ r. r.1.now) (5 ∷ flat.now) result }
{
    let (string, rest) = read_string(flat)?;
    Ok((Value::Bytes(Octets::from_slice(alloc, string)?), rest))
}

// An array, after the byte of its kind.
#[cycle(read)]
fn read_array(alloc: Global, flat: &[u8]) -> Result<(Value, &[u8]), FlatError>
    ensures value { Reads values (λ r. seen r.0) (λ r. r.1.now) (6 ∷ flat.now) result }
{
    let (count, rest) = read_length(flat)?;
    let (parts, rest) = read_parts(alloc, count, rest)?;
    Ok((Value::Array(List::from_vec(parts)), rest))
}

// A tuple, after the byte of its kind.
#[cycle(read)]
fn read_tuple(alloc: Global, flat: &[u8]) -> Result<(Value, &[u8]), FlatError>
    ensures value { Reads values (λ r. seen r.0) (λ r. r.1.now) (7 ∷ flat.now) result }
{
    let (count, rest) = read_length(flat)?;
    let (parts, rest) = read_parts(alloc, count, rest)?;
    Ok((Value::Tuple(List::from_vec(parts)), rest))
}

// A map, after the byte of its kind.
#[cycle(read)]
fn read_map(alloc: Global, flat: &[u8]) -> Result<(Value, &[u8]), FlatError>
    ensures value { Reads values (λ r. seen r.0) (λ r. r.1.now) (8 ∷ flat.now) result }
{
    let (count, rest) = read_length(flat)?;
    let (pairs, rest) = read_pairs(alloc, count, rest)?;
    if !keys_rise(&pairs) {
        return Err(FlatError::NotFlat);
    }
    Ok((Value::Map(Pairs::from_pairs(alloc, pairs)?), rest))
}

// So many values.
#[cycle(read)]
fn read_parts(alloc: Global, count: u32, flat: &[u8]) -> Result<(Vec<Value>, &[u8]), FlatError>
    ensures value { Reads (all_of values count) (λ r. map seen r.0.items) (λ r. r.1.now) flat.now result }
{
    let mut values = Vec::new(alloc);
    let mut rest = flat;
    for _ in 0..count {
        let (value, after) = read_value(alloc, rest)?;
        values.push(value)?;
        rest = after;
    }
    Ok((values, rest))
}

// So many keys with their values.
#[cycle(read)]
fn read_pairs(alloc: Global, count: u32, flat: &[u8]) -> Result<(Vec<Pair>, &[u8]), FlatError>
    ensures value { Reads (all_of pair count) (λ r. seen_pairs r.0.items) (λ r. r.1.now) flat.now result }
{
    let mut pairs = Vec::new(alloc);
    let mut rest = flat;
    for _ in 0..count {
        let (pair, after) = read_pair(alloc, rest)?;
        pairs.push(pair)?;
        rest = after;
    }
    Ok((pairs, rest))
}

// A key and its value.
#[cycle(read)]
fn read_pair(alloc: Global, flat: &[u8]) -> Result<(Pair, &[u8]), FlatError>
    ensures value { Reads pair (λ r. seen_pair r.0) (λ r. r.1.now) flat.now result }
{
    let (key, rest) = read_value(alloc, flat)?;
    let (value, rest) = read_value(alloc, rest)?;
    Ok((Pair { key, value }, rest))
}
