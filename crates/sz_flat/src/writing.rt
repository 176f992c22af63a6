//! The bytes that spell a value.
ghost use Rattle.std.specs.Prelude.{◌≡◌, ◌∷◌, ◌++◌, length, map, [], All, IfOk, OnOk, OnErr};
ghost use Rattle.sz_value.specs.Data as facts;
ghost use Rattle.sz_value.specs.Data.{data_of, entries_of};
ghost use Rattle.sz_value.specs.Order.{KeysRise};
ghost use Rattle.sz_value.specs.Seen.{seen};
ghost use Rattle.sz_flat.specs.Spelling.{Spells, spelling, spelled_parts, spelled_pairs, length_bytes, number_bytes, counted_bytes, IsShort, HasShortLengths, HaveShortLengths, PairsHaveShortLengths, HaveSpellings, PairsHaveSpellings};
ghost use Rattle.sz_flat.specs.Lists.{SpellsAll};
ghost use Rattle.sz_flat.specs.Reading.{Adds, values, pair, all_of};

use crate::NoMemory;
use std::alloc::Global;
use sz_value::{List, Octets, Pairs, Value};

/// The bytes that spell the value: one for its kind, and after it its number, its bytes or its parts. Numbers and lengths have
/// their high byte first.
pub fn to_flat(alloc: Global, value: &Value) -> Result<Octets, NoMemory>
    requires short { HasShortLengths (seen value.now) }
    ensures value { IfOk result (λ flat. Spells flat (seen value.now)) }
{
    let mut out = Vec::new(alloc);
    spell(value, &mut out)?;
    Ok(Octets::from_vec(out))
}

// Spells the values in the stead of what the bytes were; where there is no memory, there are no bytes.
pub(crate) fn spell_anew(values: &List, bytes: &mut Vec<u8>) -> Result<(), NoMemory>
    requires short { HaveShortLengths (data_of values.now) }
    ensures ok { OnOk result (SpellsAll bytes.new.items values.now) }
    ensures err { OnErr result (bytes.new.items ≡ []) }
{
    bytes.clear();
    match spell_parts(values.as_slice(), bytes) {
        Ok(()) => Ok(()),
        Err(error) => {
            bytes.clear();
            Err(error)
        }
    }
}

// Appends the spelling of the value.
#[cycle(spell)]
fn spell(value: &Value, out: &mut Vec<u8>) -> Result<(), NoMemory>
    requires short { HasShortLengths (seen value.now) }
    ensures value { OnOk result (Adds values out.old.items out.new.items (seen value.now)) }
{
    match value {
        Value::Bool(truth) => spell_truth(*truth, out),
        Value::Int(number) => spell_number(2, *number, out),
        Value::Time(number) => spell_number(3, *number, out),
        Value::Str(text) => spell_bytes(4, text.as_str().as_bytes(), out),
        Value::Bytes(bytes) => spell_bytes(5, bytes.as_slice(), out),
        Value::Array(list) => spell_list(list, 6, out),
        Value::Tuple(list) => spell_list(list, 7, out),
        Value::Map(pairs) => spell_map(pairs, out),
    }
}

// Appends the byte of the kind, the number of the parts, and the spelling of each.
#[cycle(spell)]
fn spell_list(list: &List, kind: u8, out: &mut Vec<u8>) -> Result<(), NoMemory>
    requires few { IsShort (length list.now) }
    requires short { HaveShortLengths (data_of list.now) }
    ensures spelled { OnOk result (HaveSpellings (data_of list.now)) }
    ensures value { OnOk result (out.new.items ≡ out.old.items ++ (kind ∷ length_bytes (length list.now) ++ spelled_parts (data_of list.now))) }
{
    spell_length(kind, list.len(), out)?;
    spell_parts(list.as_slice(), out)
}

// Appends the byte of the kind, the number of the pairs, and the spelling of each key and its value.
#[cycle(spell)]
fn spell_map(pairs: &Pairs, out: &mut Vec<u8>) -> Result<(), NoMemory>
    requires few { IsShort (length pairs.now) }
    requires short { PairsHaveShortLengths (entries_of pairs.now) }
    ensures rising { OnOk result (KeysRise pairs.now) }
    ensures spelled { OnOk result (PairsHaveSpellings (entries_of pairs.now)) }
    ensures value { OnOk result (out.new.items ≡ out.old.items ++ (8 ∷ length_bytes (length pairs.now) ++ spelled_pairs (entries_of pairs.now))) }
{
    spell_length(8, pairs.len(), out)?;
    spell_pairs(pairs, out)
}

// Appends the spelling of each part.
#[cycle(spell)]
pub(crate) fn spell_parts(parts: &[Value], out: &mut Vec<u8>) -> Result<(), NoMemory>
    requires short { All (λ v. HasShortLengths (seen v)) parts.now }
    ensures value { OnOk result (Adds (all_of values (length parts.now)) out.old.items out.new.items (map seen parts.now)) }
{
    for part in parts {
        spell(part, out)?;
    }
    Ok(())
}

// Appends the spelling of each key and its value.
#[cycle(spell)]
fn spell_pairs(pairs: &Pairs, out: &mut Vec<u8>) -> Result<(), NoMemory>
    requires short { PairsHaveShortLengths (entries_of pairs.now) }
    ensures value { OnOk result (Adds (all_of pair (length pairs.now)) out.old.items out.new.items pairs.now) }
{
    for place in 0..pairs.len() {
        let pair = pairs.pair(place);
        spell(&pair.key, out)?;
        spell(&pair.value, out)?;
    }
    Ok(())
}

// Appends the bytes of a truth value.
fn spell_truth(truth: bool, out: &mut Vec<u8>) -> Result<(), NoMemory>
    ensures value { OnOk result (out.new.items ≡ out.old.items ++ spelling (facts.truth truth)) }
{
    out.push(1)?;
    out.push(if truth { 1 } else { 0 })?;
    Ok(())
}

// Appends the byte of the kind and the bytes of the number.
fn spell_number(kind: u8, number: i64, out: &mut Vec<u8>) -> Result<(), NoMemory>
    ensures value { OnOk result (out.new.items ≡ out.old.items ++ kind ∷ number_bytes number) }
{
    out.push(kind)?;
    out.extend_from_slice(&number.to_be_bytes())?;
    Ok(())
}

// Appends the byte of the kind, the number of the bytes, and the bytes.
fn spell_bytes(kind: u8, bytes: &[u8], out: &mut Vec<u8>) -> Result<(), NoMemory>
    requires few { IsShort (length bytes.now) }
    ensures value { OnOk result (out.new.items ≡ out.old.items ++ kind ∷ counted_bytes bytes.now) }
{
    spell_length(kind, bytes.len(), out)?;
    out.extend_from_slice(bytes)?;
    Ok(())
}

// Appends the byte of the kind and the bytes of a length.
fn spell_length(kind: u8, length: usize, out: &mut Vec<u8>) -> Result<(), NoMemory>
    requires few { IsShort length }
    ensures value { OnOk result (out.new.items ≡ out.old.items ++ kind ∷ length_bytes length) }
{
    out.push(kind)?;
    out.extend_from_slice(&(length as u32).to_be_bytes())?;
    Ok(())
}
