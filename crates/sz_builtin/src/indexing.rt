//! Elements of arrays, strings, byte strings and maps.
ghost use Rattle.std.specs.Prelude.{◌≡◌, IfOk, map, chars, option_map};
ghost use Rattle.sz_value.specs.Seen.{seen, seen_slot};
ghost use Rattle.sz_value.specs.Maps.{value_at};
ghost use Rattle.sz_builtin.specs.Places.{index, at_place, code};
ghost use Rattle.sz_builtin.specs.Letters.{letters_of};
ghost use Rattle.sz_builtin.specs.Views.{seen_view};

use crate::characters::character_at;
use crate::letters::Letters;
use crate::view::{Kind, View};
use std::alloc::Global;
use sz_value::{NoMemory, Pairs, Slot, Text, Value, copy};

/// The element of an array, the code of a character of a string, or the byte of a byte string at a place counted
/// from 0, or the value of a map at a key.
///
/// The slot is undefined where the place is below 0 or not below the length, where the key isn't there, and where
/// the values are of other kinds.
pub fn index(alloc: Global, base: &Value, at: &Value) -> Result<Slot, NoMemory>
    ensures value { IfOk result (λ slot. seen_slot slot ≡ index (seen base.now) (seen at.now)) }
{
    index_of_views(alloc, &View::Whole(base), &View::Whole(at))
}

/// The same of views.
#[tactic(auto, using(crate::proofs::Parts::parts_back, crate::proofs::Parts::pairs_back))]
pub fn index_of_views(alloc: Global, base: &View<'_>, at: &View<'_>) -> Result<Slot, NoMemory>
    ensures value { IfOk result (λ slot. seen_slot slot ≡ index (seen_view base.now) (seen_view at.now)) }
{
    match (base.kind(), at.kind()) {
        (Kind::Array(list), Kind::Int(place)) => element(alloc, list.as_slice(), place),
        (Kind::Str(text), Kind::Int(place)) => Ok(code_at(text, place)),
        (Kind::Bytes(octets), Kind::Int(place)) => Ok(byte(octets, place)),
        (Kind::Map(pairs), _) => value_of(alloc, pairs, at),
        _ => Ok(Slot::Undefined),
    }
}

// A copy of the value at a place.
fn element(alloc: Global, values: &[Value], place: i64) -> Result<Slot, NoMemory>
    ensures value { IfOk result (λ slot. seen_slot slot ≡ at_place (map seen values.now) place) }
{
    if place < 0 {
        return Ok(Slot::Undefined);
    }
    match values.get(place as usize) {
        Some(value) => Ok(Slot::Defined(copy(alloc, value)?)),
        None => Ok(Slot::Undefined),
    }
}

// A copy of the value at a key.
fn value_of(alloc: Global, pairs: &Pairs, key: &View<'_>) -> Result<Slot, NoMemory>
    ensures value { IfOk result (λ slot. seen_slot slot ≡ value_at (seen_view key.now) pairs.now) }
{
    let key = key.lent(alloc)?;
    match pairs.get(key.value()) {
        Some(value) => Ok(Slot::Defined(copy(alloc, value)?)),
        None => Ok(Slot::Undefined),
    }
}

// The code of the character at a place, which in an ASCII text is the byte there.
#[tactic(auto, using(crate::proofs::CharacterLemmas::ascii_characters))]
fn code_at(text: Letters<'_>, place: i64) -> Slot
    ensures value { seen_slot result ≡ option_map code (at_place (chars (letters_of text.entry)) place) }
{
    match text {
        Letters::Kept(text) => code_in(text, place),
        Letters::Ascii(text) => byte(text.octets, place),
    }
}

// The same of a text that a value has.
#[tactic(auto, using(crate::proofs::CharacterLemmas::ascii_characters))]
fn code_in(text: &Text, place: i64) -> Slot
    ensures value { seen_slot result ≡ option_map code (at_place (chars text.now) place) }
{
    if text.is_ascii() {
        byte(text.as_str().as_bytes(), place)
    } else {
        character(text, place)
    }
}

// The code of the character at a place.
fn character(text: &Text, place: i64) -> Slot
    ensures value { seen_slot result ≡ option_map code (at_place (chars text.now) place) }
{
    if place < 0 {
        return Slot::Undefined;
    }
    match character_at(text, place as u64) {
        Some(character) => Slot::Defined(Value::Int(i64::from(u32::from(character)))),
        None => Slot::Undefined,
    }
}

// The byte at a place.
fn byte(bytes: &[u8], place: i64) -> Slot
    ensures value { seen_slot result ≡ option_map code (at_place bytes.now place) }
{
    if place < 0 {
        return Slot::Undefined;
    }
    match bytes.get(place as usize) {
        Some(byte) => Slot::Defined(Value::Int(i64::from(*byte))),
        None => Slot::Undefined,
    }
}
