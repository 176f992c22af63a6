//! Parts of strings, byte strings and arrays.
ghost use Rattle.std.specs.Prelude.{◌≡◌, ◌+◌, ◌≤◌, nat_le, ◌∷◌, IsTrue, IfOk, Some, None, IfSome, IfNone, map, chars, encode_utf8_all, option_map, length, take, drop};
ghost use Rattle.sz_value.specs.Data.{str, bytes, array, data_of};
ghost use Rattle.sz_value.specs.Seen.{seen, seen_slot};
ghost use Rattle.sz_value.specs.Texts.{is_ascii};
ghost use Rattle.sz_builtin.specs.Places.{slice, part, span, cut};
ghost use Rattle.sz_builtin.specs.Letters.{letters_of};
ghost use Rattle.sz_builtin.specs.Views.{seen_view};

use crate::ascii::Ascii;
use crate::characters::characters_from;
use crate::letters::Letters;
use crate::view::{Kind, View};
use std::alloc::Global;
use sz_value::{List, NoMemory, Octets, Slot, Text, Value, copy};

/// The elements from the place `from` up to the place `to` of a string, a byte string or an array. Places are counted
/// from 0, those of a string in characters.
///
/// The slot is undefined unless `0 <= from <= to`, and `to` is at most the length, and where the value is of another
/// kind.
pub fn slice(alloc: Global, base: &Value, from: i64, to: i64) -> Result<Slot, NoMemory>
    ensures value { IfOk result (λ slot. seen_slot slot ≡ slice (seen base.now) from to) }
{
    slice_of_view(alloc, &View::Whole(base), from, to)
}

/// The same of a view.
pub fn slice_of_view(alloc: Global, base: &View<'_>, from: i64, to: i64) -> Result<Slot, NoMemory>
    ensures value { IfOk result (λ slot. seen_slot slot ≡ slice (seen_view base.now) from to) }
{
    match span(from, to) {
        Some((skip, count)) => part(alloc, base, skip, count),
        None => Ok(Slot::Undefined),
    }
}

/// How many bytes the part of these bytes from the place `from` up to the place `to` passes over, and how many it has, so that a
/// caller can look at the part where it lies.
///
/// `None` where the slice is undefined.
pub fn bytes_between(octets: &[u8], from: i64, to: i64) -> Option<(usize, usize)>
    ensures some { IfSome result (λ p. slice (bytes octets.now) from to ≡ Some (bytes (take p.1 (drop p.0 octets.now)))) }
    ensures within { IfSome result (λ p. p.0 + p.1 ≤ length octets.now) }
    ensures none { IfNone result (slice (bytes octets.now) from to ≡ None) }
{
    match span(from, to) {
        Some((skip, count)) if fits(skip, count, octets.len()) => {
            Some((skip as usize, count as usize))
        }
        _ => None,
    }
}

/// The same of a text of ASCII, each of whose characters is a byte.
#[tactic(auto, using(crate::proofs::CharacterLemmas::text_slice, crate::proofs::CharacterLemmas::no_text_slice))]
pub fn text_between(text: &Ascii<'_>, from: i64, to: i64) -> Option<(usize, usize)>
    ensures some { IfSome result (λ p.
        slice (str text.now.octets.now) from to ≡ Some (str (take p.1 (drop p.0 text.now.octets.now)))) }
    ensures within { IfSome result (λ p. p.0 + p.1 ≤ length text.now.octets.now) }
    ensures none { IfNone result (slice (str text.now.octets.now) from to ≡ None) }
{
    match bytes_between(text.octets, from, to) {
        Some((skip, count)) => Some((skip, count)),
        None => None,
    }
}

// How many elements the slice passes over and how many it takes.
fn span(from: i64, to: i64) -> Option<(u64, u64)>
    ensures value { result ≡ span from to }
{
    if from < 0 || to < from {
        None
    } else {
        Some((from as u64, (to - from) as u64))
    }
}

// The `count` elements after the first `skip`.
#[tactic(auto, using(crate::proofs::Parts::parts_back))]
fn part(alloc: Global, base: &View<'_>, skip: u64, count: u64) -> Result<Slot, NoMemory>
    ensures value { IfOk result (λ slot. seen_slot slot ≡ part (seen_view base.now) (skip, count)) }
{
    match base.kind() {
        Kind::Str(text) => part_of_letters(alloc, text, skip, count),
        Kind::Bytes(octets) => part_of_bytes(alloc, octets, skip, count),
        Kind::Array(list) => part_of_list(alloc, list.as_slice(), skip, count),
        _ => Ok(Slot::Undefined),
    }
}

// Characters of a text.
#[tactic(auto, using(crate::proofs::CharacterLemmas::ascii_part_is))]
fn part_of_letters(
    alloc: Global,
    text: Letters<'_>,
    skip: u64,
    count: u64,
) -> Result<Slot, NoMemory>
    ensures value { IfOk result (λ slot. seen_slot slot
        ≡ option_map (λ cs. str (encode_utf8_all cs)) (cut (chars (letters_of text.entry)) (skip, count))) }
{
    match text {
        Letters::Kept(text) => part_of_text(alloc, text, skip, count),
        Letters::Ascii(text) => part_of_ascii(alloc, &text, skip, count),
    }
}

// Bytes of an ASCII text that lies elsewhere.
#[tactic(auto, using(sz_value::proofs::ForCallers::ascii_part))]
fn part_of_ascii(alloc: Global, text: &Ascii<'_>, skip: u64, count: u64) -> Result<Slot, NoMemory>
    ensures value { IfOk result (λ slot. seen_slot slot ≡ option_map str (cut text.now.octets.now (skip, count))) }
{
    match cut(text.octets, skip, count) {
        Some(octets) => Ok(Slot::Defined(Value::Str(Ascii { octets }.owned(alloc)?))),
        None => Ok(Slot::Undefined),
    }
}

// Characters of a text, which in an ASCII text are bytes.
#[tactic(auto, using(crate::proofs::CharacterLemmas::ascii_part_is))]
fn part_of_text(alloc: Global, text: &Text, skip: u64, count: u64) -> Result<Slot, NoMemory>
    ensures value { IfOk result (λ slot. seen_slot slot ≡ option_map (λ cs. str (encode_utf8_all cs)) (cut (chars text.now) (skip, count))) }
{
    if text.is_ascii() {
        ascii_part(alloc, text, skip, count)
    } else {
        characters_part(alloc, text, skip, count)
    }
}

// Bytes of an ASCII text.
fn ascii_part(alloc: Global, text: &Text, skip: u64, count: u64) -> Result<Slot, NoMemory>
    requires ascii { IsTrue (is_ascii text.now) }
    ensures value { IfOk result (λ slot. seen_slot slot ≡ option_map str (cut text.now (skip, count))) }
{
    if !fits(skip, count, text.as_str().as_bytes().len()) {
        return Ok(Slot::Undefined);
    }
    let part = text.ascii_part(alloc, skip as usize, (skip + count) as usize)?;
    Ok(Slot::Defined(Value::Str(part)))
}

// Characters of a text.
fn characters_part(alloc: Global, text: &Text, skip: u64, count: u64) -> Result<Slot, NoMemory>
    ensures value { IfOk result (λ slot. seen_slot slot ≡ option_map (λ cs. str (encode_utf8_all cs)) (cut (chars text.now) (skip, count))) }
{
    match characters_from(text, skip, count) {
        Some(part) => Ok(Slot::Defined(Value::Str(Text::new(alloc, part)?))),
        None => Ok(Slot::Undefined),
    }
}

// Bytes of a byte string.
fn part_of_bytes(alloc: Global, octets: &[u8], skip: u64, count: u64) -> Result<Slot, NoMemory>
    ensures value { IfOk result (λ slot. seen_slot slot ≡ option_map bytes (cut octets.now (skip, count))) }
{
    match cut(octets, skip, count) {
        Some(part) => Ok(Slot::Defined(Value::Bytes(Octets::from_slice(alloc, part)?))),
        None => Ok(Slot::Undefined),
    }
}

// Copies of the values of an array.
fn part_of_list(alloc: Global, values: &[Value], skip: u64, count: u64) -> Result<Slot, NoMemory>
    ensures value { IfOk result (λ slot. seen_slot slot ≡ option_map (λ es. array (data_of es)) (cut (map seen values.now) (skip, count))) }
{
    match cut(values, skip, count) {
        Some(part) => Ok(Slot::Defined(Value::Array(copies(alloc, part, part.len())?))),
        None => Ok(Slot::Undefined),
    }
}

// The `count` items after the first `skip`, or none where there are fewer.
fn cut<T>(items: &[T], skip: u64, count: u64) -> Option<&[T]>
    ensures some { IfSome result (λ part. cut items.now (skip, count) ≡ Some part.now) }
    ensures none { IfNone result (cut items.now (skip, count) ≡ None) }
{
    if fits(skip, count, items.len()) {
        Some(&items[skip as usize..][..count as usize])
    } else {
        None
    }
}

// Whether `count` items stand after the first `skip` of `len` items.
fn fits(skip: u64, count: u64, len: usize) -> bool
    ensures value { result ≡ nat_le (skip + count) len }
{
    let len = len as u64;
    skip <= len && count <= len - skip
}

/// A list of copies, with room for at least `room` values.
pub fn copies(alloc: Global, values: &[Value], room: usize) -> Result<List, NoMemory>
    ensures value { IfOk result (λ list. list ≡ map seen values.now) }
{
    let mut list = List::with_capacity(alloc, room)?;
    for value in values {
        list.push(copy(alloc, value)?)?;
    }
    Ok(list)
}
