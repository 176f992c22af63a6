//! Values, read from the front of bytes by their types, so that no value is deeper than its type.
ghost use Rattle.std.specs.Prelude.{◌≡◌, map};
ghost use Rattle.sz_types.specs.Data.{fields_of};
ghost use Rattle.sz_types.specs.Seen as shapes;
ghost use Rattle.sz_value.specs.Seen.{seen, seen_pair, seen_pairs};
ghost use Rattle.sz_save_format.specs.Types.{field_count};
ghost use Rattle.sz_save_format.specs.Entries.{in_order};
ghost use Rattle.sz_save_format.specs.Decoding.{Reads, tag_at, tagged, counted_at};
ghost use Rattle.sz_save_format.specs.DecodingRows.{truth_at, int_at, time_at, text_at, octets_at, pair_at, key_may_follow, array_at, mapping_at, tuple_at, value_at, parts_at};

use crate::error::SavedError;
use crate::numbers::{read_byte, read_length, read_number, read_string};
use std::alloc::Global;
use sz_types::{Field, Kind, Ty, type_kind};
use sz_value::{List, Octets, Pair, Pairs, Text, Value, order};

// The value of the type in front.
#[cycle(read)]
#[tactic(auto, unfolding(crate::specs::DecodingRows::value_at))]
pub(crate) fn read_value<'f>(
    alloc: Global,
    ty: &Ty,
    flat: &'f [u8],
) -> Result<(Value, &'f [u8]), SavedError>
    ensures value { Reads (λ r. (seen r.0, r.1.now)) (value_at (shapes.seen ty.now) flat.now) result }
{
    match type_kind(ty) {
        Kind::Bool => read_truth(flat),
        Kind::Int => read_int(flat),
        Kind::Time => read_time(flat),
        Kind::Str => read_text(alloc, flat),
        Kind::Bytes => read_octets(alloc, flat),
        Kind::Array(element) => read_array(alloc, element, flat),
        Kind::Map(key, value) => read_map(alloc, key, value, flat),
        Kind::Tuple(fields) => read_tuple(alloc, fields, flat),
        Kind::Proto(fields) => read_tuple(alloc, fields, flat),
    }
}

// What stands behind the byte of a kind.
fn read_tag(kind: u8, flat: &[u8]) -> Result<&[u8], SavedError>
    ensures value { Reads (λ r. (0, r.now)) (tag_at kind flat.now) result }
{
    let [byte, rest @ ..] = flat else {
        return Err(SavedError::NotSaved);
    };
    if *byte != kind {
        return Err(SavedError::NotSaved);
    }
    Ok(rest)
}

// The truth value in front.
#[tactic(auto, unfolding(crate::specs::DecodingRows::truth_at))]
fn read_truth(flat: &[u8]) -> Result<(Value, &[u8]), SavedError>
    ensures value { Reads (λ r. (seen r.0, r.1.now)) (tagged 1 truth_at flat.now) result }
{
    let rest = read_tag(1, flat)?;
    let (byte, rest) = read_byte(rest)?;
    match byte {
        0 => Ok((Value::Bool(false), rest)),
        1 => Ok((Value::Bool(true), rest)),
        _ => Err(SavedError::NotSaved),
    }
}

// The number in front.
fn read_int(flat: &[u8]) -> Result<(Value, &[u8]), SavedError>
    ensures value { Reads (λ r. (seen r.0, r.1.now)) (tagged 2 int_at flat.now) result }
{
    let rest = read_tag(2, flat)?;
    let (number, rest) = read_number(rest)?;
    Ok((Value::Int(number), rest))
}

// The time in front.
fn read_time(flat: &[u8]) -> Result<(Value, &[u8]), SavedError>
    ensures value { Reads (λ r. (seen r.0, r.1.now)) (tagged 3 time_at flat.now) result }
{
    let rest = read_tag(3, flat)?;
    let (number, rest) = read_number(rest)?;
    Ok((Value::Time(number), rest))
}

// The text in front.
#[tactic(auto, unfolding(crate::specs::DecodingRows::text_at))]
fn read_text(alloc: Global, flat: &[u8]) -> Result<(Value, &[u8]), SavedError>
    ensures value { Reads (λ r. (seen r.0, r.1.now)) (tagged 4 text_at flat.now) result }
{
    let rest = read_tag(4, flat)?;
    let (string, rest) = read_string(rest)?;
    match str::from_utf8(string) {
        Ok(text) => Ok((Value::Str(Text::new(alloc, text)?), rest)),
        Err(_) => Err(SavedError::NotSaved),
    }
}

// The bytes in front.
fn read_octets(alloc: Global, flat: &[u8]) -> Result<(Value, &[u8]), SavedError>
    ensures value { Reads (λ r. (seen r.0, r.1.now)) (tagged 5 octets_at flat.now) result }
{
    let rest = read_tag(5, flat)?;
    let (string, rest) = read_string(rest)?;
    Ok((Value::Bytes(Octets::from_slice(alloc, string)?), rest))
}

// The array in front.
#[cycle(read)]
#[tactic(auto, unfolding(crate::specs::DecodingRows::array_at))]
fn read_array<'f>(
    alloc: Global,
    element: &Ty,
    flat: &'f [u8],
) -> Result<(Value, &'f [u8]), SavedError>
    ensures value { Reads (λ r. (seen r.0, r.1.now)) (tagged 6 (array_at (value_at (shapes.seen element.now))) flat.now) result }
{
    let rest = read_tag(6, flat)?;
    let (parts, rest) = read_elements(alloc, element, rest)?;
    Ok((Value::Array(parts), rest))
}

// The values of one type in front, behind their number.
#[cycle(read)]
#[tactic(auto, unfolding(crate::specs::Decoding::counted_at))]
fn read_elements<'f>(
    alloc: Global,
    element: &Ty,
    flat: &'f [u8],
) -> Result<(List, &'f [u8]), SavedError>
    ensures value { Reads (λ r. (r.0, r.1.now)) (counted_at (value_at (shapes.seen element.now)) flat.now) result }
{
    let (count, mut rest) = read_length(flat)?;
    let mut values = List::new(alloc);
    for _ in 0..count {
        let (value, after) = read_value(alloc, element, rest)?;
        values.push(value)?;
        rest = after;
    }
    Ok((values, rest))
}

// The tuple in front, of a value for each field.
#[cycle(read)]
#[tactic(auto, unfolding(crate::specs::DecodingRows::tuple_at))]
fn read_tuple<'f>(
    alloc: Global,
    fields: &[Field],
    flat: &'f [u8],
) -> Result<(Value, &'f [u8]), SavedError>
    ensures value { Reads (λ r. (seen r.0, r.1.now)) (tagged 7 (tuple_at (field_count (fields_of (map shapes.seen_field fields.now)))
        (parts_at (fields_of (map shapes.seen_field fields.now)))) flat.now) result }
{
    let rest = read_tag(7, flat)?;
    let (count, rest) = read_length(rest)?;
    if count as usize != fields.len() {
        return Err(SavedError::NotSaved);
    }
    let (parts, rest) = read_parts(alloc, fields, rest)?;
    Ok((Value::Tuple(parts), rest))
}

// A value for each field.
#[cycle(read)]
fn read_parts<'f>(
    alloc: Global,
    fields: &[Field],
    flat: &'f [u8],
) -> Result<(List, &'f [u8]), SavedError>
    ensures value { Reads (λ r. (r.0, r.1.now)) (parts_at (fields_of (map shapes.seen_field fields.now)) flat.now) result }
{
    let mut values = List::new(alloc);
    let mut rest = flat;
    for field in fields {
        let (value, after) = read_value(alloc, &field.ty, rest)?;
        values.push(value)?;
        rest = after;
    }
    Ok((values, rest))
}

// The map in front.
#[cycle(read)]
#[tactic(auto, unfolding(crate::specs::DecodingRows::mapping_at))]
fn read_map<'f>(
    alloc: Global,
    key: &Ty,
    value: &Ty,
    flat: &'f [u8],
) -> Result<(Value, &'f [u8]), SavedError>
    ensures value { Reads (λ r. (seen r.0, r.1.now))
        (tagged 8 (mapping_at (value_at (shapes.seen key.now)) (value_at (shapes.seen value.now))) flat.now) result }
{
    let rest = read_tag(8, flat)?;
    let (pairs, rest) = read_pairs(alloc, key, value, rest)?;
    if !keys_rise(&pairs) {
        return Err(SavedError::NotSaved);
    }
    Ok((Value::Map(Pairs::from_pairs(alloc, pairs)?), rest))
}

// The keys with their values in front, behind their number.
#[cycle(read)]
#[tactic(auto, unfolding(crate::specs::Decoding::counted_at))]
fn read_pairs<'f>(
    alloc: Global,
    key: &Ty,
    value: &Ty,
    flat: &'f [u8],
) -> Result<(Vec<Pair>, &'f [u8]), SavedError>
    ensures value { Reads (λ r. (seen_pairs r.0.items, r.1.now))
        (counted_at (pair_at (value_at (shapes.seen key.now)) (value_at (shapes.seen value.now))) flat.now) result }
{
    let (count, mut rest) = read_length(flat)?;
    let mut pairs = Vec::new(alloc);
    for _ in 0..count {
        let (pair, after) = read_pair(alloc, key, value, rest)?;
        pairs.push(pair)?;
        rest = after;
    }
    Ok((pairs, rest))
}

// A key and its value.
#[cycle(read)]
fn read_pair<'f>(
    alloc: Global,
    key: &Ty,
    value: &Ty,
    flat: &'f [u8],
) -> Result<(Pair, &'f [u8]), SavedError>
    ensures value { Reads (λ r. (seen_pair r.0, r.1.now)) (pair_at (value_at (shapes.seen key.now)) (value_at (shapes.seen value.now)) flat.now) result }
{
    let (key, rest) = read_value(alloc, key, flat)?;
    let (value, rest) = read_value(alloc, value, rest)?;
    Ok((Pair { key, value }, rest))
}

// Whether each key is above the one before it.
fn keys_rise(pairs: &[Pair]) -> bool
    ensures value { result ≡ in_order key_may_follow (seen_pairs pairs.now) }
{
    for i in 1..pairs.len() {
        if !order(&pairs[i - 1].key, &pairs[i].key).is_lt() {
            return false;
        }
    }
    true
}
