//! Types, read from the front of bytes.
ghost use Rattle.std.specs.Prelude.{◌≡◌, map};
ghost use Rattle.sz_types.specs.Seen.{seen, seen_field};
ghost use Rattle.sz_save_format.specs.Decoding.{Reads, numbering_at, field_at, fields_at, picked, type_cases, array_type_at, mapping_type_at, tuple_type_at, proto_type_at, type_at, saved_type_at, types_at, encoding_in};

use crate::error::SavedError;
use crate::names::read_name;
use crate::numbers::{read_byte, read_length};
use std::alloc::Global;
use sz_types::{Encoding, Field, Fields, Ty, Tys};

/// How many levels a type in a saved file has at most.
const LEVELS: u32 = 256;

// The type in front, as a saved file has it.
pub(crate) fn read_saved_type(alloc: Global, flat: &[u8]) -> Result<(Ty, &[u8]), SavedError>
    ensures value { Reads (λ r. (seen r.0, r.1.now)) (saved_type_at flat.now) result }
{
    read_type(alloc, LEVELS, flat)
}

// The types in front, behind their number.
#[tactic(auto, unfolding(crate::specs::Decoding::counted_at))]
pub(crate) fn read_types(alloc: Global, flat: &[u8]) -> Result<(Tys, &[u8]), SavedError>
    ensures value { Reads (λ r. (r.0, r.1.now)) (types_at flat.now) result }
{
    let (count, mut rest) = read_length(flat)?;
    let mut types = Tys::new(alloc);
    for _ in 0..count {
        let (ty, after) = read_saved_type(alloc, rest)?;
        types.push(ty)?;
        rest = after;
    }
    Ok((types, rest))
}

// The type in front, of at most so many levels.
#[cycle(read)]
fn read_type(alloc: Global, levels: u32, flat: &[u8]) -> Result<(Ty, &[u8]), SavedError>
    ensures value { Reads (λ r. (seen r.0, r.1.now)) (type_at levels flat.now) result }
{
    if levels == 0 {
        return Err(SavedError::NotSaved);
    }
    let (kind, rest) = read_byte(flat)?;
    read_type_of(alloc, kind, levels - 1, rest)
}

// The type behind the byte of its kind; the types in it have at most so many levels.
#[cycle(read)]
fn read_type_of(
    alloc: Global,
    kind: u8,
    levels: u32,
    flat: &[u8],
) -> Result<(Ty, &[u8]), SavedError>
    ensures value { Reads (λ r. (seen r.0, r.1.now)) (picked (type_cases (type_at levels)) kind flat.now) result }
{
    match kind {
        1 => Ok((Ty::Bool, flat)),
        2 => Ok((Ty::Int, flat)),
        3 => Ok((Ty::Time, flat)),
        4 => Ok((Ty::Str, flat)),
        5 => Ok((Ty::Bytes, flat)),
        6 => read_array_type(alloc, levels, flat),
        7 => read_tuple_type(alloc, levels, flat),
        8 => read_map_type(alloc, levels, flat),
        9 => read_proto_type(alloc, levels, flat),
        _ => Err(SavedError::NotSaved),
    }
}

// An array type, behind the byte of its kind.
#[cycle(read)]
fn read_array_type(alloc: Global, levels: u32, flat: &[u8]) -> Result<(Ty, &[u8]), SavedError>
    ensures value { Reads (λ r. (seen r.0, r.1.now)) (array_type_at (type_at levels) flat.now) result }
{
    let (element, rest) = read_type(alloc, levels, flat)?;
    Ok((Ty::Array(Box::new(alloc, element)?), rest))
}

// A map type, behind the byte of its kind.
#[cycle(read)]
fn read_map_type(alloc: Global, levels: u32, flat: &[u8]) -> Result<(Ty, &[u8]), SavedError>
    ensures value { Reads (λ r. (seen r.0, r.1.now)) (mapping_type_at (type_at levels) flat.now) result }
{
    let (key, rest) = read_type(alloc, levels, flat)?;
    let key = Box::new(alloc, key)?;
    let (value, rest) = read_type(alloc, levels, rest)?;
    let value = Box::new(alloc, value)?;
    Ok((Ty::Map(key, value), rest))
}

// A tuple type, behind the byte of its kind.
#[cycle(read)]
fn read_tuple_type(alloc: Global, levels: u32, flat: &[u8]) -> Result<(Ty, &[u8]), SavedError>
    ensures value { Reads (λ r. (seen r.0, r.1.now)) (tuple_type_at (type_at levels) flat.now) result }
{
    let (fields, rest) = read_fields(alloc, false, levels, flat)?;
    Ok((Ty::Tuple(Fields::from_vec(alloc, fields)?), rest))
}

// A proto type, behind the byte of its kind.
#[cycle(read)]
fn read_proto_type(alloc: Global, levels: u32, flat: &[u8]) -> Result<(Ty, &[u8]), SavedError>
    ensures value { Reads (λ r. (seen r.0, r.1.now)) (proto_type_at (type_at levels) flat.now) result }
{
    let (fields, rest) = read_fields(alloc, true, levels, flat)?;
    Ok((Ty::Proto(Fields::from_vec(alloc, fields)?), rest))
}

// The fields in front, behind their number; those of a message have numbers.
#[cycle(read)]
#[tactic(auto, unfolding(crate::specs::Decoding::counted_at))]
fn read_fields(
    alloc: Global,
    numbered: bool,
    levels: u32,
    flat: &[u8],
) -> Result<(Vec<Field>, &[u8]), SavedError>
    ensures value { Reads (λ r. (map seen_field r.0.items, r.1.now)) (fields_at numbered (type_at levels) flat.now) result }
{
    let (count, mut rest) = read_length(flat)?;
    let mut fields = Vec::new(alloc);
    for _ in 0..count {
        let (field, after) = read_field(alloc, numbered, levels, rest)?;
        fields.push(field)?;
        rest = after;
    }
    Ok((fields, rest))
}

// The field in front.
#[cycle(read)]
#[tactic(auto, unfolding(crate::specs::Decoding::field_at))]
fn read_field(
    alloc: Global,
    numbered: bool,
    levels: u32,
    flat: &[u8],
) -> Result<(Field, &[u8]), SavedError>
    ensures value { Reads (λ r. (seen_field r.0, r.1.now)) (field_at numbered (type_at levels) flat.now) result }
{
    let (name, rest) = read_name(alloc, flat)?;
    let (ty, rest) = read_type(alloc, levels, rest)?;
    let (number, code, rest) = read_numbering(numbered, rest)?;
    Ok((
        Field {
            name,
            ty,
            number,
            code,
        },
        rest,
    ))
}

// The number and the encoding of a field: those in front, or none.
#[tactic(auto, unfolding(crate::specs::Decoding::numbering_at))]
fn read_numbering(numbered: bool, flat: &[u8]) -> Result<(u32, Encoding, &[u8]), SavedError>
    ensures value { Reads (λ r. ((r.0, r.1), r.2.now)) (numbering_at numbered flat.now) result }
{
    if !numbered {
        return Ok((0, Encoding::Plain, flat));
    }
    let (number, rest) = read_length(flat)?;
    let (byte, rest) = read_byte(rest)?;
    match encoding_in(byte) {
        Some(code) => Ok((number, code, rest)),
        None => Err(SavedError::NotSaved),
    }
}

// The encoding with a number.
fn encoding_in(byte: u8) -> Option<Encoding>
    ensures value { result ≡ encoding_in byte }
{
    match byte {
        0 => Some(Encoding::Plain),
        1 => Some(Encoding::Zigzag),
        2 => Some(Encoding::Fixed32),
        3 => Some(Encoding::Fixed64),
        _ => None,
    }
}
