//! The fields of a message in one pass over its payloads, and the occurrences of one of them.
ghost use Rattle.std.specs.Prelude.{◌≡◌, ◌≤◌, ℕ, length, map, Option, IfOk, IfSome};
ghost use Rattle.std.specs.Option.{option_map};
ghost use Rattle.std.specs.List.{slice_range};
ghost use Rattle.std.specs.Global.{Vec};
ghost use Rattle.sz_wire.specs.Field.{content_in, field_in, LiesBefore};
ghost use Rattle.sz_wire.specs.declared.field.WireField.{WireField};
ghost use Rattle.sz_proto.specs.Payloads.{fields_of, occurrences, payloads};
ghost use Rattle.sz_proto.specs.Found.{contents, AreWithin, NumbersRise, Takes, fields_each, AreFound, found_within, with_number};

use crate::NoMemory;
use std::alloc::Global;
use sz_wire::{WireField, WireKind, next_field};

/// The greatest level of a message.
pub(crate) const DEEPEST: u32 = 100;

// Adds the fields of the payload between two places, and answers whether it is a list of fields.
fn read_payload(
    bytes: &[u8],
    from: usize,
    to: usize,
    depth: u32,
    into: &mut Vec<WireField>,
) -> Result<bool, NoMemory>
    requires order { from ≤ to }
    requires place { to ≤ length bytes.now }
    requires within { AreWithin (length bytes.now) into.old.items }
    ensures read { IfOk result (λ whole. Takes (fields_of depth (slice_range bytes.now from to))
        (map (field_in bytes.now) into.old.items) (map (field_in bytes.now) into.new.items) whole) }
    ensures within { AreWithin (length bytes.now) into.new.items }
{
    let front = &bytes[..to];
    let mut at = from;
    loop {
        match next_field(front, at, depth) {
            Ok(Some(field)) => {
                into.push(field)?;
                at = field.next;
            }
            Ok(None) => return Ok(true),
            Err(_) => return Ok(false),
        }
    }
}

// Adds the fields of an occurrence, and answers whether it is a payload that is a list of fields at this level, or none.
fn add_fields(
    bytes: &[u8],
    kind: WireKind,
    depth: u32,
    into: &mut Vec<WireField>,
) -> Result<bool, NoMemory>
    requires place { LiesBefore (length bytes.now) kind }
    requires within { AreWithin (length bytes.now) into.old.items }
    ensures read { IfOk result (λ whole. Takes (fields_each depth (content_in bytes.now kind))
        (map (field_in bytes.now) into.old.items) (map (field_in bytes.now) into.new.items) whole) }
    ensures within { AreWithin (length bytes.now) into.new.items }
{
    match kind {
        WireKind::Span(from, to) => {
            if depth > DEEPEST {
                return Ok(false);
            }
            read_payload(bytes, from, to, depth, into)
        }
        WireKind::Varint(_) => Ok(true),
        WireKind::Eight(_) => Ok(true),
        WireKind::Four(_) => Ok(true),
        WireKind::Group => Ok(true),
    }
}

// The fields of the payloads among these occurrences, in order, if each payload is a list of fields at this level.
fn all_fields(
    alloc: Global,
    bytes: &[u8],
    run: &[WireField],
    depth: u32,
) -> Result<Option<Vec<WireField>>, NoMemory>
    requires within { AreWithin (length bytes.now) run.now }
    ensures value { IfOk result (λ found. option_map (λ (v : Vec WireField). map (field_in bytes.now) v.items) found
        ≡ found_within depth (payloads (contents bytes.now run.now))) }
    ensures within { IfOk result (λ found. IfSome found (λ v. AreWithin (length bytes.now) v.items)) }
{
    let mut found = Vec::new(alloc);
    for field in run {
        if !add_fields(bytes, field.kind, depth, &mut found)? {
            return Ok(None);
        }
    }
    Ok(Some(found))
}

/// The fields of the payloads among these occurrences, in order of their numbers, if each payload is a list of fields at this
/// level. Fields of one number stay in their order.
pub(crate) fn fields_in(
    alloc: Global,
    bytes: &[u8],
    run: &[WireField],
    depth: u32,
) -> Result<Option<Vec<WireField>>, NoMemory>
    requires within { AreWithin (length bytes.now) run.now }
    ensures value { IfOk result (λ found. AreFound bytes.now depth (payloads (contents bytes.now run.now)) (length bytes.now) found) }
{
    let Some(mut found) = all_fields(alloc, bytes, run, depth)? else {
        return Ok(None);
    };
    found.sort_by_key(|field| field.number)?;
    Ok(Some(found))
}

fn part(found: &[WireField], from: usize, to: usize) -> &[WireField]
    requires order { from ≤ to }
    requires within { to ≤ length found.now }
    ensures value { result.now ≡ slice_range found.now from to }
{
    &found[from..to]
}

/// The fields with this number.
pub(crate) fn occurrences(found: &[WireField], number: u32) -> &[WireField]
    requires order { NumbersRise found.now }
    ensures value { result.now ≡ with_number number found.now }
{
    let from = found.partition_point(|field| field.number < number);
    let to = found.partition_point(|field| field.number <= number);
    part(found, from, to)
}
