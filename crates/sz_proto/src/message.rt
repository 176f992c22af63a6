//! The value of a message, down its type.
ghost use Rattle.std.specs.Prelude.{◌≡◌, ◌≤◌, ◌+◌, ◌∷◌, [], length, map, IfOk};
ghost use Rattle.sz_types.specs.Data.{fields_of};
ghost use Rattle.sz_types.specs.Seen.{seen, seen_field};
ghost use Rattle.sz_value.specs.Data as values;
ghost use Rattle.sz_value.specs.Seen.{seen_slot};
ghost use Rattle.sz_value.specs.Seen as value_seen;
ghost use Rattle.sz_wire.specs.Field.{content_in, field_in, deepest, LiesBefore};
ghost use Rattle.sz_proto.specs.Payloads.{payloads};
ghost use Rattle.sz_proto.specs.Messages.{inside, tuple_of, for_each, message_in, values_of, value_of, elements_of, decoded};
ghost use Rattle.sz_proto.specs.Found.{contents, AreWithin, NumbersRise, Takes, message_each, array_of};

use crate::NoMemory;
use crate::elements::{array, numbers, octets, texts, truths};
use crate::finding::{DEEPEST, fields_in, occurrences};
use crate::singles::{last_number, last_octets, last_text, last_truth};
use std::alloc::Global;
use sz_types::{Encoding, Field, Ty};
use sz_value::{List, Slot, Value};
use sz_wire::{WireField, WireKind};

/// The value of the message that these bytes are, by its type.
///
/// It is undefined where the bytes are no message of the type: they are no list of fields, or a payload inside is none, packed
/// elements are cut off, a text isn't UTF-8, or messages and groups nest deeper than 100. Of a type that is no message type
/// no value is made.
pub fn decode(alloc: Global, ty: &Ty, bytes: &[u8]) -> Result<Slot, NoMemory>
    ensures value { IfOk result (λ slot. seen_slot slot ≡ decoded (seen ty.now) bytes.now) }
{
    match ty {
        Ty::Proto(fields) => {
            let whole = WireField {
                number: 1,
                kind: WireKind::Span(0, bytes.len()),
                next: bytes.len(),
            };
            message(fields.as_slice(), alloc, bytes, &[whole], 1)
        }
        Ty::Bool => Ok(Slot::Undefined),
        Ty::Int => Ok(Slot::Undefined),
        Ty::Time => Ok(Slot::Undefined),
        Ty::Str => Ok(Slot::Undefined),
        Ty::Bytes => Ok(Slot::Undefined),
        Ty::Array(_) => Ok(Slot::Undefined),
        Ty::Map(_, _) => Ok(Slot::Undefined),
        Ty::Tuple(_) => Ok(Slot::Undefined),
    }
}

// The level of a message in a message of this level. Those that are too deep are all alike.
fn inside(depth: u32) -> u32
    requires level { depth ≤ deepest + 1 }
    ensures value { result ≡ inside depth }
    ensures level { result ≤ deepest + 1 }
{
    if depth < DEEPEST {
        depth + 1
    } else {
        DEEPEST + 1
    }
}

// The message that the payloads among these occurrences are together.
#[cycle(message)]
fn message(
    fields: &[Field],
    alloc: Global,
    bytes: &[u8],
    run: &[WireField],
    depth: u32,
) -> Result<Slot, NoMemory>
    requires within { AreWithin (length bytes.now) run.now }
    requires level { depth ≤ deepest + 1 }
    ensures value { IfOk result (λ slot. seen_slot slot
        ≡ message_in (values_of (fields_of (map seen_field fields.now)) depth) depth (payloads (contents bytes.now run.now))) }
{
    match fields_in(alloc, bytes, run, depth)? {
        Some(found) => values(fields, alloc, bytes, found.as_slice(), depth),
        None => Ok(Slot::Undefined),
    }
}

// The message with these fields, which are in order of their numbers.
#[cycle(message)]
fn values(
    fields: &[Field],
    alloc: Global,
    bytes: &[u8],
    found: &[WireField],
    depth: u32,
) -> Result<Slot, NoMemory>
    requires within { AreWithin (length bytes.now) found.now }
    requires order { NumbersRise found.now }
    requires level { depth ≤ deepest + 1 }
    ensures value { IfOk result (λ slot. seen_slot slot ≡ tuple_of
        (values_of (fields_of (map seen_field fields.now)) depth (map (field_in bytes.now) found.now))) }
{
    let mut values = Vec::with_capacity(alloc, fields.len())?;
    for field in fields {
        let run = occurrences(found, field.number);
        match value(&field.ty, alloc, field.code, bytes, run, depth)? {
            Slot::Defined(value) => values.push(value)?,
            Slot::Undefined => return Ok(Slot::Undefined),
        }
    }
    Ok(Slot::Defined(Value::Tuple(List::from_vec(values))))
}

// The value of a field of this type, of which these are the occurrences.
#[cycle(message)]
fn value(
    ty: &Ty,
    alloc: Global,
    code: Encoding,
    bytes: &[u8],
    run: &[WireField],
    depth: u32,
) -> Result<Slot, NoMemory>
    requires within { AreWithin (length bytes.now) run.now }
    requires level { depth ≤ deepest + 1 }
    ensures value { IfOk result (λ slot. seen_slot slot ≡ value_of (seen ty.now) code depth (contents bytes.now run.now)) }
{
    match ty {
        Ty::Bool => Ok(Slot::Defined(Value::Bool(last_truth(run)))),
        Ty::Int => Ok(Slot::Defined(Value::Int(last_number(code, run)))),
        Ty::Time => Ok(Slot::Defined(Value::Time(last_number(code, run)))),
        Ty::Str => last_text(alloc, bytes, run),
        Ty::Bytes => last_octets(alloc, bytes, run),
        Ty::Proto(fields) => message(fields.as_slice(), alloc, bytes, run, inside(depth)),
        Ty::Array(element) => elements(element, alloc, code, bytes, run, depth),
        Ty::Map(_, _) => Ok(Slot::Undefined),
        Ty::Tuple(_) => Ok(Slot::Undefined),
    }
}

// The array of all elements of this type that the occurrences hold.
#[cycle(message)]
fn elements(
    element: &Ty,
    alloc: Global,
    code: Encoding,
    bytes: &[u8],
    run: &[WireField],
    depth: u32,
) -> Result<Slot, NoMemory>
    requires within { AreWithin (length bytes.now) run.now }
    requires level { depth ≤ deepest + 1 }
    ensures value { IfOk result (λ slot. seen_slot slot
        ≡ array_of (elements_of (seen element.now) code depth (contents bytes.now run.now))) }
{
    match element {
        Ty::Bool => truths(alloc, bytes, run),
        Ty::Int => numbers(alloc, code, false, bytes, run),
        Ty::Time => numbers(alloc, code, true, bytes, run),
        Ty::Str => texts(alloc, bytes, run),
        Ty::Bytes => octets(alloc, bytes, run),
        Ty::Proto(fields) => messages(fields.as_slice(), alloc, bytes, run, inside(depth)),
        Ty::Array(_) => Ok(Slot::Undefined),
        Ty::Map(_, _) => Ok(Slot::Undefined),
        Ty::Tuple(_) => Ok(Slot::Undefined),
    }
}

// The array of the messages that the payloads among these occurrences are, each by itself.
#[cycle(message)]
fn messages(
    fields: &[Field],
    alloc: Global,
    bytes: &[u8],
    run: &[WireField],
    depth: u32,
) -> Result<Slot, NoMemory>
    requires within { AreWithin (length bytes.now) run.now }
    requires level { depth ≤ deepest + 1 }
    ensures value { IfOk result (λ slot. seen_slot slot ≡ array_of (for_each
        (λ payload. message_in (values_of (fields_of (map seen_field fields.now)) depth) depth (payload ∷ []))
        (payloads (contents bytes.now run.now)))) }
{
    let mut elements = Vec::new(alloc);
    for field in run {
        if !add_message(fields, alloc, bytes, *field, depth, &mut elements)? {
            return Ok(Slot::Undefined);
        }
    }
    Ok(array(elements))
}

// Appends the message that an occurrence holds, and answers whether it is one, or passed over.
#[cycle(message)]
fn add_message(
    fields: &[Field],
    alloc: Global,
    bytes: &[u8],
    field: WireField,
    depth: u32,
    elements: &mut Vec<Value>,
) -> Result<bool, NoMemory>
    requires within { LiesBefore (length bytes.now) field.kind }
    requires level { depth ≤ deepest + 1 }
    ensures value { IfOk result (λ whole. Takes (message_each
        (λ payload. message_in (values_of (fields_of (map seen_field fields.now)) depth) depth (payload ∷ [])) (content_in bytes.now field.kind))
        (map value_seen.seen elements.old.items) (map value_seen.seen elements.new.items) whole) }
{
    match field.kind {
        WireKind::Span(_, _) => match message(fields, alloc, bytes, &[field], depth)? {
            Slot::Defined(value) => elements.push(value)?,
            Slot::Undefined => return Ok(false),
        },
        WireKind::Varint(_) => {}
        WireKind::Eight(_) => {}
        WireKind::Four(_) => {}
        WireKind::Group => {}
    }
    Ok(true)
}
