//! Arrays of scalars: all elements that the occurrences hold.
ghost use Rattle.std.specs.Prelude.{◌≡◌, ℕ, List, length, map, Some, IfOk, OnOk, ◌++◌};
ghost use Rattle.sz_value.specs.Data as values;
ghost use Rattle.sz_value.specs.Seen.{seen, seen_slot};
ghost use Rattle.sz_wire.specs.Field.{content_in, LiesBefore};
ghost use Rattle.sz_proto.specs.Elements.{numbers_in, truths_in, truths_of, texts_in, in_all};
ghost use Rattle.sz_proto.specs.Messages.{each_of};
ghost use Rattle.sz_proto.specs.Found.{contents, AreWithin, array_of, whole_number, Takes, octets_each, text_each, number_each, truth_each};

use crate::NoMemory;
use crate::numbers::{from_eight, from_four, from_varint};
use crate::packed::packed;
use simdutf8::basic::from_utf8;
use std::alloc::Global;
use sz_types::Encoding;
use sz_value::{List, Octets, Slot, Text, Value};
use sz_wire::{WireField, WireKind};

/// The array of these values.
pub(crate) fn array(elements: Vec<Value>) -> Slot
    ensures value { seen_slot result ≡ Some (values.array (values.data_of (map seen elements.items))) }
{
    Slot::Defined(Value::Array(List::from_vec(elements)))
}

// The whole number, or the time of so many microseconds.
fn whole_number(is_time: bool, number: i64) -> Value
    ensures value { seen result ≡ whole_number is_time number }
{
    if is_time {
        Value::Time(number)
    } else {
        Value::Int(number)
    }
}

// Appends the whole numbers, or times.
fn push_numbers(elements: &mut Vec<Value>, is_time: bool, numbers: &[i64]) -> Result<(), NoMemory>
    ensures value { OnOk result (map seen elements.new.items ≡ map seen elements.old.items ++ map (whole_number is_time) numbers.now) }
{
    elements.reserve(numbers.len())?;
    for number in numbers {
        elements.push(whole_number(is_time, *number))?;
    }
    Ok(())
}

// Appends the truth values that these numbers stand for.
fn push_truths(elements: &mut Vec<Value>, numbers: &[i64]) -> Result<(), NoMemory>
    ensures value { OnOk result (map seen elements.new.items ≡ map seen elements.old.items ++ map values.truth (truths_of numbers.now)) }
{
    elements.reserve(numbers.len())?;
    for number in numbers {
        elements.push(Value::Bool(*number != 0))?;
    }
    Ok(())
}

// Appends the whole numbers, or times, of an occurrence, and answers whether it has some.
fn add_numbers(
    alloc: Global,
    code: Encoding,
    is_time: bool,
    bytes: &[u8],
    kind: WireKind,
    elements: &mut Vec<Value>,
) -> Result<bool, NoMemory>
    requires within { LiesBefore (length bytes.now) kind }
    ensures value { IfOk result (λ whole. Takes (number_each is_time code (content_in bytes.now kind))
        (map seen elements.old.items) (map seen elements.new.items) whole) }
{
    match kind {
        WireKind::Span(from, to) => {
            let Some(numbers) = packed(alloc, code, &bytes[from..to])? else {
                return Ok(false);
            };
            push_numbers(elements, is_time, numbers.as_slice())?;
        }
        WireKind::Varint(number) => elements.push(whole_number(
            is_time,
            from_varint(code, number),
        ))?,
        WireKind::Eight(number) => elements.push(whole_number(is_time, from_eight(number)))?,
        WireKind::Four(number) => elements.push(whole_number(is_time, from_four(number)))?,
        WireKind::Group => {}
    }
    Ok(true)
}

// Appends the truth values of an occurrence, and answers whether it has some.
fn add_truths(
    alloc: Global,
    bytes: &[u8],
    kind: WireKind,
    elements: &mut Vec<Value>,
) -> Result<bool, NoMemory>
    requires within { LiesBefore (length bytes.now) kind }
    ensures value { IfOk result (λ whole. Takes (truth_each (content_in bytes.now kind)) (map seen elements.old.items) (map seen elements.new.items) whole) }
{
    match kind {
        WireKind::Span(from, to) => {
            let Some(numbers) = packed(alloc, Encoding::Plain, &bytes[from..to])? else {
                return Ok(false);
            };
            push_truths(elements, numbers.as_slice())?;
        }
        WireKind::Varint(number) => elements.push(Value::Bool(number > 0))?,
        WireKind::Eight(_) => {}
        WireKind::Four(_) => {}
        WireKind::Group => {}
    }
    Ok(true)
}

// Appends the text of an occurrence, and answers whether it is one.
fn add_text(
    alloc: Global,
    bytes: &[u8],
    kind: WireKind,
    elements: &mut Vec<Value>,
) -> Result<bool, NoMemory>
    requires within { LiesBefore (length bytes.now) kind }
    ensures value { IfOk result (λ whole. Takes (text_each (content_in bytes.now kind)) (map seen elements.old.items) (map seen elements.new.items) whole) }
{
    match kind {
        WireKind::Span(from, to) => {
            let Ok(text) = from_utf8(&bytes[from..to]) else {
                return Ok(false);
            };
            elements.push(Value::Str(Text::new(alloc, text)?))?;
        }
        WireKind::Varint(_) => {}
        WireKind::Eight(_) => {}
        WireKind::Four(_) => {}
        WireKind::Group => {}
    }
    Ok(true)
}

// Appends the byte string of an occurrence.
fn add_octets(
    alloc: Global,
    bytes: &[u8],
    kind: WireKind,
    elements: &mut Vec<Value>,
) -> Result<bool, NoMemory>
    requires within { LiesBefore (length bytes.now) kind }
    ensures value { IfOk result (λ whole. Takes (octets_each (content_in bytes.now kind)) (map seen elements.old.items) (map seen elements.new.items) whole) }
{
    match kind {
        WireKind::Span(from, to) => {
            elements.push(Value::Bytes(Octets::from_slice(alloc, &bytes[from..to])?))?;
        }
        WireKind::Varint(_) => {}
        WireKind::Eight(_) => {}
        WireKind::Four(_) => {}
        WireKind::Group => {}
    }
    Ok(true)
}

/// The array of all whole numbers, or times, that the occurrences hold.
pub(crate) fn numbers(
    alloc: Global,
    code: Encoding,
    is_time: bool,
    bytes: &[u8],
    run: &[WireField],
) -> Result<Slot, NoMemory>
    requires within { AreWithin (length bytes.now) run.now }
    ensures value { IfOk result (λ slot. seen_slot slot
        ≡ array_of (each_of (whole_number is_time) (in_all (numbers_in code) (contents bytes.now run.now)))) }
{
    let mut elements = Vec::new(alloc);
    for field in run {
        if !add_numbers(alloc, code, is_time, bytes, field.kind, &mut elements)? {
            return Ok(Slot::Undefined);
        }
    }
    Ok(array(elements))
}

/// The array of all truth values that the occurrences hold.
pub(crate) fn truths(alloc: Global, bytes: &[u8], run: &[WireField]) -> Result<Slot, NoMemory>
    requires within { AreWithin (length bytes.now) run.now }
    ensures value { IfOk result (λ slot. seen_slot slot ≡ array_of (each_of values.truth (in_all truths_in (contents bytes.now run.now)))) }
{
    let mut elements = Vec::new(alloc);
    for field in run {
        if !add_truths(alloc, bytes, field.kind, &mut elements)? {
            return Ok(Slot::Undefined);
        }
    }
    Ok(array(elements))
}

/// The array of all texts that the occurrences hold, if each of them is UTF-8.
pub(crate) fn texts(alloc: Global, bytes: &[u8], run: &[WireField]) -> Result<Slot, NoMemory>
    requires within { AreWithin (length bytes.now) run.now }
    ensures value { IfOk result (λ slot. seen_slot slot ≡ array_of (each_of values.str (in_all texts_in (contents bytes.now run.now)))) }
{
    let mut elements = Vec::new(alloc);
    for field in run {
        if !add_text(alloc, bytes, field.kind, &mut elements)? {
            return Ok(Slot::Undefined);
        }
    }
    Ok(array(elements))
}

/// The array of all byte strings that the occurrences hold.
pub(crate) fn octets(alloc: Global, bytes: &[u8], run: &[WireField]) -> Result<Slot, NoMemory>
    requires within { AreWithin (length bytes.now) run.now }
    ensures value { IfOk result (λ slot. seen_slot slot ≡ array_of (in_all octets_each (contents bytes.now run.now))) }
{
    let mut elements = Vec::new(alloc);
    for field in run {
        if !add_octets(alloc, bytes, field.kind, &mut elements)? {
            return Ok(Slot::Undefined);
        }
    }
    Ok(array(elements))
}
