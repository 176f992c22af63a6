//! Conversions of values to types.
ghost use Rattle.std.specs.Prelude.{◌≡◌, IfOk, Some, None, if◌then◌else◌, codes, option_map};
ghost use Rattle.std.specs.Fmt.{signed_decimal};
ghost use Rattle.std.specs.Str.{is_utf8};
ghost use Rattle.sz_types.specs.Conversions.{IsProto};
ghost use Rattle.sz_types.specs.Seen.{seen as seen_type};
ghost use Rattle.sz_value.specs.Data.{int, str};
ghost use Rattle.sz_value.specs.Seen.{seen, seen_slot};
ghost use Rattle.sz_builtin.specs.Conversions.{convert, as_truth, as_int, as_time, as_str, as_bytes, number_in};
ghost use Rattle.sz_builtin.specs.Views.{seen_view};

use crate::numerals::number_in;
use crate::view::{Kind, View};
use itoa::Buffer;
use std::alloc::Global;
use sz_types::Ty;
use sz_value::{NoMemory, Octets, Slot, Text, Value};

/// What the value becomes by a conversion to the type. A value of the type itself is kept, a text or bytes that spell
/// a number become it, bytes that are UTF-8 become a text, numbers and truth values are written out, and numbers and
/// times become each other.
///
/// The slot is undefined where a text or bytes spell no number within 64 bits with a sign, where bytes aren't UTF-8,
/// and where the value doesn't convert to a type without parts.
pub fn convert(alloc: Global, v: &Value, to: &Ty) -> Result<Slot, NoMemory>
    requires plain { IsProto (seen_type to.now) → ⊥ }
    ensures value { IfOk result (λ slot. seen_slot slot ≡ convert (seen v.now) (seen_type to.now)) }
{
    convert_view(alloc, &View::Whole(v), to)
}

/// The same of a view.
pub fn convert_view(alloc: Global, v: &View<'_>, to: &Ty) -> Result<Slot, NoMemory>
    requires plain { IsProto (seen_type to.now) → ⊥ }
    ensures value { IfOk result (λ slot. seen_slot slot ≡ convert (seen_view v.now) (seen_type to.now)) }
{
    match to {
        Ty::Bool => Ok(as_truth(v)),
        Ty::Int => Ok(as_int(v)),
        Ty::Time => Ok(as_time(v)),
        Ty::Str => as_str(alloc, v),
        Ty::Bytes => as_bytes(alloc, v),
        Ty::Array(_) => itself(alloc, v),
        Ty::Map(_, _) => itself(alloc, v),
        Ty::Tuple(_) => itself(alloc, v),
        Ty::Proto(_) => itself(alloc, v),
    }
}

// A copy of the value.
fn itself(alloc: Global, v: &View<'_>) -> Result<Slot, NoMemory>
    ensures value { IfOk result (λ slot. seen_slot slot ≡ Some (seen_view v.now)) }
{
    Ok(Slot::Defined(v.owned(alloc)?))
}

// The value as a truth value.
fn as_truth(v: &View<'_>) -> Slot
    ensures value { seen_slot result ≡ as_truth (seen_view v.now) }
{
    match v.kind() {
        Kind::Bool(truth) => Slot::Defined(Value::Bool(truth)),
        _ => Slot::Undefined,
    }
}

// The value as a whole number.
fn as_int(v: &View<'_>) -> Slot
    ensures value { seen_slot result ≡ as_int (seen_view v.now) }
{
    match v.kind() {
        Kind::Bool(truth) => Slot::Defined(Value::Int(if truth { 1 } else { 0 })),
        Kind::Int(number) => Slot::Defined(Value::Int(number)),
        Kind::Time(number) => Slot::Defined(Value::Int(number)),
        Kind::Str(text) => spelled(text.octets()),
        Kind::Bytes(octets) => spelled(octets),
        _ => Slot::Undefined,
    }
}

// The number that a text spells.
fn spelled(text: &[u8]) -> Slot
    ensures value { seen_slot result ≡ option_map int (number_in text.now) }
{
    match number_in(text) {
        Some(number) => Slot::Defined(Value::Int(number)),
        None => Slot::Undefined,
    }
}

// The value as a time.
fn as_time(v: &View<'_>) -> Slot
    ensures value { seen_slot result ≡ as_time (seen_view v.now) }
{
    match v.kind() {
        Kind::Int(number) => Slot::Defined(Value::Time(number)),
        Kind::Time(number) => Slot::Defined(Value::Time(number)),
        _ => Slot::Undefined,
    }
}

// The value as a string.
fn as_str(alloc: Global, v: &View<'_>) -> Result<Slot, NoMemory>
    ensures value { IfOk result (λ slot. seen_slot slot ≡ as_str (seen_view v.now)) }
{
    match v.kind() {
        Kind::Bool(truth) => truth_text(alloc, truth),
        Kind::Int(number) => decimal_text(alloc, number),
        Kind::Str(text) => Ok(Slot::Defined(Value::Str(text.owned(alloc)?))),
        Kind::Bytes(octets) => text_of(alloc, octets),
        _ => Ok(Slot::Undefined),
    }
}

// A text as a value.
fn written(alloc: Global, text: &str) -> Result<Slot, NoMemory>
    ensures value { IfOk result (λ slot. seen_slot slot ≡ Some (str text.now)) }
{
    Ok(Slot::Defined(Value::Str(Text::new(alloc, text)?)))
}

// The word of a truth value.
fn truth_text(alloc: Global, truth: bool) -> Result<Slot, NoMemory>
    ensures value { IfOk result (λ slot. seen_slot slot ≡ Some (str (if truth then codes "true" else codes "false"))) }
{
    if truth {
        written(alloc, "true")
    } else {
        written(alloc, "false")
    }
}

// A number in decimal.
fn decimal_text(alloc: Global, number: i64) -> Result<Slot, NoMemory>
    ensures value { IfOk result (λ slot. seen_slot slot ≡ Some (str (signed_decimal number))) }
{
    let mut buffer = Buffer::new();
    written(alloc, buffer.format(number))
}

// The text that the bytes are, if they are UTF-8.
#[tactic(auto, using(crate::proofs::ConversionLemmas::text_there, crate::proofs::ConversionLemmas::no_text))]
fn text_of(alloc: Global, octets: &[u8]) -> Result<Slot, NoMemory>
    ensures value { IfOk result (λ slot. seen_slot slot ≡ (if is_utf8 octets.now then Some (str octets.now) else None)) }
{
    match simdutf8::basic::from_utf8(octets) {
        Ok(text) => written(alloc, text),
        Err(_) => Ok(Slot::Undefined),
    }
}

// The value as bytes.
fn as_bytes(alloc: Global, v: &View<'_>) -> Result<Slot, NoMemory>
    ensures value { IfOk result (λ slot. seen_slot slot ≡ as_bytes (seen_view v.now)) }
{
    match v.kind() {
        Kind::Str(text) => Ok(Slot::Defined(Value::Bytes(Octets::from_slice(
            alloc,
            text.octets(),
        )?))),
        Kind::Bytes(octets) => Ok(Slot::Defined(Value::Bytes(Octets::from_slice(alloc, octets)?))),
        _ => Ok(Slot::Undefined),
    }
}
