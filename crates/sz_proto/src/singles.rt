//! Values of fields that hold one scalar.
ghost use Rattle.std.specs.Prelude.{◌≡◌, ◌∷◌, ℕ, pos, List, [], length, false, Some, None, IfOk, IfSome, IfNone};
ghost use Rattle.sz_wire.specs.Field.{Content, content_in, LiesBefore};
ghost use Rattle.sz_value.specs.Data as values;
ghost use Rattle.sz_value.specs.Seen.{seen_slot};
ghost use Rattle.sz_proto.specs.Payloads.{payloads};
ghost use Rattle.sz_proto.specs.Elements.{truths, numbers, last_or};
ghost use Rattle.sz_proto.specs.Found.{contents, AreWithin, last_text_of, payload_or};

use crate::NoMemory;
use crate::numbers::{number_in, truth_in};
use simdutf8::basic::from_utf8;
use std::alloc::Global;
use sz_types::Encoding;
use sz_value::{Octets, Slot, Text, Value};
use sz_wire::{WireField, WireKind};

/// The last truth value among these occurrences, or false.
pub(crate) fn last_truth(run: &[WireField]) -> bool
    ensures value { (bytes : List ℕ) → result ≡ last_or false (truths (contents bytes run.now)) }
{
    let mut last = false;
    for field in run {
        last = truth_in(field.kind).unwrap_or(last);
    }
    last
}

/// The last whole number among these occurrences, or 0.
pub(crate) fn last_number(code: Encoding, run: &[WireField]) -> i64
    ensures value { (bytes : List ℕ) → result ≡ last_or (pos 0) (numbers code (contents bytes run.now)) }
{
    let mut last = 0;
    for field in run {
        last = number_in(code, field.kind).unwrap_or(last);
    }
    last
}

// The payload of an occurrence, or the one before.
fn payload_or<'a>(bytes: &'a [u8], kind: WireKind, last: &'a [u8]) -> &'a [u8]
    requires within { LiesBefore (length bytes.now) kind }
    ensures value { result.now ≡ payload_or (content_in bytes.now kind) last.now }
{
    match kind {
        WireKind::Span(from, to) => &bytes[from..to],
        WireKind::Varint(_) => last,
        WireKind::Eight(_) => last,
        WireKind::Four(_) => last,
        WireKind::Group => last,
    }
}

// The text of an occurrence, or the one before, if the occurrence is passed over or UTF-8.
fn text_or<'a>(bytes: &'a [u8], kind: WireKind, last: &'a str) -> Option<&'a str>
    requires within { LiesBefore (length bytes.now) kind }
    ensures some { IfSome result (λ text. (cs : List Content) → last_text_of last.now (content_in bytes.now kind ∷ cs) ≡ last_text_of text.now cs) }
    ensures none { IfNone result ((cs : List Content) → last_text_of last.now (content_in bytes.now kind ∷ cs) ≡ None) }
{
    match kind {
        WireKind::Span(from, to) => match from_utf8(&bytes[from..to]) {
            Ok(text) => Some(text),
            Err(_) => None,
        },
        WireKind::Varint(_) => Some(last),
        WireKind::Eight(_) => Some(last),
        WireKind::Four(_) => Some(last),
        WireKind::Group => Some(last),
    }
}

/// The last text among these occurrences, or the empty one, if each of them is UTF-8.
pub(crate) fn last_text(alloc: Global, bytes: &[u8], run: &[WireField]) -> Result<Slot, NoMemory>
    requires within { AreWithin (length bytes.now) run.now }
    ensures value { IfOk result (λ slot. seen_slot slot ≡ last_text_of [] (contents bytes.now run.now)) }
{
    let mut last = "";
    for field in run {
        match text_or(bytes, field.kind, last) {
            Some(text) => last = text,
            None => return Ok(Slot::Undefined),
        }
    }
    Ok(Slot::Defined(Value::Str(Text::new(alloc, last)?)))
}

/// The last bytes among these occurrences, or none.
pub(crate) fn last_octets(alloc: Global, bytes: &[u8], run: &[WireField]) -> Result<Slot, NoMemory>
    requires within { AreWithin (length bytes.now) run.now }
    ensures value { IfOk result (λ slot. seen_slot slot ≡ Some (values.bytes (last_or [] (payloads (contents bytes.now run.now))))) }
{
    let mut last = &bytes[..0];
    for field in run {
        last = payload_or(bytes, field.kind, last);
    }
    Ok(Slot::Defined(Value::Bytes(Octets::from_slice(alloc, last)?)))
}
