//! The ticks that a result adds to the charge of its line.
ghost use Rattle.std.specs.Prelude.{◌≡◌, Some};
ghost use Rattle.sz_types.specs.Data.{FieldShapes, str, bytes, proto};
ghost use Rattle.sz_types.specs.Seen.{seen as seen_type};
ghost use Rattle.sz_value.specs.Data.{bytes as octets, str as letters};
ghost use Rattle.sz_value.specs.Weight.{weight_of};
ghost use Rattle.sz_builtin.specs.Views.{seen_view};
ghost use Rattle.sz_world_rules.specs.Ticks.{result_weight, sum_weight, binary_weight, builtin_weight, conversion_weight};

use crate::buffers::part_bytes;
use crate::cell::{Cell, Form};
use sz_builtin::{Kind, View};
use sz_types::{BinOp, Builtin, Ty};
use sz_value::weight;

/// What a cell weighs, if it is defined.
#[inline(always)]
pub fn result_weight(made: &Cell<'_>) -> u64
    ensures value { result ≡ result_weight made.now }
{
    match &made.form {
        Form::Undefined => 0,
        Form::Bool(_) | Form::Int(_) | Form::Time(_) => 1,
        Form::Shared(shared) => weight(shared.as_ref()),
        Form::Lent(value) => weight(value),
        Form::Buffer(buffer) => bytes_weight(buffer.as_ref().as_slice()),
        Form::Part(count, before, buffer) => bytes_weight(part_bytes(*count, *before, buffer)),
        Form::Text(count, before, buffer) => text_weight(part_bytes(*count, *before, buffer)),
        Form::Element(_, _) | Form::Inside(_) => weight_by_look(made),
    }
}

// The same, by a look.
#[inline(never)]
fn weight_by_look(made: &Cell<'_>) -> u64
    ensures value { result ≡ result_weight made.now }
{
    match made.view() {
        Some(view) => view_weight(&view),
        None => 0,
    }
}

/// What a value weighs.
pub(crate) fn view_weight(view: &View<'_>) -> u64
    ensures value { result ≡ weight_of (seen_view view.now) }
{
    match view {
        View::Bool(_) | View::Int(_) | View::Time(_) => 1,
        View::Ascii(text) => text_weight(text.octets),
        View::Bytes(contents) => bytes_weight(contents),
        View::Whole(value) => weight(value),
    }
}

// What a text weighs.
#[inline(always)]
fn text_weight(text: &[u8]) -> u64
    ensures value { result ≡ weight_of (letters text.now) }
{
    (text.len() as u64).saturating_add(1)
}

// What bytes weigh.
#[inline(always)]
fn bytes_weight(contents: &[u8]) -> u64
    ensures value { result ≡ weight_of (octets contents.now) }
{
    (contents.len() as u64).saturating_add(1)
}

/// What an operator of two operands adds for its result.
#[inline(always)]
pub fn binary_weight(op: BinOp, made: &Cell<'_>) -> u64
    ensures value { result ≡ binary_weight op made.now }
{
    match op {
        BinOp::Add => sum_weight(made),
        _ => 0,
    }
}

// What a sum adds: its weight where it joins strings, byte strings or arrays.
#[inline(always)]
fn sum_weight(made: &Cell<'_>) -> u64
    ensures value { result ≡ sum_weight made.now }
{
    match &made.form {
        Form::Undefined | Form::Bool(_) | Form::Int(_) | Form::Time(_) => 0,
        Form::Buffer(_) | Form::Part(_, _, _) | Form::Text(_, _, _) => result_weight(made),
        _ => joined_weight(made),
    }
}

// What a sum that lies in memory adds.
#[inline(never)]
fn joined_weight(made: &Cell<'_>) -> u64
    ensures value { result ≡ sum_weight made.now }
{
    match made.view() {
        Some(view) => joined_view_weight(&view),
        None => 0,
    }
}

// What a sum adds.
fn joined_view_weight(view: &View<'_>) -> u64
    ensures value { result ≡ sum_weight (Some (seen_view view.now)) }
{
    match view.kind() {
        Kind::Str(_) | Kind::Bytes(_) | Kind::Array(_) => view_weight(view),
        _ => 0,
    }
}

/// What a predeclared function adds for its result.
pub fn builtin_weight(which: Builtin, made: &Cell<'_>) -> u64
    ensures value { result ≡ builtin_weight which made.now }
{
    match which {
        Builtin::Keys => result_weight(made),
        _ => 0,
    }
}

/// What a conversion of a cell to the type adds for its result.
pub fn conversion_weight(to: &Ty, from: &Cell<'_>, made: &Cell<'_>) -> u64
    ensures value { result ≡ conversion_weight (seen_type to.now) from.now made.now }
{
    match to {
        Ty::Str => weight_of_text(from, made),
        Ty::Bytes => weight_of_bytes(from, made),
        Ty::Proto(_) => weight_of_message(from, made),
        Ty::Bool | Ty::Int | Ty::Time | Ty::Array(_) | Ty::Map(_, _) | Ty::Tuple(_) => 0,
    }
}

// What a conversion to a string adds: nothing where it was one.
fn weight_of_text(from: &Cell<'_>, made: &Cell<'_>) -> u64
    ensures value { result ≡ conversion_weight str from.now made.now }
{
    match from.view() {
        Some(view) => weight_of_text_of(&view, made),
        None => result_weight(made),
    }
}

// The same of a value.
fn weight_of_text_of(from: &View<'_>, made: &Cell<'_>) -> u64
    ensures value { result ≡ conversion_weight str (Some (seen_view from.now)) made.now }
{
    match from.kind() {
        Kind::Str(_) => 0,
        _ => result_weight(made),
    }
}

// What a conversion to bytes adds: nothing where they were bytes.
fn weight_of_bytes(from: &Cell<'_>, made: &Cell<'_>) -> u64
    ensures value { result ≡ conversion_weight bytes from.now made.now }
{
    match from.view() {
        Some(view) => weight_of_bytes_of(&view, made),
        None => result_weight(made),
    }
}

// The same of a value.
fn weight_of_bytes_of(from: &View<'_>, made: &Cell<'_>) -> u64
    ensures value { result ≡ conversion_weight bytes (Some (seen_view from.now)) made.now }
{
    match from.kind() {
        Kind::Bytes(_) => 0,
        _ => result_weight(made),
    }
}

// What a conversion to a message adds: its weight where it was made of bytes.
fn weight_of_message(from: &Cell<'_>, made: &Cell<'_>) -> u64
    ensures value { (fields : FieldShapes) → result ≡ conversion_weight (proto fields) from.now made.now }
{
    match from.view() {
        Some(view) => weight_of_message_of(&view, made),
        None => 0,
    }
}

// The same of a value.
fn weight_of_message_of(from: &View<'_>, made: &Cell<'_>) -> u64
    ensures value { (fields : FieldShapes) → result ≡ conversion_weight (proto fields) (Some (seen_view from.now)) made.now }
{
    match from.kind() {
        Kind::Bytes(_) => result_weight(made),
        _ => 0,
    }
}
