//! Calls of `sz_builtin` by what lies elsewhere: bytes, and texts of ASCII.
use crate::operations::{Call, converted};
use std::alloc::Global;
use sz_builtin::{
    Ascii, View, binary_of_views, builtin, builtin_of_one, builtin_of_two, index_of_views,
    slice_of_view, unary_of_view,
};
use sz_types::NoMemory;
use sz_value::{List, Slot, Value};

// The value as one that lies elsewhere, where it can.
fn lying(value: &Value) -> View<'_> {
    match value {
        Value::Bool(truth) => View::Bool(*truth),
        Value::Int(number) => View::Int(*number),
        Value::Time(number) => View::Time(*number),
        Value::Str(text) => match Ascii::of(text.as_str().as_bytes()) {
            Some(text) => View::Ascii(text),
            None => View::Whole(value),
        },
        Value::Bytes(octets) => View::Bytes(octets.as_slice()),
        Value::Array(_) | Value::Tuple(_) | Value::Map(_) => View::Whole(value),
    }
}

fn look(value: &Value, lies: bool) -> View<'_> {
    if lies {
        lying(value)
    } else {
        View::Whole(value)
    }
}

// What a call makes of values, the first and the second of which lie elsewhere or not.
pub(crate) fn answer_of_views(
    alloc: Global,
    call: Call,
    values: &List,
    first: bool,
    second: bool,
) -> Result<Slot, NoMemory> {
    match values.as_slice() {
        [a] => answer_of_one(alloc, call, &look(a, first)),
        [a, b] => answer_of_two(alloc, call, &look(a, first), &look(b, second)),
        _ => match call {
            Call::Of(which) => builtin(alloc, which, values),
            _ => Err(NoMemory),
        },
    }
}

fn answer_of_one(alloc: Global, call: Call, value: &View<'_>) -> Result<Slot, NoMemory> {
    match call {
        Call::Unary(op) => Ok(unary_of_view(op, value)),
        Call::Slice(from, to) => slice_of_view(alloc, value, from, to),
        Call::Of(which) => builtin_of_one(alloc, which, value),
        Call::To(wanted) => converted(alloc, value, wanted),
        Call::Binary(_) | Call::Index => Err(NoMemory),
    }
}

fn answer_of_two(alloc: Global, call: Call, a: &View<'_>, b: &View<'_>) -> Result<Slot, NoMemory> {
    match call {
        Call::Binary(op) => binary_of_views(alloc, op, a, b),
        Call::Index => index_of_views(alloc, a, b),
        Call::Of(which) => builtin_of_two(alloc, which, a, b),
        Call::Unary(_) | Call::Slice(_, _) | Call::To(_) => Err(NoMemory),
    }
}
