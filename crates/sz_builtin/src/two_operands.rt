//! Operators of two operands.
ghost use Rattle.std.specs.Prelude.{◌≡◌, IfOk};
ghost use Rattle.sz_value.specs.Seen.{seen, seen_slot};
ghost use Rattle.sz_value.specs.declared.value.Value.TheVariants.{Bool};
ghost use Rattle.sz_value.specs.declared.slots.Slot.TheVariants.{Defined};
ghost use Rattle.sz_value.specs.Order.{compare};
ghost use Rattle.sz_builtin.specs.Operators.{binary, on_numbers, of_numbers, difference};
ghost use Rattle.sz_builtin.specs.Views.{seen_view};

use crate::joining::sum;
use crate::numbers::{minus, of_numbers};
use crate::view::{Kind, View};
use std::alloc::Global;
use std::cmp::Ordering;
use sz_types::BinOp;
use sz_value::{NoMemory, Slot, Value, order};

/// What the operator makes of two values. Numbers and times wrap to 64 bits with a sign, `+` joins strings, bytes and
/// arrays, and comparisons are by the order of values.
///
/// The slot is undefined where the divisor is zero, where a shift is outside 0 to 63, and where the operator takes no
/// such values.
pub fn binary(alloc: Global, op: BinOp, a: &Value, b: &Value) -> Result<Slot, NoMemory>
    ensures value { IfOk result (λ slot. seen_slot slot ≡ binary op (seen a.now) (seen b.now)) }
{
    binary_of_views(alloc, op, &View::Whole(a), &View::Whole(b))
}

/// The same of two views.
pub fn binary_of_views(
    alloc: Global,
    op: BinOp,
    a: &View<'_>,
    b: &View<'_>,
) -> Result<Slot, NoMemory>
    ensures value { IfOk result (λ slot. seen_slot slot ≡ binary op (seen_view a.now) (seen_view b.now)) }
{
    match op {
        BinOp::Add => sum(alloc, a, b),
        BinOp::Sub => Ok(difference(a, b)),
        BinOp::Equal => Ok(truth(compared(alloc, a, b)?.is_eq())),
        BinOp::NotEqual => Ok(truth(compared(alloc, a, b)?.is_ne())),
        BinOp::Less => Ok(truth(compared(alloc, a, b)?.is_lt())),
        BinOp::LessEqual => Ok(truth(compared(alloc, a, b)?.is_le())),
        BinOp::Greater => Ok(truth(compared(alloc, a, b)?.is_gt())),
        BinOp::GreaterEqual => Ok(truth(compared(alloc, a, b)?.is_ge())),
        _ => Ok(on_numbers(op, a, b)),
    }
}

// The slot of a truth value.
fn truth(truth: bool) -> Slot
    ensures value { result ≡ Defined (Bool truth) }
{
    Slot::Defined(Value::Bool(truth))
}

// What an operator on whole numbers makes of two values.
fn on_numbers(op: BinOp, a: &View<'_>, b: &View<'_>) -> Slot
    ensures value { seen_slot result ≡ on_numbers (of_numbers op) (seen_view a.now) (seen_view b.now) }
{
    match (a.kind(), b.kind()) {
        (Kind::Int(a), Kind::Int(b)) => match of_numbers(op, a, b) {
            Some(number) => Slot::Defined(Value::Int(number)),
            None => Slot::Undefined,
        },
        _ => Slot::Undefined,
    }
}

// The difference of two numbers, of a time and a number, or of two times.
fn difference(a: &View<'_>, b: &View<'_>) -> Slot
    ensures value { seen_slot result ≡ difference (seen_view a.now) (seen_view b.now) }
{
    match (a.kind(), b.kind()) {
        (Kind::Int(a), Kind::Int(b)) => Slot::Defined(Value::Int(minus(a, b))),
        (Kind::Time(a), Kind::Int(b)) => Slot::Defined(Value::Time(minus(a, b))),
        (Kind::Time(a), Kind::Time(b)) => Slot::Defined(Value::Int(minus(a, b))),
        _ => Slot::Undefined,
    }
}

// How two values stand in the order of values. Bytes and texts are compared where they lie.
fn compared(alloc: Global, a: &View<'_>, b: &View<'_>) -> Result<Ordering, NoMemory>
    ensures value { IfOk result (λ found. found ≡ compare (seen_view a.now) (seen_view b.now)) }
{
    match (a.kind(), b.kind()) {
        (Kind::Bytes(a), Kind::Bytes(b)) => Ok(a.cmp(b)),
        (Kind::Str(a), Kind::Str(b)) => Ok(a.octets().cmp(b.octets())),
        _ => ordered(alloc, a, b),
    }
}

// The same of any values.
fn ordered(alloc: Global, a: &View<'_>, b: &View<'_>) -> Result<Ordering, NoMemory>
    ensures value { IfOk result (λ found. found ≡ compare (seen_view a.now) (seen_view b.now)) }
{
    let a = a.lent(alloc)?;
    let b = b.lent(alloc)?;
    Ok(order(a.value(), b.value()))
}
