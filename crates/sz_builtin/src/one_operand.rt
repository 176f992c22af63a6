//! Operators of one operand.
ghost use Rattle.std.specs.Prelude.{◌≡◌};
ghost use Rattle.sz_value.specs.Seen.{seen, seen_slot};
ghost use Rattle.sz_builtin.specs.Operators.{unary};
ghost use Rattle.sz_builtin.specs.Views.{seen_view};

use crate::numbers::negated;
use crate::view::{Kind, View};
use sz_types::UnOp;
use sz_value::{Slot, Value};

/// What the operator makes of the value: `-`, `+` and `~` of a whole number, `!` of a truth value. A number that
/// doesn't fit 64 bits with a sign wraps.
///
/// The slot is undefined where the operator takes no such value.
pub fn unary(op: UnOp, a: &Value) -> Slot
    ensures value { seen_slot result ≡ unary op (seen a.now) }
{
    unary_of_view(op, &View::Whole(a))
}

/// The same of a view.
pub fn unary_of_view(op: UnOp, a: &View<'_>) -> Slot
    ensures value { seen_slot result ≡ unary op (seen_view a.now) }
{
    match (op, a.kind()) {
        (UnOp::Negate, Kind::Int(number)) => Slot::Defined(Value::Int(negated(number))),
        (UnOp::Plus, Kind::Int(number)) => Slot::Defined(Value::Int(number)),
        (UnOp::Not, Kind::Bool(truth)) => Slot::Defined(Value::Bool(!truth)),
        (UnOp::Flip, Kind::Int(number)) => Slot::Defined(Value::Int(!number)),
        _ => Slot::Undefined,
    }
}
