//! Operators on two whole numbers.
ghost use Rattle.std.specs.Prelude.{◌≡◌, ◌+ℤ◌, ◌-ℤ◌, IfSome};
ghost use Rattle.sz_value.specs.Data.{int};
ghost use Rattle.sz_builtin.specs.Operators.{binary, wrapped};
ghost use Rattle.sz_world_rules.specs.Ticks.{binary_weight};

use crate::cell::Cell;
use sz_types::BinOp;

/// What the operator makes of two whole numbers, without a value in between, if it is a common one and divides by no 0. Nothing is to be paid
/// for that.
#[inline(always)]
pub fn of_ints<'a>(op: BinOp, a: i64, b: i64) -> Option<Cell<'a>>
    ensures value { IfSome result (λ made. binary op (int a) (int b) ≡ made) }
    ensures free { IfSome result (λ made. binary_weight op made ≡ 0) }
{
    match op {
        BinOp::Add => Some(Cell::of_int(plus(a, b))),
        BinOp::Sub => Some(Cell::of_int(minus(a, b))),
        BinOp::Mul => Some(Cell::of_int(a.wrapping_mul(b))),
        BinOp::Div if b != 0 => Some(Cell::of_int(a.wrapping_div(b))),
        BinOp::Rem if b != 0 => Some(Cell::of_int(a.wrapping_rem(b))),
        BinOp::Equal => Some(Cell::of_bool(a.cmp(&b).is_eq())),
        BinOp::NotEqual => Some(Cell::of_bool(a.cmp(&b).is_ne())),
        BinOp::Less => Some(Cell::of_bool(a.cmp(&b).is_lt())),
        BinOp::LessEqual => Some(Cell::of_bool(a.cmp(&b).is_le())),
        BinOp::Greater => Some(Cell::of_bool(a.cmp(&b).is_gt())),
        BinOp::GreaterEqual => Some(Cell::of_bool(a.cmp(&b).is_ge())),
        _ => None,
    }
}

// The sum, wrapped to 64 bits with a sign.
fn plus(a: i64, b: i64) -> i64
    ensures value { result ≡ wrapped (a +ℤ b) }
{
    a.wrapping_add(b)
}

// The difference, wrapped to 64 bits with a sign.
fn minus(a: i64, b: i64) -> i64
    ensures value { result ≡ wrapped (a -ℤ b) }
{
    a.wrapping_sub(b)
}
