//! Operators on two whole numbers.
ghost use Rattle.std.specs.Prelude.{◌≡◌, neg_ℤ, ◌+ℤ◌, ◌-ℤ◌};
ghost use Rattle.sz_builtin.specs.Operators.{of_numbers, shift_of, quotient, remainder, wrapped};

use sz_types::BinOp;

/// What the operator makes of two whole numbers, or none where the divisor is zero, the shift is outside 0 to 63, or
/// the operator isn't one of these.
pub fn of_numbers(op: BinOp, a: i64, b: i64) -> Option<i64>
    ensures value { result ≡ of_numbers op a b }
{
    match op {
        BinOp::Mul => Some(a.wrapping_mul(b)),
        BinOp::Div => quotient(a, b),
        BinOp::Rem => remainder(a, b),
        BinOp::Shl => match shift_of(b) {
            Some(places) => Some(a << places),
            None => None,
        },
        BinOp::Shr => match shift_of(b) {
            Some(places) => Some(a >> places),
            None => None,
        },
        BinOp::BitAnd => Some(a & b),
        BinOp::BitOr => Some(a | b),
        BinOp::BitXor => Some(a ^ b),
        _ => None,
    }
}

// The quotient, rounded toward zero.
fn quotient(a: i64, b: i64) -> Option<i64>
    ensures value { result ≡ quotient a b }
{
    if b == 0 {
        None
    } else {
        Some(a.wrapping_div(b))
    }
}

// What the quotient leaves.
fn remainder(a: i64, b: i64) -> Option<i64>
    ensures value { result ≡ remainder a b }
{
    if b == 0 {
        None
    } else {
        Some(a.wrapping_rem(b))
    }
}

// The number of places of a shift, if it is one of 0 to 63.
fn shift_of(number: i64) -> Option<u32>
    ensures value { result ≡ shift_of number }
{
    if number < 0 || number >= 64 {
        None
    } else {
        Some(number as u32)
    }
}

/// The number below zero for one above, and the other way round; the least number stays.
pub fn negated(a: i64) -> i64
    ensures value { result ≡ wrapped (neg_ℤ a) }
{
    a.wrapping_neg()
}

/// The sum, wrapped to 64 bits with a sign.
pub fn plus(a: i64, b: i64) -> i64
    ensures value { result ≡ wrapped (a +ℤ b) }
{
    a.wrapping_add(b)
}

/// The difference, wrapped to 64 bits with a sign.
pub fn minus(a: i64, b: i64) -> i64
    ensures value { result ≡ wrapped (a -ℤ b) }
{
    a.wrapping_sub(b)
}
