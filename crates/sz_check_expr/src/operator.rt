//! Operators.
ghost use Rattle.std.specs.Prelude.{◌≡◌};
ghost use Rattle.sz_types.specs.Seen.{seen};
ghost use Rattle.sz_tree.specs.View.{tree_of};
ghost use Rattle.sz_core.specs.View.{node_of};
ghost use Rattle.sz_check_rules.specs.JudgingOperators.{unary_of, made_unary, operation_of, hands_type_on, asked_of_right, takes_left, made_operator, test};
ghost use Rattle.sz_check_rules.specs.JudgingOperators.{made_binary};
ghost use Rattle.sz_check_expr.specs.Asking.{asked_of};
ghost use Rattle.sz_check_expr.specs.Operating.{operation_seen};
ghost use Rattle.sz_check_names.specs.Outcome.{Judges};

use crate::agreement::fits;
use crate::rows::{alike, binary_row, unary_row};
use std::alloc::Global;
use sz_check_names::{Cause, JudgeError, Verdict};
use sz_core::{CoreExpr, Form};
use sz_tree::{BinaryOp, Expr, UnaryOp};
use sz_types::{BinOp, Kind, Place, Ty, UnOp, type_kind};

// The operator of one operand that a sign is.
fn unary_of(op: UnaryOp) -> UnOp
    ensures value { result ≡ unary_of op }
{
    match op {
        UnaryOp::Negate => UnOp::Negate,
        UnaryOp::Plus => UnOp::Plus,
        UnaryOp::Not => UnOp::Not,
        UnaryOp::Complement => UnOp::Flip,
    }
}

// An operator before its operand.
pub fn made_unary(place: Place, op: UnaryOp, tree: &Expr, node: Box<CoreExpr>) -> Verdict<CoreExpr>
    ensures value { Judges node_of result (made_unary place op (tree_of tree.now) (node_of node.value)) }
{
    match unary_row(unary_of(op), &node.ty) {
        Some(ty) => {
            let form = Form::Unary(unary_of(op), node);
            Ok(CoreExpr { place, ty, form })
        }
        None => Err(JudgeError::at(Cause::WrongType, tree.place())),
    }
}

// What an operator of two operands is: one that may not look at the second, or one that takes both.
#[derive(Clone, Copy)]
pub enum Operation {
    And,
    Or,
    Of(BinOp),
}

// What the sign is.
fn operation_of(op: BinaryOp) -> Operation
    ensures value { operation_seen result ≡ operation_of op }
{
    match op {
        BinaryOp::Or => Operation::Or,
        BinaryOp::And => Operation::And,
        BinaryOp::Equal => Operation::Of(BinOp::Equal),
        BinaryOp::NotEqual => Operation::Of(BinOp::NotEqual),
        BinaryOp::Less => Operation::Of(BinOp::Less),
        BinaryOp::LessEqual => Operation::Of(BinOp::LessEqual),
        BinaryOp::Greater => Operation::Of(BinOp::Greater),
        BinaryOp::GreaterEqual => Operation::Of(BinOp::GreaterEqual),
        BinaryOp::Add => Operation::Of(BinOp::Add),
        BinaryOp::Subtract => Operation::Of(BinOp::Sub),
        BinaryOp::BitOr => Operation::Of(BinOp::BitOr),
        BinaryOp::BitXor => Operation::Of(BinOp::BitXor),
        BinaryOp::Multiply => Operation::Of(BinOp::Mul),
        BinaryOp::Divide => Operation::Of(BinOp::Div),
        BinaryOp::Remainder => Operation::Of(BinOp::Rem),
        BinaryOp::ShiftLeft => Operation::Of(BinOp::Shl),
        BinaryOp::ShiftRight => Operation::Of(BinOp::Shr),
        BinaryOp::BitAnd => Operation::Of(BinOp::BitAnd),
    }
}

// Whether a composite as the right operand takes the type of the left one: that of `+` and of comparisons.
fn hands_type_on(op: BinOp) -> bool
    ensures value { result ≡ hands_type_on op }
{
    matches!(
        op,
        BinOp::Add
            | BinOp::Equal
            | BinOp::NotEqual
            | BinOp::Less
            | BinOp::LessEqual
            | BinOp::Greater
            | BinOp::GreaterEqual
    )
}

// What is asked of the right operand, by the type of the left one.
pub fn asked_of_right(op: BinaryOp, left: &Ty) -> Option<&Ty>
    ensures value { asked_of result ≡ asked_of_right (operation_of op) (seen left.now) }
{
    match operation_of(op) {
        Operation::Of(op) if hands_type_on(op) => Some(left),
        _ => None,
    }
}

// Whether some row of an operator has this type as that of the left operand.
fn takes_left(op: BinOp, ty: &Ty) -> bool
    ensures value { result ≡ takes_left op (seen ty.now) }
{
    let kind = type_kind(ty);
    match op {
        BinOp::Add => matches!(
            kind,
            Kind::Int | Kind::Time | Kind::Str | Kind::Bytes | Kind::Array(_)
        ),
        BinOp::Sub => matches!(kind, Kind::Int | Kind::Time),
        BinOp::Equal | BinOp::NotEqual => true,
        BinOp::Less | BinOp::LessEqual | BinOp::Greater | BinOp::GreaterEqual => {
            matches!(kind, Kind::Int | Kind::Time | Kind::Str | Kind::Bytes)
        }
        _ => matches!(kind, Kind::Int),
    }
}

// An operator that takes both operands: where no row has the type of the left one it is the wrong one, else the right one is.
fn made_operator(
    alloc: Global,
    place: Place,
    op: BinOp,
    left: &Expr,
    right: &Expr,
    first: Box<CoreExpr>,
    second: Box<CoreExpr>,
) -> Verdict<CoreExpr>
    ensures value { Judges node_of result
        (made_operator place op (tree_of left.now) (tree_of right.now) (node_of first.value) (node_of second.value)) }
{
    if !takes_left(op, &first.ty) {
        return Err(JudgeError::at(Cause::WrongType, left.place()));
    }
    match binary_row(alloc, op, &first.ty, &second.ty)? {
        Some(ty) => {
            let form = Form::Binary(op, first, second);
            Ok(CoreExpr { place, ty, form })
        }
        None => Err(JudgeError::at(Cause::WrongType, right.place())),
    }
}

/// An expression that has to be a truth value; else a wrong type, at the expression.
pub fn test(tree: &Expr, node: &CoreExpr) -> Verdict<()>
    ensures value { Judges (λ x. x) result (test (tree_of tree.now) (node_of node.now)) }
{
    fits(alike(&node.ty, &Ty::Bool), tree)
}

// An operator between its operands.
pub fn made_binary(
    alloc: Global,
    place: Place,
    op: BinaryOp,
    left: &Expr,
    right: &Expr,
    first: Box<CoreExpr>,
    second: Box<CoreExpr>,
) -> Verdict<CoreExpr>
    ensures value { Judges node_of result
        (made_binary place (operation_of op) (tree_of left.now) (tree_of right.now) (node_of first.value) (node_of second.value)) }
{
    let operation = operation_of(op);
    if let Operation::Of(op) = operation {
        return made_operator(alloc, place, op, left, right, first, second);
    }
    test(left, &first)?;
    test(right, &second)?;
    let form = match operation {
        Operation::Or => Form::Or(first, second),
        _ => Form::And(first, second),
    };
    let ty = Ty::Bool;
    Ok(CoreExpr { place, ty, form })
}
