//! Which types operators, indexes, slices and predeclared functions take, and which they give.
ghost use Rattle.std.specs.Prelude.{◌≡◌, IfOk, [], ◌∷◌, map as each, if◌then◌else◌, is_some, Some as Just, None as Nothing};
ghost use Rattle.std.specs.Option.{option_map};
ghost use Rattle.sz_types.specs.Seen.{seen};
ghost use Rattle.sz_types.specs.Same.{alike as alike_shapes};
ghost use Rattle.sz_types.specs.Data.{truth, int};
ghost use Rattle.sz_types.specs.Rows.{both_int, ordered, sum_row, difference_row, unary_row, binary_row, index_row, slice_row, len_row, keys_row, haskey_row};
ghost use Rattle.sz_types.specs.Rows.{strfind_row, builtin_row};
ghost use Rattle.sz_core.specs.Nodes.{nodes_of, types_of};
ghost use Rattle.sz_core.specs.View.{node_of};
ghost use Rattle.sz_check_rules.specs.Agreeing.{is_searched_for, is_map};
ghost use Rattle.sz_check_rules.specs.JudgingParts.{has_index};
ghost use Rattle.sz_check_expr.specs.Operating.{is_compared};

use std::alloc::{AllocError, Global};
use sz_core::CoreExpr;
use sz_types::{BinOp, Builtin, Kind, Ty, UnOp, copy_ty, same, type_kind};

// Whether the types are the same.
pub fn alike(a: &Ty, b: &Ty) -> bool
    ensures value { result ≡ alike_shapes (seen a.now) (seen b.now) }
{
    same(a, b)
}

// The type that an operator of one operand gives.
pub fn unary_row(op: UnOp, ty: &Ty) -> Option<Ty>
    ensures value { option_map seen result ≡ unary_row op (seen ty.now) }
{
    match (op, type_kind(ty)) {
        (UnOp::Not, Kind::Bool) => Some(Ty::Bool),
        (UnOp::Negate | UnOp::Plus | UnOp::Flip, Kind::Int) => Some(Ty::Int),
        _ => None,
    }
}

// Whether both are the type of whole numbers.
pub fn both_int(a: &Ty, b: &Ty) -> bool
    ensures value { result ≡ both_int (seen a.now) (seen b.now) }
{
    matches!((type_kind(a), type_kind(b)), (Kind::Int, Kind::Int))
}

// Whether the types are the same, and have an order in programs.
pub fn ordered(a: &Ty, b: &Ty) -> bool
    ensures value { result ≡ ordered (seen a.now) (seen b.now) }
{
    match (type_kind(a), type_kind(b)) {
        (Kind::Int, Kind::Int)
        | (Kind::Time, Kind::Time)
        | (Kind::Str, Kind::Str)
        | (Kind::Bytes, Kind::Bytes) => true,
        _ => false,
    }
}

/// The type of `a + b`, if there is one.
pub fn sum_row(alloc: Global, a: &Ty, b: &Ty) -> Result<Option<Ty>, AllocError>
    ensures value { IfOk result (λ row. option_map seen row ≡ sum_row (seen a.now) (seen b.now)) }
{
    match (type_kind(a), type_kind(b)) {
        (Kind::Int, Kind::Int) => Ok(Some(Ty::Int)),
        (Kind::Time, Kind::Int) => Ok(Some(Ty::Time)),
        (Kind::Str, Kind::Str) => Ok(Some(Ty::Str)),
        (Kind::Bytes, Kind::Bytes) => Ok(Some(Ty::Bytes)),
        (Kind::Array(s), Kind::Array(t)) if alike(s, t) => Ok(Some(copy_ty(alloc, a)?)),
        _ => Ok(None),
    }
}

/// The type of `a - b`, if there is one.
pub fn difference_row(a: &Ty, b: &Ty) -> Option<Ty>
    ensures value { option_map seen result ≡ difference_row (seen a.now) (seen b.now) }
{
    match (type_kind(a), type_kind(b)) {
        (Kind::Int, Kind::Int) => Some(Ty::Int),
        (Kind::Time, Kind::Int) => Some(Ty::Time),
        (Kind::Time, Kind::Time) => Some(Ty::Int),
        _ => None,
    }
}

// Whether an operator that compares takes these types.
fn is_compared(op: BinOp, a: &Ty, b: &Ty) -> bool
    ensures value { result ≡ is_compared op (seen a.now) (seen b.now) }
{
    match op {
        BinOp::Equal | BinOp::NotEqual => alike(a, b),
        BinOp::Less | BinOp::LessEqual | BinOp::Greater | BinOp::GreaterEqual => ordered(a, b),
        _ => false,
    }
}

// The type that an operator of two operands gives.
pub fn binary_row(alloc: Global, op: BinOp, a: &Ty, b: &Ty) -> Result<Option<Ty>, AllocError>
    ensures value { IfOk result (λ row. option_map seen row ≡ binary_row op (seen a.now) (seen b.now)) }
{
    match op {
        BinOp::Add => sum_row(alloc, a, b),
        BinOp::Sub => Ok(difference_row(a, b)),
        BinOp::Equal
        | BinOp::NotEqual
        | BinOp::Less
        | BinOp::LessEqual
        | BinOp::Greater
        | BinOp::GreaterEqual => Ok(only_if(is_compared(op, a, b), Ty::Bool)),
        _ => Ok(only_if(both_int(a, b), Ty::Int)),
    }
}

// The type of an element of a value, under an index of this type.
pub fn index_row(alloc: Global, ty: &Ty, index: &Ty) -> Result<Option<Ty>, AllocError>
    ensures value { IfOk result (λ row. option_map seen row ≡ index_row (seen ty.now) (seen index.now)) }
{
    match (type_kind(ty), type_kind(index)) {
        (Kind::Array(element), Kind::Int) => Ok(Some(copy_ty(alloc, element)?)),
        (Kind::Str | Kind::Bytes, Kind::Int) => Ok(Some(Ty::Int)),
        (Kind::Map(key, value), _) if alike(key, index) => Ok(Some(copy_ty(alloc, value)?)),
        _ => Ok(None),
    }
}

// Whether a value of this type has elements, which an index reaches and `len` counts.
pub fn has_elements(ty: &Ty) -> bool
    ensures index { result ≡ has_index (seen ty.now) }
    ensures length { len_row (seen ty.now) ≡ (if result then Just int else Nothing) }
{
    matches!(
        type_kind(ty),
        Kind::Str | Kind::Bytes | Kind::Array(_) | Kind::Map(_, _)
    )
}

// Whether a value of this type has slices, which have the same type.
pub fn has_slices(ty: &Ty) -> bool
    ensures value { slice_row (seen ty.now) ≡ (if result then Just (seen ty.now) else Nothing) }
{
    matches!(type_kind(ty), Kind::Str | Kind::Bytes | Kind::Array(_))
}

// Whether the type is that of maps.
pub fn is_map(ty: &Ty) -> bool
    ensures value { result ≡ is_map (seen ty.now) }
    ensures row { is_some (keys_row (seen ty.now)) ≡ result }
{
    matches!(type_kind(ty), Kind::Map(_, _))
}

// The type of a map's keys.
fn keys_row(alloc: Global, ty: &Ty) -> Result<Option<Ty>, AllocError>
    ensures value { IfOk result (λ row. option_map seen row ≡ keys_row (seen ty.now)) }
{
    match type_kind(ty) {
        Kind::Map(key, _) => {
            let key = copy_ty(alloc, key)?;
            Ok(Some(Ty::Array(Box::new(alloc, key)?)))
        }
        _ => Ok(None),
    }
}

// Whether a map of this type can have a key of that type.
pub fn has_keys_of(ty: &Ty, key: &Ty) -> bool
    ensures value { haskey_row (seen ty.now) (seen key.now) ≡ (if result then Just truth else Nothing) }
{
    match type_kind(ty) {
        Kind::Map(own, _) => alike(own, key),
        _ => false,
    }
}

// Whether `strfind` can search for a value of this type.
pub fn is_searched_for(ty: &Ty) -> bool
    ensures value { result ≡ is_searched_for (seen ty.now) }
{
    matches!(type_kind(ty), Kind::Str | Kind::Bytes)
}

// Whether `strfind` can search for a value of the first type in one of the second.
pub fn is_found_in(a: &Ty, b: &Ty) -> bool
    ensures value { strfind_row (seen a.now) (seen b.now) ≡ (if result then Just int else Nothing) }
{
    matches!(
        (type_kind(a), type_kind(b)),
        (Kind::Str, Kind::Str) | (Kind::Bytes, Kind::Bytes)
    )
}

// A type, where the test holds.
fn only_if(holds: bool, ty: Ty) -> Option<Ty>
    ensures value { option_map seen result ≡ (if holds then Just (seen ty) else Nothing) }
{
    if holds { Some(ty) } else { None }
}

// The type that a predeclared function gives, if it takes one argument of this type.
fn row_of_one(alloc: Global, function: Builtin, ty: &Ty) -> Result<Option<Ty>, AllocError>
    ensures value { IfOk result (λ row. option_map seen row ≡ builtin_row function (seen ty.now ∷ [])) }
{
    match function {
        Builtin::Len => Ok(only_if(has_elements(ty), Ty::Int)),
        Builtin::Keys => keys_row(alloc, ty),
        Builtin::HasKey | Builtin::StrFind => Ok(None),
    }
}

// The type that a predeclared function gives, if it takes two arguments of these types.
fn row_of_two(function: Builtin, first: &Ty, second: &Ty) -> Option<Ty>
    ensures value { option_map seen result ≡ builtin_row function (seen first.now ∷ seen second.now ∷ []) }
{
    match function {
        Builtin::HasKey => only_if(has_keys_of(first, second), Ty::Bool),
        Builtin::StrFind => only_if(is_found_in(first, second), Ty::Int),
        Builtin::Len | Builtin::Keys => None,
    }
}

// The type that a predeclared function gives, if it takes these arguments.
#[tactic(auto, using(crate::proofs::CallLemmas::row_of_none, crate::proofs::CallLemmas::row_of_many))]
pub fn builtin_row(
    alloc: Global,
    function: Builtin,
    arguments: &[CoreExpr],
) -> Result<Option<Ty>, AllocError>
    ensures value { IfOk result (λ row. option_map seen row ≡ builtin_row function (types_of (nodes_of (each node_of arguments.now)))) }
{
    let [first, others @ ..] = arguments else {
        return Ok(None);
    };
    let [second, more @ ..] = others else {
        return row_of_one(alloc, function, &first.ty);
    };
    if more.is_empty() {
        Ok(row_of_two(function, &first.ty, &second.ty))
    } else {
        Ok(None)
    }
}
