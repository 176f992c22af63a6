//! Conversions, and parts of values: indexes, slices and fields.
ghost use Rattle.std.specs.Prelude.{◌≡◌, map as each};
ghost use Rattle.std.specs.Option.{option_map};
ghost use Rattle.sz_types.specs.Data.{fields_of};
ghost use Rattle.sz_types.specs.Seen.{seen, seen_field};
ghost use Rattle.sz_tree.specs.View.{tree_of};
ghost use Rattle.sz_core.specs.View.{node_of};
ghost use Rattle.sz_check_rules.specs.Agreeing.{field_named};
ghost use Rattle.sz_check_rules.specs.JudgingCalls.{conversion_node};
ghost use Rattle.sz_check_rules.specs.JudgingParts.{made_index, whole, made_slice, field_in, made_field};
ghost use Rattle.sz_check_expr.specs.Asking.{found_of};
ghost use Rattle.sz_check_names.specs.Outcome.{Judges};

use crate::agreement::fits;
use crate::rows::{alike, has_elements, has_slices, index_row};
use std::alloc::Global;
use sz_check_names::{Cause, JudgeError, Verdict, small};
use sz_core::{CoreExpr, Form};
use sz_tree::{Expr, Name};
use sz_types::{Field, Kind, Place, Ty, converts, copy_ty, type_kind};

// A conversion at this place of an expression to a type.
pub fn conversion_node(place: Place, ty: Ty, tree: &Expr, node: Box<CoreExpr>) -> Verdict<CoreExpr>
    ensures value { Judges node_of result (conversion_node place (seen ty) (tree_of tree.now) (node_of node.value)) }
{
    if !converts(&node.ty, &ty) {
        return Err(JudgeError::at(Cause::WrongType, tree.place()));
    }
    let form = Form::Convert(node);
    Ok(CoreExpr { place, ty, form })
}

// `e[i]`.
pub fn made_index(
    alloc: Global,
    place: Place,
    tree: &Expr,
    index: &Expr,
    node: Box<CoreExpr>,
    at_node: Box<CoreExpr>,
) -> Verdict<CoreExpr>
    ensures value { Judges node_of result
        (made_index place (tree_of tree.now) (tree_of index.now) (node_of node.value) (node_of at_node.value)) }
{
    if !has_elements(&node.ty) {
        return Err(JudgeError::at(Cause::WrongType, tree.place()));
    }
    match index_row(alloc, &node.ty, &at_node.ty)? {
        Some(ty) => {
            let form = Form::Index(node, at_node);
            Ok(CoreExpr { place, ty, form })
        }
        None => Err(JudgeError::at(Cause::WrongType, index.place())),
    }
}

/// An expression that has to be a whole number; else a wrong type, at the expression.
pub fn whole(tree: &Expr, node: &CoreExpr) -> Verdict<()>
    ensures value { Judges (λ x. x) result (whole (tree_of tree.now) (node_of node.now)) }
{
    fits(alike(&node.ty, &Ty::Int), tree)
}

// `e[i: j]`.
pub fn made_slice(
    alloc: Global,
    place: Place,
    tree: &Expr,
    from: &Expr,
    to: &Expr,
    node: Box<CoreExpr>,
    first: Box<CoreExpr>,
    last: Box<CoreExpr>,
) -> Verdict<CoreExpr>
    ensures value { Judges node_of result
        (made_slice place (tree_of tree.now) (tree_of from.now) (tree_of to.now) (node_of node.value) (node_of first.value)
        (node_of last.value)) }
{
    if !has_slices(&node.ty) {
        return Err(JudgeError::at(Cause::WrongType, tree.place()));
    }
    whole(from, &first)?;
    whole(to, &last)?;
    let ty = copy_ty(alloc, &node.ty)?;
    let form = Form::Slice(node, first, last);
    Ok(CoreExpr { place, ty, form })
}

// The field with this name, with its place, counted from 0.
fn field_named<'t>(name: &[u8], fields: &'t [Field]) -> Option<(usize, &'t Ty)>
    ensures value { option_map found_of result ≡ field_named name.now 0 (fields_of (each seen_field fields.now)) }
{
    for i in 0..fields.len() {
        if fields[i].name.as_bytes() == name {
            return Some((i, &fields[i].ty));
        }
    }
    None
}

/// The field with a name in a value of this type, with its place among the fields, counted from 0; else a wrong type, at the value's place,
/// or no such field, at the name.
pub fn field_in<'t>(
    alloc: Global,
    place: Place,
    ty: &'t Ty,
    name: &Name,
) -> Verdict<(usize, &'t Ty)>
    ensures value { Judges found_of result (field_in place (seen ty.now) name.now) }
{
    let (Kind::Tuple(fields) | Kind::Proto(fields)) = type_kind(ty) else {
        return Err(JudgeError::at(Cause::WrongType, place));
    };
    match field_named(name.text().as_bytes(), fields) {
        Some(found) => Ok(found),
        None => Err(JudgeError::of(alloc, Cause::NoField, name)),
    }
}

// `e.name`.
pub fn made_field(
    alloc: Global,
    place: Place,
    tree: &Expr,
    node: Box<CoreExpr>,
    name: &Name,
) -> Verdict<CoreExpr>
    ensures value { Judges node_of result (made_field place (tree_of tree.now) (node_of node.value) name.now) }
{
    let (number, ty) = field_in(alloc, tree.place(), &node.ty, name)?;
    let (number, ty) = (small(number)?, copy_ty(alloc, ty)?);
    let form = Form::Field(node, number);
    Ok(CoreExpr { place, ty, form })
}
