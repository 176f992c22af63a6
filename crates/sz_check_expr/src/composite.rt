//! Composites: `{e, ..}` and `{k: v, ..}`.
ghost use Rattle.std.specs.Prelude.{◌≡◌, map as each};
ghost use Rattle.sz_types.specs.Data.{fields_of};
ghost use Rattle.sz_types.specs.Seen.{seen, seen_field};
ghost use Rattle.sz_tree.specs.Expressions.{exps_of, pairs_of};
ghost use Rattle.sz_tree.specs.View.{tree_of, pair_of};
ghost use Rattle.sz_core.specs.Nodes.{nodes_of, pairings_of};
ghost use Rattle.sz_core.specs.View.{node_of, pairing_of};
ghost use Rattle.sz_check_rules.specs.JudgingComposites.{asks_of_list, made_tuple, made_list, asked_of_keys, asked_of_values, made_mapping};
ghost use Rattle.sz_check_expr.specs.Asking.{asks_of, asked_of};
ghost use Rattle.sz_check_expr.specs.Calling.{made_array, tuple_of};
ghost use Rattle.sz_check_names.specs.Outcome.{Judges};

use crate::agreement::{agree, counted, pairs_agree};
use crate::asks::Asks;
use std::alloc::Global;
use sz_check_names::{Cause, JudgeError, Verdict};
use sz_core::{CoreExpr, CorePair, Form};
use sz_tree::{Expr, Pair};
use sz_types::{Field, Kind, Place, Ty, copy_ty, type_kind};

// What a composite without a colon asks of its parts; an empty one is an array.
#[tactic(auto, using(crate::proofs::CallLemmas::tuple_asks, crate::proofs::CallLemmas::proto_asks))]
pub fn asks_of_list<'t>(asked: Option<&'t Ty>, trees: &[Expr]) -> Asks<'t>
    ensures value { asks_of result ≡ asks_of_list (asked_of asked.entry) (exps_of (each tree_of trees.now)) }
{
    let Some(ty) = asked else {
        return Asks::Nothing;
    };
    match (type_kind(ty), trees) {
        (Kind::Array(element), _) => Asks::Each(element),
        (Kind::Tuple(fields) | Kind::Proto(fields), [_, ..]) => Asks::Fields(fields),
        _ => Asks::Nothing,
    }
}

// A tuple or a message of this type with these fields, which has parts.
#[tactic(auto, using(crate::proofs::CallLemmas::fields_are))]
fn tuple_of(
    alloc: Global,
    place: Place,
    ty: &Ty,
    fields: &[Field],
    trees: &[Expr],
    nodes: Vec<CoreExpr>,
) -> Verdict<CoreExpr>
    ensures value { Judges node_of result
        (tuple_of place (seen ty.now) (fields_of (each seen_field fields.now)) (exps_of (each tree_of trees.now))
        (nodes_of (each node_of nodes.items))) }
{
    agree(Asks::Fields(fields), trees, nodes.as_slice())?;
    counted(fields.len(), trees, place)?;
    let ty = copy_ty(alloc, ty)?;
    let form = Form::tuple(nodes);
    Ok(CoreExpr { place, ty, form })
}

// A tuple or a message of this type with these fields.
fn made_tuple(
    alloc: Global,
    place: Place,
    ty: &Ty,
    fields: &[Field],
    trees: &[Expr],
    nodes: Vec<CoreExpr>,
) -> Verdict<CoreExpr>
    ensures value { Judges node_of result
        (made_tuple place (seen ty.now) (fields_of (each seen_field fields.now)) (exps_of (each tree_of trees.now))
        (nodes_of (each node_of nodes.items))) }
{
    if trees.is_empty() {
        Err(JudgeError::at(Cause::WrongType, place))
    } else {
        tuple_of(alloc, place, ty, fields, trees, nodes)
    }
}

// An array of elements of this type.
fn made_array(
    alloc: Global,
    place: Place,
    element: &Ty,
    trees: &[Expr],
    nodes: Vec<CoreExpr>,
) -> Verdict<CoreExpr>
    ensures value { Judges node_of result
        (made_array place (seen element.now) (exps_of (each tree_of trees.now)) (nodes_of (each node_of nodes.items))) }
{
    agree(Asks::Each(element), trees, nodes.as_slice())?;
    let ty = Ty::Array(Box::new(alloc, copy_ty(alloc, element)?)?);
    let form = Form::array(nodes);
    Ok(CoreExpr { place, ty, form })
}

// A composite without a colon.
pub fn made_list(
    alloc: Global,
    place: Place,
    asked: Option<&Ty>,
    trees: &[Expr],
    nodes: Vec<CoreExpr>,
) -> Verdict<CoreExpr>
    ensures value { Judges node_of result
        (made_list place (asked_of asked.entry) (exps_of (each tree_of trees.now)) (nodes_of (each node_of nodes.items))) }
{
    let Some(ty) = asked else {
        return Err(JudgeError::at(Cause::NoType, place));
    };
    match type_kind(ty) {
        Kind::Array(element) => made_array(alloc, place, element, trees, nodes),
        Kind::Tuple(fields) | Kind::Proto(fields) => {
            made_tuple(alloc, place, ty, fields, trees, nodes)
        }
        _ => Err(JudgeError::at(Cause::WrongType, place)),
    }
}

// What a composite with colons asks of its keys.
pub fn asked_of_keys(asked: Option<&Ty>) -> Option<&Ty>
    ensures value { asked_of result ≡ asked_of_keys (asked_of asked.entry) }
{
    match type_kind(asked?) {
        Kind::Map(key, _) => Some(key),
        _ => None,
    }
}

// What it asks of its values.
pub fn asked_of_values(asked: Option<&Ty>) -> Option<&Ty>
    ensures value { asked_of result ≡ asked_of_values (asked_of asked.entry) }
{
    match type_kind(asked?) {
        Kind::Map(_, value) => Some(value),
        _ => None,
    }
}

// A composite with colons.
pub fn made_mapping(
    alloc: Global,
    place: Place,
    asked: Option<&Ty>,
    trees: &[Pair],
    nodes: Vec<CorePair>,
) -> Verdict<CoreExpr>
    ensures value { Judges node_of result
        (made_mapping place (asked_of asked.entry) (pairs_of (each pair_of trees.now))
        (pairings_of (each pairing_of nodes.items))) }
{
    let Some(ty) = asked else {
        return Err(JudgeError::at(Cause::NoType, place));
    };
    let Kind::Map(key, value) = type_kind(ty) else {
        return Err(JudgeError::at(Cause::WrongType, place));
    };
    pairs_agree(key, value, trees, nodes.as_slice())?;
    let ty = copy_ty(alloc, ty)?;
    let form = Form::map(nodes);
    Ok(CoreExpr { place, ty, form })
}
