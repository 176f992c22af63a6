//! Names as values, and calls.
ghost use Rattle.std.specs.Prelude.{◌≡◌, map as each};
ghost use Rattle.sz_types.specs.Seen.{seen};
ghost use Rattle.sz_tree.specs.Expressions.{exps_of, more};
ghost use Rattle.sz_types.specs.declared.operator.Builtin.TheVariants.{HasKey, StrFind};
ghost use Rattle.sz_tree.specs.View.{tree_of};
ghost use Rattle.sz_core.specs.Nodes.{nodes_of, with_node};
ghost use Rattle.sz_core.specs.View.{node_of, signature_of};
ghost use Rattle.sz_check_rules.specs.Agreeing.{arguments_fit};
ghost use Rattle.sz_types.specs.Rows.{arity};
ghost use Rattle.sz_check_rules.specs.JudgingExpressions.{variable_node};
ghost use Rattle.sz_check_rules.specs.JudgingCalls.{callee_of, asks_of_callee, declared_call, predeclared_call, conversion_call, made_call};
ghost use Rattle.sz_check_expr.specs.Asking.{asks_of};
ghost use Rattle.sz_check_expr.specs.Calling.{callee_seen, first_converts, first_converted};
ghost use Rattle.sz_check_names.specs.Knowledge.{means_of};
ghost use Rattle.sz_check_names.specs.Outcome.{Judges};

use crate::agreement::{agree, counted, fits};
use crate::asks::Asks;
use crate::rows::{builtin_row, has_elements, has_keys_of, is_found_in, is_map, is_searched_for};
use std::alloc::Global;
use sz_check_names::{Cause, JudgeError, Means, Verdict};
use sz_core::{CoreExpr, Form, Signature};
use sz_tree::{Expr, Name};
use sz_types::{Builtin, Place, Ty, converts, copy_ty};

// A name as a value.
pub fn variable_node(alloc: Global, name: &Name, means: Means<'_>) -> Verdict<CoreExpr>
    ensures value { Judges node_of result (variable_node name.now (means_of means.entry)) }
{
    let (ty, form) = match means {
        Means::Variable(number, ty) | Means::Quantified(number, ty) => {
            (copy_ty(alloc, ty)?, Form::Local(number))
        }
        Means::Static(number, ty) => (copy_ty(alloc, ty)?, Form::Static(number)),
        Means::Input => (Ty::Bytes, Form::Input),
        _ => return Err(JudgeError::of(alloc, Cause::WrongKind, name)),
    };
    let place = name.place();
    Ok(CoreExpr { place, ty, form })
}

// What can be called: a declared function by its number, a predeclared one, or a type by whose name a value is converted.
#[derive(Drop)]
pub enum Callee<'k> {
    Declared(u32, &'k Signature),
    Predeclared(Builtin),
    Conversion(Ty),
}

// What the name calls.
pub fn callee_of<'k>(alloc: Global, name: &Name, means: Means<'k>) -> Verdict<Callee<'k>>
    ensures value { Judges callee_seen result (callee_of name.now (means_of means.entry)) }
{
    match means {
        Means::Function(number, signature) => Ok(Callee::Declared(number, signature)),
        Means::Predeclared(builtin) => Ok(Callee::Predeclared(builtin)),
        Means::Type(named) => Ok(Callee::Conversion(named.write_out()?)),
        _ => Err(JudgeError::of(alloc, Cause::WrongKind, name)),
    }
}

// What a callee asks of its arguments.
pub fn asks_of_callee<'k>(callee: &Callee<'k>) -> Asks<'k>
    ensures value { asks_of result ≡ asks_of_callee (callee_seen callee.now) }
{
    match callee {
        Callee::Declared(_, signature) => Asks::Types(signature.parameters.as_slice()),
        _ => Asks::Nothing,
    }
}

// How many arguments a predeclared function has.
fn arity(function: Builtin) -> usize
    ensures value { result ≡ arity function }
{
    match function {
        Builtin::Len | Builtin::Keys => 1,
        Builtin::HasKey | Builtin::StrFind => 2,
    }
}

// The arguments of `haskey`, the first of which is there.
fn key_fits(tree: &Expr, trees: &[Expr], node: &CoreExpr, nodes: &[CoreExpr]) -> Verdict<()>
    ensures value { Judges (λ x. x) result
        (arguments_fit HasKey (more (tree_of tree.now) (exps_of (each tree_of trees.now)))
        (with_node (node_of node.now) (nodes_of (each node_of nodes.now)))) }
{
    let [second, ..] = trees else {
        return fits(is_map(&node.ty), tree);
    };
    let [key, ..] = nodes else {
        return Ok(());
    };
    fits(is_map(&node.ty), tree)?;
    fits(has_keys_of(&node.ty, &key.ty), second)
}

// The arguments of `strfind`, the first of which is there.
fn part_fits(tree: &Expr, trees: &[Expr], node: &CoreExpr, nodes: &[CoreExpr]) -> Verdict<()>
    ensures value { Judges (λ x. x) result
        (arguments_fit StrFind (more (tree_of tree.now) (exps_of (each tree_of trees.now)))
        (with_node (node_of node.now) (nodes_of (each node_of nodes.now)))) }
{
    let [second, ..] = trees else {
        return fits(is_searched_for(&node.ty), tree);
    };
    let [searched, ..] = nodes else {
        return Ok(());
    };
    fits(is_searched_for(&node.ty), tree)?;
    fits(is_found_in(&node.ty, &searched.ty), second)
}

// The arguments of a predeclared function have types that it takes, as far as they are there.
fn arguments_fit(function: Builtin, trees: &[Expr], nodes: &[CoreExpr]) -> Verdict<()>
    ensures value { Judges (λ x. x) result (arguments_fit function (exps_of (each tree_of trees.now)) (nodes_of (each node_of nodes.now))) }
{
    let [tree, trees @ ..] = trees else {
        return Ok(());
    };
    let [node, nodes @ ..] = nodes else {
        return Ok(());
    };
    match function {
        Builtin::Len => fits(has_elements(&node.ty), tree),
        Builtin::Keys => fits(is_map(&node.ty), tree),
        Builtin::HasKey => key_fits(tree, trees, node, nodes),
        Builtin::StrFind => part_fits(tree, trees, node, nodes),
    }
}

// A call of a declared function: the types of the arguments, their number, and then whether an emit may happen here.
fn declared_call(
    alloc: Global,
    may_emit: bool,
    name: &Name,
    number: u32,
    signature: &Signature,
    trees: &[Expr],
    nodes: Vec<CoreExpr>,
) -> Verdict<CoreExpr>
    ensures value { Judges node_of result
        (declared_call may_emit name.now number (signature_of signature.now) (exps_of (each tree_of trees.now))
        (nodes_of (each node_of nodes.items))) }
{
    let place = name.place();
    let parameters = signature.parameters.as_slice();
    agree(Asks::Types(parameters), trees, nodes.as_slice())?;
    counted(parameters.len(), trees, place)?;
    if signature.emits && !may_emit {
        return Err(JudgeError::at(Cause::EmitHere, place));
    }
    let ty = copy_ty(alloc, &signature.result)?;
    let form = Form::call(number, nodes);
    Ok(CoreExpr { place, ty, form })
}

// A call of a predeclared function, which gives a type where the arguments are as it takes them.
fn predeclared_call(
    alloc: Global,
    name: &Name,
    function: Builtin,
    trees: &[Expr],
    nodes: Vec<CoreExpr>,
) -> Verdict<CoreExpr>
    ensures value { Judges node_of result
        (predeclared_call name.now function (exps_of (each tree_of trees.now)) (nodes_of (each node_of nodes.items))) }
{
    let place = name.place();
    arguments_fit(function, trees, nodes.as_slice())?;
    counted(arity(function), trees, place)?;
    match builtin_row(alloc, function, nodes.as_slice())? {
        Some(ty) => {
            let form = Form::builtin(function, nodes);
            Ok(CoreExpr { place, ty, form })
        }
        None => Err(JudgeError::at(Cause::WrongCount, place)),
    }
}

// The first argument converts to the type, and is the only one.
fn first_converts(
    place: Place,
    ty: &Ty,
    trees: &[Expr],
    nodes: &[CoreExpr],
    is_single: bool,
) -> Verdict<()>
    ensures value { Judges (λ x. x) result
        (first_converts place (seen ty.now) (exps_of (each tree_of trees.now)) (nodes_of (each node_of nodes.now)) is_single) }
{
    let [tree, ..] = trees else {
        return Err(JudgeError::at(Cause::WrongCount, place));
    };
    let [node, ..] = nodes else {
        return Err(JudgeError::at(Cause::WrongCount, place));
    };
    fits(converts(&node.ty, ty), tree)?;
    if is_single {
        Ok(())
    } else {
        Err(JudgeError::at(Cause::WrongCount, place))
    }
}

// The first of these, converted to the type.
fn first_converted(alloc: Global, place: Place, ty: Ty, nodes: Vec<CoreExpr>) -> Verdict<CoreExpr>
    ensures value { Judges node_of result (first_converted place (seen ty) (nodes_of (each node_of nodes.items))) }
{
    match nodes.into_iter().next() {
        Some(node) => {
            let form = Form::Convert(Box::new(alloc, node)?);
            Ok(CoreExpr { place, ty, form })
        }
        None => Err(JudgeError::at(Cause::WrongCount, place)),
    }
}

// A conversion by the name of a type.
#[tactic(auto, using(crate::proofs::CallLemmas::conversion_is, crate::proofs::CallLemmas::one_is, crate::proofs::CallLemmas::one_node_is))]
fn conversion_call(
    alloc: Global,
    name: &Name,
    ty: Ty,
    trees: &[Expr],
    nodes: Vec<CoreExpr>,
) -> Verdict<CoreExpr>
    ensures value { Judges node_of result
        (conversion_call name.now (seen ty) (exps_of (each tree_of trees.now)) (nodes_of (each node_of nodes.items))) }
{
    let place = name.place();
    let is_single = trees.len() == 1 && nodes.len() == 1;
    first_converts(place, &ty, trees, nodes.as_slice(), is_single)?;
    first_converted(alloc, place, ty, nodes)
}

// A call, once its arguments are judged.
pub fn made_call(
    alloc: Global,
    may_emit: bool,
    name: &Name,
    callee: Callee<'_>,
    trees: &[Expr],
    nodes: Vec<CoreExpr>,
) -> Verdict<CoreExpr>
    ensures value { Judges node_of result
        (made_call may_emit name.now (callee_seen callee.entry) (exps_of (each tree_of trees.now))
        (nodes_of (each node_of nodes.items))) }
{
    match callee {
        Callee::Declared(number, signature) => {
            declared_call(alloc, may_emit, name, number, signature, trees, nodes)
        }
        Callee::Predeclared(function) => predeclared_call(alloc, name, function, trees, nodes),
        Callee::Conversion(ty) => conversion_call(alloc, name, ty, trees, nodes),
    }
}
