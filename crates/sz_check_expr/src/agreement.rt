//! Whether expressions have the types that a place asks of them.
ghost use Rattle.std.specs.Prelude.{map as each};
ghost use Rattle.sz_types.specs.Seen.{seen};
ghost use Rattle.sz_tree.specs.Expressions.{exps_of, pairs_of};
ghost use Rattle.sz_tree.specs.View.{tree_of, pair_of};
ghost use Rattle.sz_core.specs.Nodes.{nodes_of, pairings_of};
ghost use Rattle.sz_core.specs.View.{node_of, pairing_of};
ghost use Rattle.sz_check_rules.specs.Agreeing.{agrees, agree, pairs_agree, counted, converted};
ghost use Rattle.sz_check_expr.specs.Asking.{asks_of, asked_of};
ghost use Rattle.sz_check_expr.specs.Calling.{fits};
ghost use Rattle.sz_check_names.specs.Outcome.{Judges};

use crate::asks::Asks;
use crate::path::conversion_node;
use crate::rows::alike;
use std::alloc::Global;
use sz_check_names::{Cause, JudgeError, Verdict};
use sz_core::{CoreExpr, CorePair};
use sz_tree::{Expr, Pair};
use sz_types::{Place, Ty, copy_ty};

// Nothing is refused where the test holds; else the expression has the wrong type.
pub fn fits(holds: bool, tree: &Expr) -> Verdict<()>
    ensures value { Judges (λ x. x) result (fits holds (tree_of tree.now)) }
{
    if holds {
        Ok(())
    } else {
        Err(JudgeError::at(Cause::WrongType, tree.place()))
    }
}

/// The expression has the type that is asked, if one is; else a wrong type, at the expression.
pub fn agrees(asked: Option<&Ty>, tree: &Expr, node: &CoreExpr) -> Verdict<()>
    ensures value { Judges (λ x. x) result (agrees (asked_of asked.entry) (tree_of tree.now) (node_of node.now)) }
{
    match asked {
        Some(ty) => fits(alike(&node.ty, ty), tree),
        None => Ok(()),
    }
}

/// Each expression has the type that is asked of it, as far as types are asked; else a wrong type, at the first that hasn't.
pub fn agree(asks: Asks<'_>, trees: &[Expr], nodes: &[CoreExpr]) -> Verdict<()>
    ensures value { Judges (λ x. x) result
        (agree (asks_of asks.entry) (exps_of (each tree_of trees.now)) (nodes_of (each node_of nodes.now))) }
{
    let mut asks = asks;
    for i in 0..trees.len().min(nodes.len()) {
        agrees(asks.first(), &trees[i], &nodes[i])?;
        asks = asks.following();
    }
    Ok(())
}

// The same of keys and values.
pub fn pairs_agree(key: &Ty, value: &Ty, trees: &[Pair], nodes: &[CorePair]) -> Verdict<()>
    ensures value { Judges (λ x. x) result
        (pairs_agree (seen key.now) (seen value.now) (pairs_of (each pair_of trees.now))
        (pairings_of (each pairing_of nodes.now))) }
{
    for i in 0..trees.len().min(nodes.len()) {
        let (tree, node) = (&trees[i], &nodes[i]);
        agrees(Some(key), &tree.key, &node.key)?;
        agrees(Some(value), &tree.value, &node.value)?;
    }
    Ok(())
}

/// There are just so many expressions; else a wrong count, at the place.
#[tactic(auto, using(crate::proofs::ListLemmas::count_is))]
pub fn counted(count: usize, trees: &[Expr], place: Place) -> Verdict<()>
    ensures value { Judges (λ x. x) result (counted count (exps_of (each tree_of trees.now)) place) }
{
    if trees.len() == count {
        Ok(())
    } else {
        Err(JudgeError::at(Cause::WrongCount, place))
    }
}

/// A value of the type that a declaration has: as it is, or converted; else a wrong type, at the value.
pub fn converted(alloc: Global, ty: &Ty, tree: &Expr, node: CoreExpr) -> Verdict<CoreExpr>
    ensures value { Judges node_of result (converted (seen ty.now) (tree_of tree.now) (node_of node)) }
{
    if alike(&node.ty, ty) {
        Ok(node)
    } else {
        let node = Box::new(alloc, node)?;
        conversion_node(tree.place(), copy_ty(alloc, ty)?, tree, node)
    }
}
