//! Nodes that begin where their first part begins.
ghost use Rattle.std.specs.Prelude.{Some as Just};
ghost use Rattle.sz_tree.specs.Expressions.{place_of, binary as binary_tree, index as index_tree, slice as slice_tree, field as field_tree};
ghost use Rattle.sz_tree.specs.View.{tree_of};
ghost use Rattle.sz_parse_expr.specs.Outcome.{Gives};

use crate::failed::Failed;
use std::alloc::Global;
use sz_tree::{BinaryOp, Expr, Name};

// An operator with its operands.
pub fn joined(alloc: Global, op: BinaryOp, left: Expr, right: Expr) -> Result<Expr, Failed>
    ensures value { Gives tree_of result (Just (binary_tree (place_of (tree_of left)) op (tree_of left) (tree_of right))) }
{
    let place = left.place();
    let left = Box::new(alloc, left)?;
    let right = Box::new(alloc, right)?;
    Ok(Expr::Binary(place, op, left, right))
}

// An index of an expression.
pub fn indexed(alloc: Global, left: Expr, at: Expr) -> Result<Expr, Failed>
    ensures value { Gives tree_of result (Just (index_tree (place_of (tree_of left)) (tree_of left) (tree_of at))) }
{
    let place = left.place();
    let left = Box::new(alloc, left)?;
    let at = Box::new(alloc, at)?;
    Ok(Expr::Index(place, left, at))
}

// A slice of an expression.
pub fn sliced(alloc: Global, left: Expr, from: Expr, to: Expr) -> Result<Expr, Failed>
    ensures value { Gives tree_of result (Just (slice_tree (place_of (tree_of left)) (tree_of left) (tree_of from) (tree_of to))) }
{
    let place = left.place();
    let left = Box::new(alloc, left)?;
    let from = Box::new(alloc, from)?;
    let to = Box::new(alloc, to)?;
    Ok(Expr::Slice(place, left, from, to))
}

// A field of an expression.
pub fn field(alloc: Global, left: Expr, name: Name) -> Result<Expr, Failed>
    ensures value { Gives tree_of result (Just (field_tree (place_of (tree_of left)) (tree_of left) name)) }
{
    let place = left.place();
    let left = Box::new(alloc, left)?;
    Ok(Expr::Field(place, left, name))
}
