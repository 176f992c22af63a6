//! The parts of an expression, in reading order.
ghost use Rattle.std.specs.Prelude.{◌≡◌, ◌++◌, map as each, IfOk, OnOk};
ghost use Rattle.sz_tree.specs.Expressions.{exps_of, pairs_of};
ghost use Rattle.sz_tree.specs.View.{tree_of, pair_of};
ghost use Rattle.sz_quant.specs.Parts.{parts, parts_of, parts_in};
ghost use Rattle.sz_quant.specs.Seen.{seen_ref};

use std::alloc::{AllocError, Global};
use sz_tree::{Expr, Pair};

// The parts of the expression in reading order, itself the first.
pub fn parts(alloc: Global, tree: &Expr) -> Result<Vec<&Expr>, AllocError>
    ensures value { IfOk result (λ made. each seen_ref made.items ≡ parts (tree_of tree.now)) }
{
    let mut made = Vec::new(alloc);
    add_parts(tree, &mut made)?;
    Ok(made)
}

// Appends the parts of the expression.
#[cycle(parts)]
fn add_parts<'t>(tree: &'t Expr, made: &mut Vec<&'t Expr>) -> Result<(), AllocError>
    ensures ok { OnOk result (each seen_ref made.new.items ≡ each seen_ref made.old.items ++ parts (tree_of tree.now)) }
{
    made.push(tree)?;
    match tree {
        Expr::Literal(_, _) | Expr::Named(_) => Ok(()),
        Expr::Call(_, items) => add_all_parts(items.as_slice(), made),
        Expr::List(_, items) => add_all_parts(items.as_slice(), made),
        Expr::Map(_, pairs) => add_pair_parts(pairs.as_slice(), made),
        Expr::Def(_, part) => add_parts(part, made),
        Expr::Paren(_, part) => add_parts(part, made),
        Expr::Convert(_, _, part) => add_parts(part, made),
        Expr::Field(_, part, _) => add_parts(part, made),
        Expr::Unary(_, _, part) => add_parts(part, made),
        Expr::Index(_, base, at) => {
            add_parts(base, made)?;
            add_parts(at, made)
        }
        Expr::Binary(_, _, left, right) => {
            add_parts(left, made)?;
            add_parts(right, made)
        }
        Expr::Slice(_, base, from, to) => {
            add_parts(base, made)?;
            add_parts(from, made)?;
            add_parts(to, made)
        }
    }
}

// Appends the parts of each of the expressions.
#[cycle(parts)]
fn add_all_parts<'t>(trees: &'t [Expr], made: &mut Vec<&'t Expr>) -> Result<(), AllocError>
    ensures ok { OnOk result (each seen_ref made.new.items ≡ each seen_ref made.old.items ++ parts_of (exps_of (each tree_of trees.now))) }
{
    for tree in trees {
        add_parts(tree, made)?;
    }
    Ok(())
}

// Appends the parts of each key and of its value.
#[cycle(parts)]
fn add_pair_parts<'t>(pairs: &'t [Pair], made: &mut Vec<&'t Expr>) -> Result<(), AllocError>
    ensures ok { OnOk result (each seen_ref made.new.items ≡ each seen_ref made.old.items ++ parts_in (pairs_of (each pair_of pairs.now))) }
{
    for pair in pairs {
        add_parts(&pair.key, made)?;
        add_parts(&pair.value, made)?;
    }
    Ok(())
}
