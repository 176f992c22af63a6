//! Copies of expressions.
ghost use Rattle.std.specs.Prelude.{◌≡◌, map as each, IfOk};
ghost use Rattle.sz_tree.specs.View.{literal_of, tree_of, pair_of};

use std::alloc::{AllocError, Global};
use sz_tree::{Expr, Literal, Name, Pair};
use sz_types::Text;

// A copy of the expression.
#[cycle(copy)]
pub fn copy(alloc: Global, tree: &Expr) -> Result<Expr, AllocError>
    ensures value { IfOk result (λ made. tree_of made ≡ tree_of tree.now) }
{
    match tree {
        Expr::Literal(place, literal) => Ok(Expr::Literal(*place, copy_literal(alloc, literal)?)),
        Expr::Named(name) => Ok(Expr::Named(copy_name(alloc, name)?)),
        Expr::Call(name, items) => {
            let name = copy_name(alloc, name)?;
            Ok(Expr::call(name, copy_all(alloc, items.as_slice())?))
        }
        Expr::Def(place, part) => Ok(Expr::Def(*place, copy_part(alloc, part)?)),
        Expr::Paren(place, part) => Ok(Expr::Paren(*place, copy_part(alloc, part)?)),
        Expr::Convert(place, to, part) => Ok(Expr::Convert(*place, *to, copy_part(alloc, part)?)),
        Expr::List(place, items) => Ok(Expr::list(*place, copy_all(alloc, items.as_slice())?)),
        Expr::Map(place, pairs) => Ok(Expr::map(*place, copy_pairs(alloc, pairs.as_slice())?)),
        Expr::Index(place, base, at) => {
            let base = copy_part(alloc, base)?;
            Ok(Expr::Index(*place, base, copy_part(alloc, at)?))
        }
        Expr::Slice(place, base, from, to) => {
            let base = copy_part(alloc, base)?;
            let from = copy_part(alloc, from)?;
            Ok(Expr::Slice(*place, base, from, copy_part(alloc, to)?))
        }
        Expr::Field(place, part, name) => {
            let part = copy_part(alloc, part)?;
            Ok(Expr::Field(*place, part, copy_name(alloc, name)?))
        }
        Expr::Unary(place, op, part) => Ok(Expr::Unary(*place, *op, copy_part(alloc, part)?)),
        Expr::Binary(place, op, left, right) => {
            let left = copy_part(alloc, left)?;
            Ok(Expr::Binary(*place, *op, left, copy_part(alloc, right)?))
        }
    }
}

// A copy of the expression, as a part of another.
#[cycle(copy)]
fn copy_part(alloc: Global, tree: &Expr) -> Result<Box<Expr>, AllocError>
    ensures value { IfOk result (λ made. tree_of made.value ≡ tree_of tree.now) }
{
    Ok(Box::new(alloc, copy(alloc, tree)?)?)
}

// A copy of the expressions.
#[cycle(copy)]
fn copy_all(alloc: Global, trees: &[Expr]) -> Result<Vec<Expr>, AllocError>
    ensures value { IfOk result (λ made. each tree_of made.items ≡ each tree_of trees.now) }
{
    let mut made = Vec::with_capacity(alloc, trees.len())?;
    for tree in trees {
        made.push(copy(alloc, tree)?)?;
    }
    Ok(made)
}

// A copy of the keys and their values.
#[cycle(copy)]
fn copy_pairs(alloc: Global, pairs: &[Pair]) -> Result<Vec<Pair>, AllocError>
    ensures value { IfOk result (λ made. each pair_of made.items ≡ each pair_of pairs.now) }
{
    let mut made = Vec::with_capacity(alloc, pairs.len())?;
    for pair in pairs {
        made.push(copy_pair(alloc, pair)?)?;
    }
    Ok(made)
}

// A copy of a key and its value.
#[cycle(copy)]
fn copy_pair(alloc: Global, pair: &Pair) -> Result<Pair, AllocError>
    ensures value { IfOk result (λ made. pair_of made ≡ pair_of pair.now) }
{
    let key = copy(alloc, &pair.key)?;
    let value = copy(alloc, &pair.value)?;
    Ok(Pair { key, value })
}

// A copy of the literal.
fn copy_literal(alloc: Global, literal: &Literal) -> Result<Literal, AllocError>
    ensures value { IfOk result (λ made. literal_of made ≡ literal_of literal.now) }
{
    match literal {
        Literal::Number(number) => Ok(Literal::Number(*number)),
        Literal::Str(text) => Ok(Literal::Str(Text::from_str(alloc, text.as_str())?)),
        Literal::Bytes(bytes) => Ok(Literal::Bytes(Vec::from_slice(alloc, bytes.as_slice())?)),
        Literal::Character(character) => Ok(Literal::Character(*character)),
        Literal::Bool(truth) => Ok(Literal::Bool(*truth)),
    }
}

// A copy of the name, at its place.
fn copy_name(alloc: Global, name: &Name) -> Result<Name, AllocError>
    ensures value { IfOk result (λ made. made ≡ name.now) }
{
    let text = Text::from_str(alloc, name.text().as_str())?;
    Ok(Name::new(name.place(), text))
}
