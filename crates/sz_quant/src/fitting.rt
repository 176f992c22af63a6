//! Which part of a condition bounds a variable.
ghost use Rattle.std.specs.Prelude.{◌≡◌, map as each, IfOk};
ghost use Rattle.std.specs.List.{list_any};
ghost use Rattle.std.specs.Option.{option_map};
ghost use Rattle.sz_tree.specs.View.{tree_of};
ghost use Rattle.sz_quant.specs.Fitting.{is_first, has_name, is_one_of, names_one_of, unnamed, fit, first_fit};
ghost use Rattle.sz_quant.specs.Seen.{bound_of, seen_ref};

use crate::bound::Bound;
use crate::copying::copy;
use crate::parts::parts;
use std::alloc::{AllocError, Global};
use sz_tree::{Expr, Name};
use sz_types::Text;

// The first of the parts that fits the first of the variables, as its bound.
pub fn first_fit(
    alloc: Global,
    parts: &[&Expr],
    variables: &[Text],
) -> Result<Option<Bound>, AllocError>
    ensures value { IfOk result (λ found. option_map bound_of found ≡ first_fit variables.now (each seen_ref parts.now)) }
{
    for part in parts {
        if let Some(bound) = fit(alloc, part, variables)? {
            return Ok(Some(bound));
        }
    }
    Ok(None)
}

// The part as the bound of the first of the variables, where it fits it.
fn fit(alloc: Global, part: &Expr, variables: &[Text]) -> Result<Option<Bound>, AllocError>
    ensures value { IfOk result (λ found. option_map bound_of found ≡ fit variables.now (tree_of part.now)) }
{
    match part {
        Expr::Index(_, base, at) if is_first(at, variables) => {
            unnamed(alloc, base, false, variables)
        }
        Expr::Slice(_, base, from, to) if is_first(from, variables) || is_first(to, variables) => {
            unnamed(alloc, base, true, variables)
        }
        _ => Ok(None),
    }
}

// The bound with this base, where that names none of the variables.
fn unnamed(
    alloc: Global,
    base: &Expr,
    slice: bool,
    variables: &[Text],
) -> Result<Option<Bound>, AllocError>
    ensures value { IfOk result (λ found. option_map bound_of found ≡ unnamed variables.now (tree_of base.now) slice) }
{
    if names_one_of(alloc, base, variables)? {
        return Ok(None);
    }
    let base = copy(alloc, base)?;
    Ok(Some(Bound { base, slice }))
}

// Whether one of the variables is named in the expression.
fn names_one_of(alloc: Global, tree: &Expr, variables: &[Text]) -> Result<bool, AllocError>
    ensures value { IfOk result (λ found. found ≡ names_one_of variables.now (tree_of tree.now)) }
{
    let parts = parts(alloc, tree)?;
    Ok(has_one_of(&parts, variables))
}

// Whether one of the parts is one of the variables, or a call by its name.
fn has_one_of(parts: &[&Expr], variables: &[Text]) -> bool
    ensures value { result ≡ list_any (is_one_of variables.now) (each seen_ref parts.now) }
{
    for part in parts {
        if is_one_of(part, variables) {
            return true;
        }
    }
    false
}

// Whether the expression is a name or a call, and its name is one of the variables.
fn is_one_of(tree: &Expr, variables: &[Text]) -> bool
    ensures value { result ≡ is_one_of variables.now (tree_of tree.now) }
{
    match tree {
        Expr::Named(name) | Expr::Call(name, _) => has(variables, name),
        _ => false,
    }
}

// Whether the name is one of the variables.
fn has(variables: &[Text], name: &Name) -> bool
    ensures value { result ≡ has_name name.now.text variables.now }
{
    for variable in variables {
        if variable.as_bytes() == name.text().as_bytes() {
            return true;
        }
    }
    false
}

// Whether the expression is the first of the variables, alone.
fn is_first(tree: &Expr, variables: &[Text]) -> bool
    ensures value { result ≡ is_first variables.now (tree_of tree.now) }
{
    match tree {
        Expr::Named(name) => match variables.first() {
            Some(variable) => variable.as_bytes() == name.text().as_bytes(),
            None => false,
        },
        _ => false,
    }
}
