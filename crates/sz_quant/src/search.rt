//! The bounds of all variables.
ghost use Rattle.std.specs.Prelude.{◌≡◌, ◌≤◌, ◌^◌, ℕ, map as each, length, drop, IfOk, OnErr, Some, Err};
ghost use Rattle.std.specs.List.{position};
ghost use Rattle.std.specs.Option.{is_none};
ghost use Rattle.sz_tree.specs.View.{tree_of};
ghost use Rattle.sz_quant.specs.Fitting.{bounds_of};
ghost use Rattle.sz_quant.specs.Seen.{bound_of};
ghost use Rattle.sz_quant.specs.declared.error.BoundsError.TheVariants.{Unbounded};

use crate::bound::{Bounds, Names};
use crate::error::BoundsError;
use crate::fitting::first_fit;
use crate::parts::parts;
use std::alloc::{AllocError, Global};
use sz_tree::Expr;
use sz_types::Text;

/// The bounds of the variables: of each the first part of the condition, in reading order, that fits it.
pub fn bounds(alloc: Global, names: &Names, condition: &Expr) -> Result<Bounds, BoundsError>
    // Each variable has the bound that is found.
    ensures value { IfOk result (λ bounds. bounds_of names.now (tree_of condition.now) ≡ each Some (each bound_of bounds)) }

    // The first variable that has none is the one that is named.
    ensures unbounded { (number : ℕ) → result ≡ Err (Unbounded number) → position is_none (bounds_of names.now (tree_of condition.now)) ≡ Some number }
{
    let parts = parts(alloc, condition)?;
    let mut found = Vec::new(alloc);
    for number in 0..names.len() {
        match first_fit(alloc, &parts, variables_from(names, number))? {
            Some(bound) => found.push(bound)?,
            None => return Err(BoundsError::Unbounded(small(number)?)),
        }
    }
    Ok(Bounds::from_vec(found))
}

// The variables from this number on.
fn variables_from(names: &Names, number: usize) -> &[Text]
    requires within { number ≤ length names.now }
    ensures value { result.now ≡ drop number names.now }
{
    &names.as_slice()[number..]
}

// The number in 32 bits. One that needs more counts as no memory: no program has so many variables.
fn small(number: usize) -> Result<u32, AllocError>
    ensures value { IfOk result (λ made. made ≡ number) }
    ensures too_large { OnErr result (2 ^ 32 ≤ number) }
{
    match u32::try_from(number) {
        Ok(number) => Ok(number),
        Err(_) => Err(AllocError),
    }
}
