//! The variables of a `when`.
ghost use Rattle.std.specs.Prelude.{◌≡◌, ◌∷◌, [], false, IfOk, map as each};
ghost use Rattle.sz_types.specs.Seen.{seen};
ghost use Rattle.sz_tree.specs.View.{tree_of, quantifier_of};
ghost use Rattle.sz_quant.specs.Fitting.{bounds_of as bound_forms};
ghost use Rattle.sz_quant.specs.Seen.{bound_of};
ghost use Rattle.sz_core.specs.Sound.{candidate_type};
ghost use Rattle.sz_core.specs.View.{node_of, quantity_of, quantified_of};
ghost use Rattle.sz_check_names.specs.Knowledge.{blocks_of, outside_of, scene_of};
ghost use Rattle.sz_check_names.specs.Outcome.{Judges};
ghost use Rattle.sz_check_rules.specs.Quantifying.{judge_names, judge_quantifier, judge_quantifiers, judge_front, bind, bind_inside, judge_bound};
ghost use Rattle.sz_check_rules.specs.Quantifying.{names_of, all_bounded, may_follow, all_last, are_of, checked, judge_base, judge_bases, quantify};
ghost use Rattle.sz_check_rules.specs.JudgingStatements.{judge_quantified};
ghost use Rattle.sz_check.specs.Quantified.{variable_of, declared_of, front_of, based_of};

use std::alloc::{AllocError, Global};
use sz_check_emits::is_seen_inside;
use sz_check_expr::{alike, judge_exp, test};
use sz_check_names::{Cause, JudgeError, Known, Meaning, Site, Verdict, judge_type};
use sz_core::{CoreExpr, CoreQuantity, Quantified};
use sz_list::Items;
use sz_quant::{Bound, Bounds, BoundsError, Names, bounds};
use sz_tree::{Expr, Name, Quantifier, Quantity};
use sz_types::{Kind, Text, Ty, copy_ty, type_kind};

// A variable of a `when`: its name, how it is quantified, its number and its type.
#[derive(Drop)]
pub struct Variable<'t> {
    pub name: &'t Name,
    pub quantity: Quantity,
    pub local: u32,
    pub ty: Ty,
}

// The variables of a `when`, and its condition.
#[derive(Drop)]
pub struct Front<'t> {
    pub variables: Vec<Variable<'t>>,
    pub condition: CoreExpr,
}

// Declares a variable after those that are declared by now.
fn judge_name<'t>(
    known: &mut Known,
    quantity: Quantity,
    ty: &Ty,
    name: &'t Name,
    variables: &mut Vec<Variable<'t>>,
) -> Verdict<()>
    ensures value { Judges (λ _. declared_of known.new variables.new.items) result
        (judge_names quantity (seen ty.now) (name.now ∷ []) (declared_of known.old variables.old.items)) }
    ensures outside { known.new.outside ≡ known.old.outside }
{
    let alloc = known.alloc();
    let local = known.declare_quantified(name, copy_ty(alloc, ty)?)?;
    let ty = copy_ty(alloc, ty)?;
    variables.push(Variable {
        name,
        quantity,
        local,
        ty,
    })?;
    Ok(())
}

// Declares variables of one kind and type after those that are declared by now.
fn judge_names<'t>(
    known: &mut Known,
    quantity: Quantity,
    ty: &Ty,
    names: &'t [Name],
    variables: &mut Vec<Variable<'t>>,
) -> Verdict<()>
    ensures value { Judges (λ _. declared_of known.new variables.new.items) result
        (judge_names quantity (seen ty.now) names.now (declared_of known.old variables.old.items)) }
    ensures outside { IfOk result (λ _. known.new.outside ≡ known.old.outside) }
{
    for name in names {
        judge_name(known, quantity, ty, name, variables)?;
    }
    Ok(())
}

// Declares the variables of a quantifier after those that are declared by now.
fn judge_quantifier<'t>(
    known: &mut Known,
    quantifier: &'t Quantifier,
    variables: &mut Vec<Variable<'t>>,
) -> Verdict<()>
    ensures value { Judges (λ _. declared_of known.new variables.new.items) result
        (judge_quantifier (quantifier_of quantifier.now) (declared_of known.old variables.old.items)) }
    ensures outside { IfOk result (λ _. known.new.outside ≡ known.old.outside) }
{
    let ty = judge_type(known, &quantifier.of)?;
    let names = quantifier.names.as_slice();
    judge_names(known, quantifier.quantity, &ty, names, variables)
}

// Declares the variables of all quantifiers.
fn judge_quantifiers<'t>(
    known: &mut Known,
    quantifiers: &'t [Quantifier],
) -> Verdict<Vec<Variable<'t>>>
    ensures value { Judges (λ made. declared_of known.new made.items) result
        (judge_quantifiers (each quantifier_of quantifiers.now) (declared_of known.old [])) }
    ensures outside { IfOk result (λ _. known.new.outside ≡ known.old.outside) }
{
    let mut variables = Vec::new(known.alloc());
    for quantifier in quantifiers {
        judge_quantifier(known, quantifier, &mut variables)?;
    }
    Ok(variables)
}

// The variables and the condition of a `when`, in a block of their own.
pub fn judge_front<'t>(
    known: &mut Known,
    quantifiers: &'t [Quantifier],
    condition: &Expr,
) -> Verdict<Front<'t>>
    ensures value { Judges (λ f. front_of known.new f) result
        (judge_front (scene_of known.old) (each quantifier_of quantifiers.now) (tree_of condition.now)) }
    ensures outside { IfOk result (λ _. known.new.outside ≡ known.old.outside) }
{
    known.open()?;
    let variables = judge_quantifiers(known, quantifiers)?;
    let condition = judge_exp(known, Site::Condition, None, condition)?;
    known.close();
    Ok(Front {
        variables,
        condition,
    })
}

// A variable under its name, once it has a number.
fn bind(known: &mut Known, variable: &Variable<'_>) -> Verdict<()>
    ensures value { Judges (λ _. blocks_of known.new) result (bind (variable_of variable.now) (blocks_of known.old)) }
    ensures outside { known.new.outside ≡ known.old.outside }
    ensures locals { known.new.locals ≡ known.old.locals }
{
    let meaning = Meaning::Quantified(variable.local, copy_ty(known.alloc(), &variable.ty)?);
    known.declare(variable.name, meaning)
}

// The variable under its name, if the statement inside sees it.
fn bind_if_inside(known: &mut Known, variable: &Variable<'_>) -> Verdict<()>
    ensures value { Judges (λ _. blocks_of known.new) result (bind_inside (variable_of variable.now ∷ []) (blocks_of known.old)) }
    ensures outside { known.new.outside ≡ known.old.outside }
    ensures locals { known.new.locals ≡ known.old.locals }
{
    if is_seen_inside(variable.quantity) {
        bind(known, variable)
    } else {
        Ok(())
    }
}

// The variables that the statement inside sees, under their names.
fn bind_inside(known: &mut Known, variables: &[Variable<'_>]) -> Verdict<()>
    ensures value { Judges (λ _. blocks_of known.new) result (bind_inside (each variable_of variables.now) (blocks_of known.old)) }
    ensures outside { IfOk result (λ _. known.new.outside ≡ known.old.outside) }
    ensures locals { IfOk result (λ _. known.new.locals ≡ known.old.locals) }
{
    for variable in variables {
        bind_if_inside(known, variable)?;
    }
    Ok(())
}

// A block of the variables that the statement inside sees.
pub fn judge_bound(known: &mut Known, variables: &[Variable<'_>]) -> Verdict<()>
    ensures value { Judges (λ _. scene_of known.new) result (judge_bound (scene_of known.old) (each variable_of variables.now)) }
    ensures outside { IfOk result (λ _. known.new.outside ≡ outside_of known.old) }
{
    known.open()?;
    bind_inside(known, variables)
}

// The names of variables.
fn names_of(alloc: Global, variables: &[Variable<'_>]) -> Result<Names, AllocError>
    ensures value { IfOk result (λ made. made ≡ names_of (each variable_of variables.now)) }
{
    let mut names = Items::with_capacity(alloc, variables.len())?;
    for variable in variables {
        names.push(Text::from_str(alloc, variable.name.text().as_str())?)?;
    }
    Ok(names)
}

// The bounds of the variables, each of which must have one.
fn all_bounded(alloc: Global, variables: &[Variable<'_>], condition: &Expr) -> Verdict<Bounds>
    ensures value { Judges (λ found. each bound_of found) result
        (all_bounded (each variable_of variables.now) (bound_forms (names_of (each variable_of variables.now)) (tree_of condition.now))) }
{
    let names = names_of(alloc, variables)?;
    match bounds(alloc, &names, condition) {
        Ok(found) => Ok(found),
        Err(BoundsError::Unbounded(number)) => {
            Err(JudgeError::of(alloc, Cause::Unbounded, variables[number as usize].name))
        }
        Err(BoundsError::NoMemory) => Err(JudgeError::NoMemory),
    }
}

// Whether a variable speaks of all candidates, after one that does or doesn't.
fn may_follow(variable: &Variable<'_>, after: bool) -> Verdict<bool>
    ensures value { Judges (λ x. x) result (may_follow (variable_of variable.now) after) }
{
    if !is_seen_inside(variable.quantity) {
        Ok(true)
    } else if after {
        Err(JudgeError::at(Cause::QuantOrder, variable.name.place()))
    } else {
        Ok(false)
    }
}

// No variable of another kind stands after one that speaks of all candidates. Whether the last one does.
fn all_last(variables: &[Variable<'_>]) -> Verdict<bool>
    ensures value { Judges (λ x. x) result (all_last (each variable_of variables.now) false) }
{
    let mut after = false;
    for variable in variables {
        after = may_follow(variable, after)?;
    }
    Ok(after)
}

// Whether the candidates that a value of a type has are of the other type.
fn has_candidates(slice: bool, base: &Ty, ty: &Ty) -> bool
    ensures value { result ≡ are_of (candidate_type slice (seen base.now)) (seen ty.now) }
{
    match type_kind(base) {
        Kind::Array(_) | Kind::Str | Kind::Bytes => alike(&Ty::Int, ty),
        Kind::Map(key, _) if !slice => alike(key, ty),
        _ => false,
    }
}

// How a variable is quantified, in the checked tree.
fn checked(quantity: Quantity) -> CoreQuantity
    ensures value { quantity_of result ≡ checked quantity }
{
    match quantity {
        Quantity::Some => CoreQuantity::Some,
        Quantity::Each => CoreQuantity::Each,
        Quantity::All => CoreQuantity::All,
    }
}

// What a variable's candidates are made of, where the variables before it are seen, and then its name.
fn judge_base(known: &mut Known, variable: &Variable<'_>, bound: &Bound) -> Verdict<Quantified>
    ensures value { Judges (λ made. based_of known.new made) result
        (judge_base (blocks_of known.old) (variable_of variable.now) (bound_of bound.now)) }
    ensures outside { known.new.outside ≡ known.old.outside }
    ensures locals { known.new.locals ≡ known.old.locals }
{
    let base = judge_exp(known, Site::Condition, None, &bound.base)?;
    if !has_candidates(bound.slice, &base.ty, &variable.ty) {
        return Err(JudgeError::at(Cause::WrongType, variable.name.place()));
    }
    bind(known, variable)?;
    Ok(Quantified {
        quantity: checked(variable.quantity),
        local: variable.local,
        base,
        slice: bound.slice,
    })
}

// The same of all variables, in order.
fn judge_bases(
    known: &mut Known,
    variables: &[Variable<'_>],
    bounds: &[Bound],
) -> Verdict<Vec<Quantified>>
    ensures value { Judges (λ made. each quantified_of made.items) result
        (judge_bases (blocks_of known.old) (each variable_of variables.now) (each bound_of bounds.now)) }
    ensures outside { IfOk result (λ _. known.new.outside ≡ known.old.outside) }
    ensures locals { IfOk result (λ _. known.new.locals ≡ known.old.locals) }
{
    let mut made = Vec::new(known.alloc());
    for i in 0..variables.len() {
        let Some(bound) = bounds.get(i) else {
            return Err(JudgeError::of(known.alloc(), Cause::Unbounded, variables[i].name));
        };
        made.push(judge_base(known, &variables[i], bound)?)?;
    }
    Ok(made)
}

// The variables as they are in the checked tree, by their rules.
fn quantify(
    known: &mut Known,
    variables: &[Variable<'_>],
    condition: &Expr,
) -> Verdict<Vec<Quantified>>
    ensures value { Judges (λ made. each quantified_of made.items) result
        (quantify (scene_of known.old) (each variable_of variables.now) (tree_of condition.now)) }
    ensures kept { IfOk result (λ _. known.new ≡ known.old) }
{
    let found = all_bounded(known.alloc(), variables, condition)?;
    let _after = all_last(variables)?;
    known.open()?;
    let made = judge_bases(known, variables, found.as_slice())?;
    known.close();
    Ok(made)
}

// The variables of a `when` by their rules, where its condition is a truth value.
pub fn judge_quantified(
    known: &mut Known,
    front: &Front<'_>,
    condition: &Expr,
) -> Verdict<Vec<Quantified>>
    ensures value { Judges (λ made. each quantified_of made.items) result
        (judge_quantified (scene_of known.old) (each variable_of front.now.variables.items) (tree_of condition.now)
        (node_of front.now.condition)) }
    ensures kept { IfOk result (λ _. known.new ≡ known.old) }
{
    test(condition, &front.condition)?;
    quantify(known, front.variables.as_slice(), condition)
}
