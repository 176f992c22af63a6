//! Paths: what is assigned to.
ghost use Rattle.std.specs.Prelude.{◌≡◌, [], IfOk, map as each};
ghost use Rattle.sz_types.specs.Seen.{seen};
ghost use Rattle.sz_tree.specs.View.{tree_of, step_of};
ghost use Rattle.sz_core.specs.View.{node_of, step_of as core_step_of};
ghost use Rattle.sz_check_rules.specs.JudgingParts.{field_in};
ghost use Rattle.sz_check_rules.specs.JudgingPaths.{target_of, stepped, indexed, judge_step, judge_steps, assignable, judge_path};
ghost use Rattle.sz_check_names.specs.Knowledge.{means_of, scene_of};
ghost use Rattle.sz_check.specs.Targets.{target_seen, into_string, to_part, part_of, path_form};
ghost use Rattle.sz_check_names.specs.Outcome.{Judges};

use std::alloc::{AllocError, Global};
use sz_check_expr::{agrees, field_in, judge_exp, whole};
use sz_check_names::{Cause, JudgeError, Known, Means, Site, Verdict, small};
use sz_core::{CoreExpr, CoreStep};
use sz_tree::{Expr, Name, Step};
use sz_types::{Kind, Place, Ty, copy_ty, type_kind};

// Where a path has come to: the number of its variable, the steps so far, the type of what is there, and whether it can be
// assigned to.
#[derive(Drop)]
pub struct Target {
    pub local: u32,
    pub steps: Vec<CoreStep>,
    pub ty: Ty,
    pub assignable: bool,
}

// Where a path begins.
fn target_of(alloc: Global, name: &Name, means: Means<'_>) -> Verdict<Target>
    ensures value { Judges target_seen result (target_of name.now (means_of means.entry)) }
{
    let (local, ty, assignable) = match means {
        Means::Variable(number, ty) => (number, copy_ty(alloc, ty)?, true),
        Means::Quantified(number, ty) | Means::Static(number, ty) => {
            (number, copy_ty(alloc, ty)?, false)
        }
        Means::Input => (0, Ty::Bytes, false),
        _ => return Err(JudgeError::of(alloc, Cause::WrongKind, name)),
    };
    Ok(Target {
        local,
        steps: Vec::new(alloc),
        ty,
        assignable,
    })
}

// One step on, to a value of this type.
fn stepped(target: Target, step: CoreStep, ty: Ty) -> Result<Target, AllocError>
    ensures value { IfOk result (λ made. target_seen made ≡ stepped (target_seen target) (core_step_of step) (seen ty)) }
{
    let mut steps = target.steps;
    steps.push(step)?;
    Ok(Target {
        local: target.local,
        steps,
        ty,
        assignable: target.assignable,
    })
}

// A step into a string, where nothing can be assigned.
fn into_string(target: Target, node: CoreExpr, ty: Ty) -> Result<Target, AllocError>
    ensures value { IfOk result (λ made. target_seen made ≡ into_string (target_seen target) (node_of node) (seen ty)) }
{
    let mut next = stepped(target, CoreStep::Index(node), ty)?;
    next.assignable = false;
    Ok(next)
}

// A step by an index to a value of this type: to an element, to the value of a key, or into a string.
fn to_part(target: Target, node: CoreExpr, ty: Ty) -> Result<Target, AllocError>
    ensures value { IfOk result (λ made. target_seen made ≡ to_part (target_seen target) (seen target.ty) (node_of node) (seen ty)) }
{
    match type_kind(&target.ty) {
        Kind::Str | Kind::Bytes => into_string(target, node, ty),
        _ => stepped(target, CoreStep::Index(node), ty),
    }
}

// The type of what an index leads to.
fn part_type(
    alloc: Global,
    place: Place,
    target: &Target,
    tree: &Expr,
    node: &CoreExpr,
) -> Verdict<Ty>
    ensures value { Judges (λ ty. to_part (target_seen target.now) (seen target.now.ty) (node_of node.now) (seen ty)) result
        (indexed place (target_seen target.now) (seen target.now.ty) (tree_of tree.now) (node_of node.now)) }
{
    match type_kind(&target.ty) {
        Kind::Array(element) => {
            whole(tree, node)?;
            Ok(copy_ty(alloc, element)?)
        }
        Kind::Map(key, value) => {
            agrees(Some(key), tree, node)?;
            Ok(copy_ty(alloc, value)?)
        }
        Kind::Str | Kind::Bytes => {
            whole(tree, node)?;
            Ok(Ty::Int)
        }
        _ => Err(JudgeError::at(Cause::WrongType, place)),
    }
}

// A step by an index.
fn indexed(
    alloc: Global,
    place: Place,
    target: Target,
    tree: &Expr,
    node: CoreExpr,
) -> Verdict<Target>
    ensures value { Judges target_seen result (indexed place (target_seen target) (seen target.ty) (tree_of tree.now) (node_of node)) }
{
    let ty = part_type(alloc, place, &target, tree, &node)?;
    Ok(to_part(target, node, ty)?)
}

// The field of a value of this type: its number, and its type.
fn field_part(alloc: Global, place: Place, of: &Ty, name: &Name) -> Verdict<(u32, Ty)>
    ensures value { Judges part_of result (field_in place (seen of.now) name.now) }
{
    let (number, ty) = field_in(alloc, place, of, name)?;
    Ok((small(number)?, copy_ty(alloc, ty)?))
}

// The next step of a path that begins at this place.
fn judge_step(known: &Known, place: Place, target: Target, step: &Step) -> Verdict<Target>
    ensures value { Judges target_seen result (judge_step (scene_of known.now) place (target_seen target) (step_of step.now)) }
{
    match step {
        Step::Index(tree) => {
            let node = judge_exp(known, Site::Statement, None, tree)?;
            indexed(known.alloc(), place, target, tree, node)
        }
        Step::Field(name) => {
            let (number, ty) = field_part(known.alloc(), place, &target.ty, name)?;
            Ok(stepped(target, CoreStep::Field(number), ty)?)
        }
    }
}

// The steps of a path that begins at this place, one after the other.
fn judge_steps(known: &Known, place: Place, first: Target, steps: &[Step]) -> Verdict<Target>
    ensures value { Judges target_seen result (judge_steps (scene_of known.now) place (target_seen first) (each step_of steps.now)) }
{
    let mut target = first;
    for step in steps {
        let next = judge_step(known, place, target, step)?;
        target = next;
    }
    Ok(target)
}

// What a path has come to, which has to be assignable. The name is that of the path's beginning.
fn assignable(alloc: Global, name: &Name, target: Target) -> Verdict<Target>
    ensures value { Judges target_seen result (assignable name.now (target_seen target)) }
{
    if target.assignable {
        Ok(target)
    } else {
        Err(JudgeError::of(alloc, Cause::NotAssignable, name))
    }
}

// A path, as a whole.
pub fn judge_path(known: &Known, name: &Name, steps: &[Step]) -> Verdict<Target>
    ensures value { Judges target_seen result (judge_path (scene_of known.now) (path_form name.now (each step_of steps.now))) }
{
    let first = target_of(known.alloc(), name, known.look_up(Site::Statement, name)?)?;
    let target = judge_steps(known, name.place(), first, steps)?;
    assignable(known.alloc(), name, target)
}

// A path that is a name alone.
#[tactic(auto, unfolding(sz_check_rules::specs::JudgingPaths::judge_steps))]
pub fn judge_variable(known: &Known, name: &Name) -> Verdict<Target>
    ensures value { Judges target_seen result (judge_path (scene_of known.now) (path_form name.now [])) }
{
    let target = target_of(known.alloc(), name, known.look_up(Site::Statement, name)?)?;
    assignable(known.alloc(), name, target)
}
