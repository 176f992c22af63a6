//! Statements that hold no others.
ghost use Rattle.std.specs.Prelude.{◌≡◌, IfOk, None as Nothing};
ghost use Rattle.sz_types.specs.Data.{int};
ghost use Rattle.std.specs.Option.{option_map};
ghost use Rattle.sz_types.specs.Seen.{seen};
ghost use Rattle.sz_tree.specs.View.{tree_of, type_of, path_of, simple_of, first_of};
ghost use Rattle.sz_core.specs.Statements.{nothing};
ghost use Rattle.sz_core.specs.Nodes.{node};
ghost use Rattle.sz_core.specs.View.{form_of, node_of, stm_of};
ghost use Rattle.sz_check_rules.specs.Scenes.{judge_if_some};
ghost use Rattle.sz_check_rules.specs.JudgingSimple.{judge_declaration, judge_initialised, judge_definition, judge_assignment, judge_change, judge_simple};
ghost use Rattle.sz_check_rules.specs.JudgingSimple.{judge_first, judge_between, test_if_some, judge_return};
ghost use Rattle.sz_check_expr.specs.Asking.{asked_of};
ghost use Rattle.sz_check_names.specs.Knowledge.{scene_of};
ghost use Rattle.sz_check.specs.Later.{after_of, change_row, one_at, variable_at, changed_at};
ghost use Rattle.sz_check_names.specs.Outcome.{Judges};

use crate::composed::boxed;
use crate::target::{Target, judge_path, judge_variable};
use std::alloc::{AllocError, Global};
use sz_check_expr::{agrees, converted, difference_row, judge_call, judge_exp, sum_row, test};
use sz_check_names::{Cause, JudgeError, Known, Site, Verdict, judge_type};
use sz_core::{CoreExpr, CoreStmt, Form};
use sz_tree::{Expr, First, Name, Path, Simple, TypeTree};
use sz_types::{BinOp, Place, Ty, copy_ty};
use sz_value::Value;

// `name: type;`
pub fn judge_declaration(known: &mut Known, name: &Name, tree: &TypeTree) -> Verdict<CoreStmt>
    ensures value { Judges (λ s. after_of known.new s) result (judge_declaration (scene_of known.old) name.now (type_of tree.now)) }
    ensures outside { known.new.outside ≡ known.old.outside }
{
    let ty = judge_type(known, tree)?;
    let number = known.declare_variable(name, ty)?;
    Ok(CoreStmt::Clear(number))
}

// `name: type = e;`
pub fn judge_initialised(
    known: &mut Known,
    name: &Name,
    tree: &TypeTree,
    value: &Expr,
) -> Verdict<CoreStmt>
    ensures value { Judges (λ s. after_of known.new s) result
        (judge_initialised (scene_of known.old) name.now (type_of tree.now) (tree_of value.now)) }
    ensures outside { known.new.outside ≡ known.old.outside }
{
    let ty = judge_type(known, tree)?;
    let node = judge_exp(known, Site::Statement, Some(&ty), value)?;
    let node = converted(known.alloc(), &ty, value, node)?;
    let number = known.declare_variable(name, ty)?;
    Ok(CoreStmt::Keep(name.place(), number, node))
}

// `name := e;`
pub fn judge_definition(known: &mut Known, name: &Name, value: &Expr) -> Verdict<CoreStmt>
    ensures value { Judges (λ s. after_of known.new s) result (judge_definition (scene_of known.old) name.now (tree_of value.now)) }
    ensures outside { known.new.outside ≡ known.old.outside }
{
    let node = judge_exp(known, Site::Statement, None, value)?;
    let ty = copy_ty(known.alloc(), &node.ty)?;
    let number = known.declare_variable(name, ty)?;
    Ok(CoreStmt::Keep(name.place(), number, node))
}

// `path = e`
fn judge_assignment(known: &Known, path: &Path, value: &Expr) -> Verdict<CoreStmt>
    ensures value { Judges stm_of result (judge_assignment (scene_of known.now) (path_of path.now) (tree_of value.now)) }
{
    let target = judge_path(known, &path.name, path.steps.as_slice())?;
    let node = judge_exp(known, Site::Statement, Some(&target.ty), value)?;
    agrees(Some(&target.ty), value, &node)?;
    let place = path.name.place();
    Ok(CoreStmt::Store(place, target.local, target.steps, node))
}

// The type of `name + 1`, or of `name - 1`.
fn changed_type(alloc: Global, op: BinOp, ty: &Ty) -> Result<Option<Ty>, AllocError>
    ensures value { IfOk result (λ row. option_map seen row ≡ change_row op (seen ty.now) int) }
{
    match op {
        BinOp::Add => sum_row(alloc, ty, &Ty::Int),
        _ => Ok(difference_row(ty, &Ty::Int)),
    }
}

// An operand at this place.
fn operand(alloc: Global, place: Place, ty: Ty, form: Form) -> Result<Box<CoreExpr>, AllocError>
    ensures value { IfOk result (λ made. node_of made.value ≡ node place (seen ty) (form_of form)) }
{
    Ok(Box::new(alloc, CoreExpr { place, ty, form })?)
}

// The number 1, as an operand at this place.
fn one(alloc: Global, place: Place) -> Result<Box<CoreExpr>, AllocError>
    ensures value { IfOk result (λ made. node_of made.value ≡ one_at place) }
{
    operand(alloc, place, Ty::Int, Form::Constant(Value::Int(1)))
}

// A variable, as an operand at this place.
fn variable(alloc: Global, place: Place, target: Target) -> Result<Box<CoreExpr>, AllocError>
    ensures value { IfOk result (λ made. node_of made.value ≡ variable_at place target.local (seen target.ty)) }
{
    operand(alloc, place, target.ty, Form::Local(target.local))
}

// `name + 1` or `name - 1` at this place, which has the type.
fn changed(
    alloc: Global,
    place: Place,
    op: BinOp,
    ty: Ty,
    target: Target,
) -> Result<CoreExpr, AllocError>
    ensures value { IfOk result (λ made. node_of made ≡ changed_at place op target.local (seen target.ty) (seen ty)) }
{
    let one = one(alloc, place)?;
    let variable = variable(alloc, place, target)?;
    Ok(CoreExpr {
        place,
        ty,
        form: Form::Binary(op, variable, one),
    })
}

// `name++` or `name--`: `name = name + 1` or `name = name - 1`, all of it at the place of the name.
fn judge_change(known: &Known, name: &Name, op: BinOp) -> Verdict<CoreStmt>
    ensures value { Judges stm_of result (judge_change (scene_of known.now) name.now op (change_row op)) }
{
    let place = name.place();
    let target = judge_variable(known, name)?;
    let Some(ty) = changed_type(known.alloc(), op, &target.ty)? else {
        return Err(JudgeError::at(Cause::WrongType, place));
    };
    let local = target.local;
    let node = changed(known.alloc(), place, op, ty, target)?;
    Ok(CoreStmt::Store(place, local, Vec::new(known.alloc()), node))
}

// An assignment or a call.
pub fn judge_simple(known: &Known, tree: &Simple) -> Verdict<CoreStmt>
    ensures value { Judges stm_of result (judge_simple (scene_of known.now) (simple_of tree.now)) }
{
    match tree {
        Simple::Assign(path, value) => judge_assignment(known, path, value),
        Simple::Increment(name) => judge_change(known, name, BinOp::Add),
        Simple::Decrement(name) => judge_change(known, name, BinOp::Sub),
        Simple::Call(name, arguments) => {
            let node = judge_call(known, Site::Statement, name, arguments.as_slice())?;
            Ok(CoreStmt::Evaluate(name.place(), node))
        }
    }
}

// Nothing is done.
pub fn nothing(alloc: Global) -> CoreStmt
    ensures value { stm_of result ≡ nothing }
{
    CoreStmt::block(Vec::new(alloc))
}

// The first part of a `for`.
pub fn judge_first(known: &mut Known, first: &Option<First>) -> Verdict<CoreStmt>
    ensures value { Judges (λ s. after_of known.new s) result (judge_first (scene_of known.old) (option_map first_of first.now)) }
    ensures outside { known.new.outside ≡ known.old.outside }
{
    match first {
        None => Ok(nothing(known.alloc())),
        Some(First::Declare(name, tree, value)) => { judge_initialised(known, name, tree, value) }
        Some(First::Define(name, value)) => judge_definition(known, name, value),
        Some(First::Simple(tree)) => judge_simple(known, tree),
    }
}

// What is done between the turns of a `for`, in a box.
pub fn judge_between(known: &Known, tree: &Option<Simple>) -> Verdict<Box<CoreStmt>>
    ensures value { Judges (λ s. stm_of s.value) result (judge_between (scene_of known.now) (option_map simple_of tree.now)) }
{
    match tree {
        Some(tree) => Ok(boxed(known.alloc(), judge_simple(known, tree)?)?),
        None => Ok(boxed(known.alloc(), nothing(known.alloc()))?),
    }
}

// A test that may be missing.
pub fn judge_test(known: &Known, tree: &Option<Expr>) -> Verdict<Option<CoreExpr>>
    ensures value { Judges (option_map node_of) result (judge_if_some (scene_of known.now) Nothing (option_map tree_of tree.now)) }
{
    match tree {
        Some(tree) => Ok(Some(judge_exp(known, Site::Statement, None, tree)?)),
        None => Ok(None),
    }
}

// A test that may be missing is a truth value where it is there.
pub fn test_if_some(tree: &Option<Expr>, node: &Option<CoreExpr>) -> Verdict<()>
    ensures value { Judges (λ x. x) result (test_if_some (option_map tree_of tree.now) (option_map node_of node.now)) }
{
    match (tree, node) {
        (Some(tree), Some(node)) => test(tree, node),
        _ => Ok(()),
    }
}

// `return;` outside functions, and `return e;` inside.
pub fn judge_return(
    known: &Known,
    place: Place,
    result_type: Option<&Ty>,
    tree: &Option<Expr>,
) -> Verdict<CoreStmt>
    ensures value { Judges stm_of result
        (judge_return (scene_of known.now) place (asked_of result_type.entry) (option_map tree_of tree.now)) }
{
    match (result_type, tree) {
        (None, None) => Ok(CoreStmt::EndRecord(place)),
        (Some(ty), Some(tree)) => {
            let node = judge_exp(known, Site::Statement, Some(ty), tree)?;
            agrees(Some(ty), tree, &node)?;
            Ok(CoreStmt::Return(place, node))
        }
        _ => Err(JudgeError::at(Cause::Misplaced, place)),
    }
}
