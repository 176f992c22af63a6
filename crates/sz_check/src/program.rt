//! Programs.
ghost use Rattle.std.specs.Prelude.{◌≡◌, ◌++◌, IfOk, map as each, None as Nothing};
ghost use Rattle.sz_tree.specs.Statements.{stms_of};
ghost use Rattle.sz_tree.specs.View.{tree_of, type_of, stm_of, program_of};
ghost use Rattle.sz_core.specs.View.{item_of, static_of};
ghost use Rattle.sz_check_rules.specs.JudgingPrograms.{declare_static, judge_static, judge_typedef, judge_statement, judge_top, judge_all, known_at_first, judge_program};
ghost use Rattle.sz_check.specs.Top.{found_all, found_one, found_with, items_in, top_of, core_seen};
ghost use Rattle.sz_check.specs.Answering.{Answers};
ghost use Rattle.sz_check_names.specs.Outcome.{Judges};

use crate::error::CheckError;
use crate::function::judge_function;
use crate::stmt::{Around, judge_stm};
use crate::table::judge_table;
use crate::top::Top;
use std::alloc::{AllocError, Global};
use sz_check_expr::{converted, judge_exp};
use sz_check_names::{Known, Meaning, Site, Verdict, judge_type, judge_written, small};
use sz_check_rules::judged_programs_are_sound;
use sz_core::{Item, Program, Static};
use sz_tree::{Expr, Name, Stmt, Tree, TypeTree};
use sz_types::{Place, Tys, copy_ty};

// A static under its name, with the next number.
fn declare_static(top: &mut Top, name: &Name, made: Static) -> Verdict<Item>
    ensures value { Judges (λ i. found_one top.new i) result (declare_static (top_of top.old) name.now (static_of made)) }
{
    let statics = small(top.statics as usize + 1)?;
    let meaning = Meaning::Static(top.statics, copy_ty(top.known.alloc(), &made.ty)?);
    top.known.declare(name, meaning)?;
    top.statics = statics;
    Ok(Item::Static(made))
}

// `static name: type = e;`
fn judge_static(
    top: &mut Top,
    place: Place,
    name: &Name,
    of: &TypeTree,
    tree: &Expr,
) -> Verdict<Item>
    ensures value { Judges (λ i. found_one top.new i) result
        (judge_static (top_of top.old) place name.now (type_of of.now) (tree_of tree.now)) }
{
    let ty = judge_type(&top.known, of)?;
    let node = judge_exp(&top.known, Site::Static, Some(&ty), tree)?;
    let value = converted(top.known.alloc(), &ty, tree, node)?;
    declare_static(top, name, Static { place, ty, value })
}

// `type name = type;`
fn judge_typedef(top: &mut Top, name: &Name, of: &TypeTree) -> Verdict<()>
    ensures value { Judges (λ _. found_with top.new Nothing) result (judge_typedef (top_of top.old) name.now (type_of of.now)) }
{
    let written = judge_written(&top.known, of)?;
    top.known.declare_type(name, written)
}

// A statement that runs for each record.
fn judge_statement(top: &mut Top, tree: &Stmt) -> Verdict<Item>
    ensures value { Judges (λ i. found_one top.new i) result (judge_statement (top_of top.old) (stm_of tree.now)) }
{
    let around = Around {
        result: None,
        in_loop: false,
    };
    let statement = judge_stm(&mut top.known, around, tree)?;
    Ok(Item::Statement(statement))
}

// A statement at the top level.
fn judge_top(top: &mut Top, tree: &Stmt) -> Verdict<Option<Item>>
    ensures value { Judges (λ i. found_with top.new i) result (judge_top (top_of top.old) (stm_of tree.now)) }
{
    match tree {
        Stmt::Static(place, name, of, value) => {
            Ok(Some(judge_static(top, *place, name, of, value)?))
        }
        Stmt::Type(_, name, of) => {
            judge_typedef(top, name, of)?;
            Ok(None)
        }
        Stmt::Table(name, table) => Ok(Some(judge_table(top, name, table)?)),
        Stmt::Function(name, params, of, body) => {
            let params = params.as_slice();
            Ok(Some(judge_function(top, name, params, of, body.as_slice())?))
        }
        _ => Ok(Some(judge_statement(top, tree)?)),
    }
}

// Takes over the item that a statement is, if it is one.
fn push_found(items: &mut Vec<Item>, found: Option<Item>) -> Result<(), AllocError>
    ensures value { IfOk result (λ _. each item_of items.new.items ≡ each item_of items.old.items ++ items_in found) }
{
    if let Some(item) = found {
        items.push(item)?;
    }
    Ok(())
}

// Statements at the top level, in order.
pub fn judge_all(top: &mut Top, trees: &[Stmt]) -> Verdict<Vec<Item>>
    ensures value { Judges (λ items. found_all top.new items.items) result (judge_all (top_of top.old) (stms_of (each stm_of trees.now))) }
{
    let mut items = Vec::new(top.known.alloc());
    for tree in trees {
        let found = judge_top(top, tree)?;
        push_found(&mut items, found)?;
    }
    Ok(items)
}

// What is known at first: the predeclared names, in a block round the program's own.
fn known_at_first(alloc: Global) -> Result<Top, AllocError>
    ensures value { IfOk result (λ made. top_of made ≡ known_at_first) }
{
    Ok(Top {
        known: Known::predeclared(alloc)?,
        tables: 0,
        statics: 0,
        functions: Vec::new(alloc),
    })
}

// The items of a program, in order, and the types of the record's variables.
fn judge_items(alloc: Global, tree: &Tree) -> Verdict<(Vec<Item>, Tys)>
    ensures value { Judges core_seen result (judge_program (program_of tree.now)) }
{
    let mut top = known_at_first(alloc)?;
    let items = judge_all(&mut top, tree.statements.as_slice())?;
    Ok((items, top.known.into_locals()))
}

/// The checked program that the tree stands for, or its first refusal.
#[tactic(auto, using(crate::proofs::ProgramLemmas::answers_stopped))]
pub fn check(alloc: Global, tree: &Tree) -> Result<Program, CheckError>
    ensures value { Answers result (judge_program (program_of tree.now)) }
{
    let (items, locals) = judge_items(alloc, tree)?;
    judged_programs_are_sound();
    Ok(Program::new(items, locals))
}
