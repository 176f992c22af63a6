//! `emit`.
ghost use Rattle.std.specs.Prelude.{map as each};
ghost use Rattle.std.specs.Option.{option_map};
ghost use Rattle.sz_types.specs.Seen.{seen};
ghost use Rattle.sz_types.specs.SeenTables.{seen_table};
ghost use Rattle.sz_tree.specs.Expressions.{exps_of};
ghost use Rattle.sz_tree.specs.View.{tree_of};
ghost use Rattle.sz_core.specs.View.{node_of, stm_of};
ghost use Rattle.sz_check_rules.specs.Scenes.{judge_if_some};
ghost use Rattle.sz_check_rules.specs.JudgingSimple.{table_named, weight_agrees, judge_emitted, emitted_fits, judge_emit};
ghost use Rattle.sz_check_names.specs.Knowledge.{means_of, scene_of};
ghost use Rattle.sz_check.specs.Later.{numbered_of, emitted_of};
ghost use Rattle.sz_check_names.specs.Outcome.{Judges};

use std::alloc::Global;
use sz_check_expr::{Asks, agree, agrees, counted, judge_exp, judge_exps};
use sz_check_names::{Cause, JudgeError, Known, Means, Site, Verdict};
use sz_core::{CoreExpr, CoreStmt};
use sz_tree::{Expr, Name};
use sz_types::{Place, TableDecl, Ty};

// The checked parts of an emit.
#[derive(Drop)]
pub struct Parts {
    pub indexes: Vec<CoreExpr>,
    pub value: CoreExpr,
    pub weight: Option<CoreExpr>,
}

// The table that a name stands for.
fn table_named<'k>(alloc: Global, name: &Name, means: Means<'k>) -> Verdict<(u32, &'k TableDecl)>
    ensures value { Judges numbered_of result (table_named name.now (means_of means.entry)) }
{
    match means {
        Means::Table(number, table) => Ok((number, table)),
        _ => Err(JudgeError::of(alloc, Cause::WrongKind, name)),
    }
}

// A weight, where there is one.
fn judge_weight(known: &Known, asked: &Option<Ty>, tree: &Option<Expr>) -> Verdict<Option<CoreExpr>>
    ensures value { Judges (option_map node_of) result
        (judge_if_some (scene_of known.now) (option_map seen asked.now) (option_map tree_of tree.now)) }
{
    match tree {
        Some(tree) => Ok(Some(judge_exp(known, Site::Statement, asked.as_ref(), tree)?)),
        None => Ok(None),
    }
}

// The weight of an emit has the type that the table's weights have, if both are there.
fn weight_agrees(asked: &Option<Ty>, tree: &Option<Expr>, node: &Option<CoreExpr>) -> Verdict<()>
    ensures value { Judges (λ x. x) result
        (weight_agrees (option_map seen asked.now) (option_map tree_of tree.now) (option_map node_of node.now)) }
{
    match (asked, tree, node) {
        (Some(ty), Some(tree), Some(node)) => agrees(Some(ty), tree, node),
        _ => Ok(()),
    }
}

// The parts of an emit into a table.
fn judge_parts(
    known: &Known,
    table: &TableDecl,
    indexes: &[Expr],
    value: &Expr,
    weight: &Option<Expr>,
) -> Verdict<Parts>
    ensures value { Judges emitted_of result
        (judge_emitted (scene_of known.now) (seen_table table.now) (exps_of (each tree_of indexes.now)) (tree_of value.now)
        (option_map tree_of weight.now)) }
{
    let asks = Asks::Types(table.indexes.as_slice());
    let indexes = judge_exps(known, Site::Statement, asks, indexes)?;
    let value = judge_exp(known, Site::Statement, Some(&table.element), value)?;
    let weight = judge_weight(known, &table.weight, weight)?;
    Ok(Parts {
        indexes,
        value,
        weight,
    })
}

// The parts of an emit are as the table's declaration asks. The places are that of the emit and that of the table's name.
fn parts_fit(
    table: &TableDecl,
    place: Place,
    name_place: Place,
    indexes: &[Expr],
    value: &Expr,
    weight: &Option<Expr>,
    parts: &Parts,
) -> Verdict<()>
    ensures value { Judges (λ x. x) result
        (emitted_fits (seen_table table.now) place name_place (exps_of (each tree_of indexes.now)) (tree_of value.now)
        (option_map tree_of weight.now) (emitted_of parts.now)) }
{
    let asks = Asks::Types(table.indexes.as_slice());
    agree(asks, indexes, parts.indexes.as_slice())?;
    agrees(Some(&table.element), value, &parts.value)?;
    weight_agrees(&table.weight, weight, &parts.weight)?;
    counted(table.indexes.len(), indexes, name_place)?;
    if table.weight.is_some() == weight.is_some() {
        Ok(())
    } else {
        Err(JudgeError::at(Cause::WrongWeight, place))
    }
}

// `emit name[e].. <- e weight e;`
pub fn judge_emit(
    known: &Known,
    place: Place,
    name: &Name,
    indexes: &[Expr],
    value: &Expr,
    weight: &Option<Expr>,
) -> Verdict<CoreStmt>
    ensures value { Judges stm_of result
        (judge_emit (scene_of known.now) place name.now (exps_of (each tree_of indexes.now)) (tree_of value.now)
        (option_map tree_of weight.now)) }
{
    let (number, table) = table_named(known.alloc(), name, known.look_up(Site::Statement, name)?)?;
    let parts = judge_parts(known, table, indexes, value, weight)?;
    parts_fit(table, place, name.place(), indexes, value, weight, &parts)?;
    Ok(CoreStmt::Emit(place, number, parts.indexes, parts.value, parts.weight))
}
