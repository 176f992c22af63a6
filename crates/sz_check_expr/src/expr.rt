//! Expressions.
ghost use Rattle.std.specs.Prelude.{Option, map as each};
ghost use Rattle.sz_types.specs.Data.{Shape};
ghost use Rattle.sz_tree.specs.Expressions.{exps_of, pairs_of, named, call, def, convert, list, mapping, field, unary};
ghost use Rattle.sz_tree.specs.View.{tree_of, pair_of};
ghost use Rattle.sz_core.specs.Nodes.{nodes_of, pairings_of};
ghost use Rattle.sz_core.specs.View.{node_of, pairing_of};
ghost use Rattle.sz_check_rules.specs.JudgingExpressions.{judge_exp, judge_exps, judge_pairs};
ghost use Rattle.sz_check_expr.specs.Asking.{asks_of, asked_of};
ghost use Rattle.sz_check_names.specs.Knowledge.{blocks_for};
ghost use Rattle.sz_check_names.specs.Sites.{may_emit};
ghost use Rattle.sz_check_expr.specs.Lists.{judge_pair};
ghost use Rattle.sz_check_names.specs.Outcome.{Judges};

use crate::asks::Asks;
use crate::call::{asks_of_callee, callee_of, made_call, variable_node};
use crate::composite::{asked_of_keys, asked_of_values, asks_of_list, made_list, made_mapping};
use crate::literal::literal_node;
use crate::operator::{asked_of_right, made_binary, made_unary};
use crate::path::{conversion_node, made_field, made_index, made_slice};
use sz_check_names::{Known, Site, Verdict, basic_type};
use sz_core::{CoreExpr, CorePair, Form};
use sz_tree::{BasicType, Expr, Name, Pair, UnaryOp};
use sz_types::{Place, Ty};

/// The checked expression, or its first refusal, where its place asks for a type or for none; only composites take that type.
#[cycle(expr)]
#[tactic(auto, using(crate::proofs::ExpLemmas::paren_is, crate::proofs::ExpLemmas::literal_is, crate::proofs::ExpLemmas::index_is, crate::proofs::ExpLemmas::slice_is, crate::proofs::ExpLemmas::binary_is, crate::proofs::ExpLemmas::slice_stops))]
pub fn judge_exp(known: &Known, site: Site, asked: Option<&Ty>, tree: &Expr) -> Verdict<CoreExpr>
    ensures value { Judges node_of result
        (judge_exp (blocks_for known.now site) (may_emit site) (asked_of asked.entry) (tree_of tree.now)) }
{
    match tree {
        Expr::Literal(place, literal) => Ok(literal_node(known.alloc(), *place, literal)?),
        Expr::Named(name) => judge_named(known, site, name),
        Expr::Call(name, items) => judge_call(known, site, name, items.as_slice()),
        Expr::Def(place, part) => judge_def(known, site, *place, part),
        Expr::Paren(_, inner) => judge_exp(known, site, asked, inner),
        Expr::Convert(place, basic, part) => { judge_conversion(known, site, *place, *basic, part) }
        Expr::List(place, items) => { judge_list(known, site, asked, *place, items.as_slice()) }
        Expr::Map(place, pairs) => { judge_mapping(known, site, asked, *place, pairs.as_slice()) }
        Expr::Index(place, part, key) => {
            let node = judge_part(known, site, None, part)?;
            let at = judge_part(known, site, None, key)?;
            made_index(known.alloc(), *place, part, key, node, at)
        }
        Expr::Slice(place, part, from, to) => {
            let node = judge_part(known, site, None, part)?;
            let first = judge_part(known, site, None, from)?;
            let last = judge_part(known, site, None, to)?;
            made_slice(known.alloc(), *place, part, from, to, node, first, last)
        }
        Expr::Field(place, part, name) => judge_field(known, site, *place, part, name),
        Expr::Unary(place, op, part) => judge_unary(known, site, *place, *op, part),
        Expr::Binary(place, op, left, right) => {
            let first = judge_part(known, site, None, left)?;
            let asked = asked_of_right(*op, &first.ty);
            let second = judge_part(known, site, asked, right)?;
            made_binary(known.alloc(), *place, *op, left, right, first, second)
        }
    }
}

// The checked expression on the heap, as a part of another.
#[cycle(expr)]
fn judge_part(known: &Known, site: Site, asked: Option<&Ty>, tree: &Expr) -> Verdict<Box<CoreExpr>>
    ensures value { Judges (λ made. node_of made.value) result
        (judge_exp (blocks_for known.now site) (may_emit site) (asked_of asked.entry) (tree_of tree.now)) }
{
    Ok(Box::new(known.alloc(), judge_exp(known, site, asked, tree)?)?)
}

// A name as a value.
#[tactic(auto, unfolding(sz_check_rules::specs::JudgingExpressions::judge_exp))]
fn judge_named(known: &Known, site: Site, name: &Name) -> Verdict<CoreExpr>
    ensures value { (asked : Option Shape) → Judges node_of result
        (judge_exp (blocks_for known.now site) (may_emit site) asked (named name.now)) }
{
    variable_node(known.alloc(), name, known.look_up(site, name)?)
}

/// A checked call, or its first refusal: what the name calls, the arguments, and then the call of them.
#[cycle(expr)]
#[tactic(auto, unfolding(sz_check_rules::specs::JudgingExpressions::judge_exp))]
pub fn judge_call(known: &Known, site: Site, name: &Name, arguments: &[Expr]) -> Verdict<CoreExpr>
    ensures value { (asked : Option Shape) → Judges node_of result
        (judge_exp (blocks_for known.now site) (may_emit site) asked (call name.now (exps_of (each tree_of arguments.now)))) }
{
    let alloc = known.alloc();
    let callee = callee_of(alloc, name, known.look_up(site, name)?)?;
    let nodes = judge_exps(known, site, asks_of_callee(&callee), arguments)?;
    made_call(alloc, site.may_emit(), name, callee, arguments, nodes)
}

// `def(e)`.
#[cycle(expr)]
#[tactic(auto, unfolding(sz_check_rules::specs::JudgingExpressions::judge_exp))]
fn judge_def(known: &Known, site: Site, place: Place, tree: &Expr) -> Verdict<CoreExpr>
    ensures value { (asked : Option Shape) → Judges node_of result
        (judge_exp (blocks_for known.now site) (may_emit site) asked (def place (tree_of tree.now))) }
{
    let form = Form::Def(judge_part(known, site, None, tree)?);
    let ty = Ty::Bool;
    Ok(CoreExpr { place, ty, form })
}

// A conversion to a type that is a word.
#[cycle(expr)]
#[tactic(auto, unfolding(sz_check_rules::specs::JudgingExpressions::judge_exp))]
fn judge_conversion(
    known: &Known,
    site: Site,
    place: Place,
    basic: BasicType,
    tree: &Expr,
) -> Verdict<CoreExpr>
    ensures value { (asked : Option Shape) → Judges node_of result
        (judge_exp (blocks_for known.now site) (may_emit site) asked (convert place basic (tree_of tree.now))) }
{
    let node = judge_part(known, site, None, tree)?;
    conversion_node(place, basic_type(basic), tree, node)
}

// `{e, ..}`.
#[cycle(expr)]
#[tactic(auto, unfolding(sz_check_rules::specs::JudgingExpressions::judge_exp))]
fn judge_list(
    known: &Known,
    site: Site,
    asked: Option<&Ty>,
    place: Place,
    trees: &[Expr],
) -> Verdict<CoreExpr>
    ensures value { Judges node_of result
        (judge_exp (blocks_for known.now site) (may_emit site) (asked_of asked.entry)
        (list place (exps_of (each tree_of trees.now)))) }
{
    let nodes = judge_exps(known, site, asks_of_list(asked, trees), trees)?;
    made_list(known.alloc(), place, asked, trees, nodes)
}

// `{k: v, ..}`.
#[cycle(expr)]
#[tactic(auto, unfolding(sz_check_rules::specs::JudgingExpressions::judge_exp))]
fn judge_mapping(
    known: &Known,
    site: Site,
    asked: Option<&Ty>,
    place: Place,
    trees: &[Pair],
) -> Verdict<CoreExpr>
    ensures value { Judges node_of result
        (judge_exp (blocks_for known.now site) (may_emit site) (asked_of asked.entry)
        (mapping place (pairs_of (each pair_of trees.now)))) }
{
    let (key, value) = (asked_of_keys(asked), asked_of_values(asked));
    let nodes = judge_pairs(known, site, key, value, trees)?;
    made_mapping(known.alloc(), place, asked, trees, nodes)
}

// `e.name`.
#[cycle(expr)]
#[tactic(auto, unfolding(sz_check_rules::specs::JudgingExpressions::judge_exp))]
fn judge_field(
    known: &Known,
    site: Site,
    place: Place,
    tree: &Expr,
    name: &Name,
) -> Verdict<CoreExpr>
    ensures value { (asked : Option Shape) → Judges node_of result
        (judge_exp (blocks_for known.now site) (may_emit site) asked (field place (tree_of tree.now) name.now)) }
{
    let node = judge_part(known, site, None, tree)?;
    made_field(known.alloc(), place, tree, node, name)
}

// An operator before its operand.
#[cycle(expr)]
#[tactic(auto, unfolding(sz_check_rules::specs::JudgingExpressions::judge_exp))]
fn judge_unary(
    known: &Known,
    site: Site,
    place: Place,
    op: UnaryOp,
    tree: &Expr,
) -> Verdict<CoreExpr>
    ensures value { (asked : Option Shape) → Judges node_of result
        (judge_exp (blocks_for known.now site) (may_emit site) asked (unary place op (tree_of tree.now))) }
{
    let node = judge_part(known, site, None, tree)?;
    made_unary(place, op, tree, node)
}

/// Checked expressions in order, of which these types are asked, or the first refusal in them.
#[cycle(expr)]
pub fn judge_exps(
    known: &Known,
    site: Site,
    asks: Asks<'_>,
    trees: &[Expr],
) -> Verdict<Vec<CoreExpr>>
    ensures value { Judges (λ made. nodes_of (each node_of made.items)) result
        (judge_exps (blocks_for known.now site) (may_emit site) (asks_of asks.entry) (exps_of (each tree_of trees.now))) }
{
    let mut nodes = Vec::new(known.alloc());
    let mut asks = asks;
    for tree in trees {
        let node = judge_exp(known, site, asks.first(), tree)?;
        nodes.push(node)?;
        asks = asks.following();
    }
    Ok(nodes)
}

// A key and its value, of which these two types are asked.
#[cycle(expr)]
fn judge_pair(
    known: &Known,
    site: Site,
    key: Option<&Ty>,
    value: Option<&Ty>,
    tree: &Pair,
) -> Verdict<CorePair>
    ensures value { Judges pairing_of result
        (judge_pair (blocks_for known.now site) (may_emit site) (asked_of key.entry) (asked_of value.entry) (pair_of tree.now)) }
{
    let key = judge_exp(known, site, key, &tree.key)?;
    let value = judge_exp(known, site, value, &tree.value)?;
    Ok(CorePair { key, value })
}

// Keys and values in order, of which these two types are asked.
#[cycle(expr)]
fn judge_pairs(
    known: &Known,
    site: Site,
    key: Option<&Ty>,
    value: Option<&Ty>,
    trees: &[Pair],
) -> Verdict<Vec<CorePair>>
    ensures value { Judges (λ made. pairings_of (each pairing_of made.items)) result
        (judge_pairs (blocks_for known.now site) (may_emit site) (asked_of key.entry) (asked_of value.entry)
        (pairs_of (each pair_of trees.now))) }
{
    let mut nodes = Vec::new(known.alloc());
    for tree in trees {
        let pair = judge_pair(known, site, key, value, tree)?;
        nodes.push(pair)?;
    }
    Ok(nodes)
}
