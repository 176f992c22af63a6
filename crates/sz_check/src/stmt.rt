//! Statements.
ghost use Rattle.std.specs.Prelude.{◌≡◌, true, false, IfOk, map as each};
ghost use Rattle.std.specs.Option.{option_map};
ghost use Rattle.sz_tree.specs.Statements.{stms_of, block, if_only, while, do_while, for_loop, when};
ghost use Rattle.sz_tree.specs.View.{tree_of, stm_of, simple_of, first_of, quantifier_of};
ghost use Rattle.sz_core.specs.View.{node_of, stm_of as core_stm_of};
ghost use Rattle.sz_check_rules.specs.JudgingStatements.{judge_stm, judge_stms};
ghost use Rattle.sz_check_names.specs.Knowledge.{scene_of};
ghost use Rattle.sz_check.specs.Later.{after_of, all_after_of, around_of, judge_inside, judge_else, judge_turns, judge_bound_body};
ghost use Rattle.sz_check.specs.Quantified.{variable_of};
ghost use Rattle.sz_check_names.specs.Outcome.{Judges};

use crate::composed::{alone, boxed, branch, do_while_loop, for_loop, joined, while_loop};
use crate::declared::judge_declared;
use crate::emitted::judge_emit;
use crate::quantified::{Variable, judge_bound, judge_front, judge_quantified};
use crate::simple::{
    judge_between, judge_definition, judge_first, judge_return, judge_simple, judge_test, nothing,
};
use sz_check_expr::judge_exp;
use sz_check_names::{Cause, JudgeError, Known, Site, Verdict};
use sz_core::{CoreExpr, CoreStmt};
use sz_tree::{Expr, First, Quantifier, Simple, Stmt};
use sz_types::{Place, Ty};

// Where a statement stands: the type of the function's result, if it is in one, and whether `break` and `continue` have a loop
// to reach.
#[derive(Clone, Copy)]
pub struct Around<'t> {
    pub result: Option<&'t Ty>,
    pub in_loop: bool,
}

impl<'t> Around<'t> {
    // The same inside a loop.
    fn inside_loop(self) -> Around<'t>
        ensures value { result ≡ record self.entry { in_loop = true } }
    {
        Around {
            result: self.result,
            in_loop: true,
        }
    }

    // The same where no loop is reached.
    fn out_of_loops(self) -> Around<'t>
        ensures value { result ≡ record self.entry { in_loop = false } }
    {
        Around {
            result: self.result,
            in_loop: false,
        }
    }
}

// The statement.
#[cycle(stmt)]
#[tactic(auto, using(crate::proofs::StatementParts::empty_is, crate::proofs::StatementParts::define_is, crate::proofs::StatementParts::static_is, crate::proofs::StatementParts::typedef_is, crate::proofs::StatementParts::table_is, crate::proofs::StatementParts::nested_is, crate::proofs::StatementParts::simple_is, crate::proofs::StatementParts::break_is, crate::proofs::StatementParts::continue_is, crate::proofs::StatementParts::return_is, crate::proofs::StatementParts::emitting_is, crate::proofs::StatementParts::if_else_is, crate::proofs::StatementParts::done_is))]
pub fn judge_stm(known: &mut Known, around: Around<'_>, tree: &Stmt) -> Verdict<CoreStmt>
    ensures value { Judges (λ s. after_of known.new s) result (judge_stm (around_of around.entry) (scene_of known.old) (stm_of tree.now)) }
    ensures outside { IfOk result (λ _. known.new.outside ≡ known.old.outside) }
{
    match tree {
        Stmt::Empty(_) => Ok(nothing(known.alloc())),
        Stmt::Block(place, trees) => { judge_block(known, around, *place, trees.as_slice()) }
        Stmt::Declare(name, of, value) => judge_declared(known, name, of, value),
        Stmt::Define(name, value) => judge_definition(known, name, value),
        Stmt::Static(place, _, _, _) | Stmt::Type(place, _, _) => Err(JudgeError::at(
            Cause::Misplaced,
            *place,
        )),
        Stmt::Table(name, _) | Stmt::Function(name, _, _, _) => Err(JudgeError::at(
            Cause::Misplaced,
            name.place(),
        )),
        Stmt::Simple(tree) => judge_simple(known, tree),
        Stmt::If(place, test, taken, None) => { judge_if_only(known, around, *place, taken, test) }
        Stmt::If(place, test, taken, Some(other)) => {
            let node = judge_exp(known, Site::Statement, None, test)?;
            let taken = judge_inside(known, around, taken)?;
            judge_else(known, around, *place, other, test, node, taken)
        }
        Stmt::While(place, test, body) => judge_while(known, around, *place, body, test),
        Stmt::DoWhile(place, body, test) => { judge_do_while(known, around, *place, body, test) }
        Stmt::For(place, first, test, between, body) => {
            judge_for(known, around, *place, body, first, test, between)
        }
        Stmt::Break(place) if !around.in_loop => Err(JudgeError::at(Cause::Misplaced, *place)),
        Stmt::Continue(place) if !around.in_loop => Err(JudgeError::at(Cause::Misplaced, *place)),
        Stmt::Break(_) => Ok(CoreStmt::Break),
        Stmt::Continue(_) => Ok(CoreStmt::Continue),
        Stmt::Return(place, value) => judge_return(known, *place, around.result, value),
        Stmt::Emit(place, name, indexes, value, weight) => {
            judge_emit(known, *place, name, indexes.as_slice(), value, weight)
        }
        Stmt::When(place, quantifiers, test, body) => {
            judge_when(known, around, *place, body, quantifiers.as_slice(), test)
        }
    }
}

// A part statement, which is judged in a block of its own, and stands in a box.
#[cycle(stmt)]
fn judge_inside(known: &mut Known, around: Around<'_>, tree: &Stmt) -> Verdict<Box<CoreStmt>>
    ensures value { Judges (λ s. after_of known.new s.value) result
        (judge_inside (around_of around.entry) (scene_of known.old) (stm_of tree.now)) }
    ensures outside { IfOk result (λ _. known.new.outside ≡ known.old.outside) }
{
    known.open()?;
    let statement = judge_stm(known, around, tree)?;
    known.close();
    Ok(boxed(known.alloc(), statement)?)
}

#[cycle(stmt)]
#[tactic(auto, unfolding(sz_check_rules::specs::JudgingStatements::judge_stm))]
fn judge_block(
    known: &mut Known,
    around: Around<'_>,
    place: Place,
    trees: &[Stmt],
) -> Verdict<CoreStmt>
    ensures value { Judges (λ s. after_of known.new s) result
        (judge_stm (around_of around.entry) (scene_of known.old) (block place (stms_of (each stm_of trees.now)))) }
    ensures outside { IfOk result (λ _. known.new.outside ≡ known.old.outside) }
{
    known.open()?;
    let statements = judge_stms(known, around, trees)?;
    known.close();
    Ok(CoreStmt::block(statements))
}

// Statements in order.
#[cycle(stmt)]
pub fn judge_stms(known: &mut Known, around: Around<'_>, trees: &[Stmt]) -> Verdict<Vec<CoreStmt>>
    ensures value { Judges (λ ss. all_after_of known.new ss.items) result
        (judge_stms (around_of around.entry) (scene_of known.old) (stms_of (each stm_of trees.now))) }
    ensures outside { IfOk result (λ _. known.new.outside ≡ known.old.outside) }
{
    let mut statements = Vec::new(known.alloc());
    for tree in trees {
        let statement = judge_stm(known, around, tree)?;
        statements.push(statement)?;
    }
    Ok(statements)
}

#[cycle(stmt)]
#[tactic(auto, unfolding(sz_check_rules::specs::JudgingStatements::judge_stm), using(crate::proofs::StatementParts::done_is))]
fn judge_if_only(
    known: &mut Known,
    around: Around<'_>,
    place: Place,
    taken: &Stmt,
    condition: &Expr,
) -> Verdict<CoreStmt>
    ensures value { Judges (λ s. after_of known.new s) result
        (judge_stm (around_of around.entry) (scene_of known.old) (if_only place (tree_of condition.now) (stm_of taken.now))) }
    ensures outside { IfOk result (λ _. known.new.outside ≡ known.old.outside) }
{
    let other = boxed(known.alloc(), nothing(known.alloc()))?;
    let node = judge_exp(known, Site::Statement, None, condition)?;
    let taken = judge_inside(known, around, taken)?;
    branch(place, condition, node, taken, other)
}

// What an `if` does after its part: the other part, and then the branch over the test.
#[cycle(stmt)]
#[tactic(auto, using(crate::proofs::StatementParts::done_is))]
fn judge_else(
    known: &mut Known,
    around: Around<'_>,
    place: Place,
    other: &Stmt,
    condition: &Expr,
    node: CoreExpr,
    taken: Box<CoreStmt>,
) -> Verdict<CoreStmt>
    ensures value { Judges (λ s. after_of known.new s) result
        (judge_else (around_of around.entry) (scene_of known.old) place (tree_of condition.now) (node_of node)
        (core_stm_of taken.value) (stm_of other.now)) }
    ensures outside { IfOk result (λ _. known.new.outside ≡ known.old.outside) }
{
    let other = judge_inside(known, around, other)?;
    branch(place, condition, node, taken, other)
}

#[cycle(stmt)]
#[tactic(auto, unfolding(sz_check_rules::specs::JudgingStatements::judge_stm), using(crate::proofs::StatementParts::done_is))]
fn judge_while(
    known: &mut Known,
    around: Around<'_>,
    place: Place,
    body: &Stmt,
    condition: &Expr,
) -> Verdict<CoreStmt>
    ensures value { Judges (λ s. after_of known.new s) result
        (judge_stm (around_of around.entry) (scene_of known.old) (while place (tree_of condition.now) (stm_of body.now))) }
    ensures outside { IfOk result (λ _. known.new.outside ≡ known.old.outside) }
{
    let node = judge_exp(known, Site::Statement, None, condition)?;
    let body = judge_inside(known, around.inside_loop(), body)?;
    while_loop(place, condition, node, body)
}

#[cycle(stmt)]
#[tactic(auto, unfolding(sz_check_rules::specs::JudgingStatements::judge_stm), using(crate::proofs::StatementParts::done_is))]
fn judge_do_while(
    known: &mut Known,
    around: Around<'_>,
    place: Place,
    body: &Stmt,
    condition: &Expr,
) -> Verdict<CoreStmt>
    ensures value { Judges (λ s. after_of known.new s) result
        (judge_stm (around_of around.entry) (scene_of known.old) (do_while place (stm_of body.now) (tree_of condition.now))) }
    ensures outside { IfOk result (λ _. known.new.outside ≡ known.old.outside) }
{
    let body = judge_inside(known, around.inside_loop(), body)?;
    let node = judge_exp(known, Site::Statement, None, condition)?;
    do_while_loop(place, condition, body, node)
}

// What a `for` does after its first part.
#[cycle(stmt)]
#[tactic(auto, using(crate::proofs::StatementParts::done_is))]
fn judge_turns(
    known: &mut Known,
    around: Around<'_>,
    place: Place,
    body: &Stmt,
    condition: &Option<Expr>,
    between: &Option<Simple>,
) -> Verdict<CoreStmt>
    ensures value { Judges (λ s. after_of known.new s) result
        (judge_turns (around_of around.entry) (scene_of known.old) place (option_map tree_of condition.now)
        (option_map simple_of between.now) (stm_of body.now)) }
    ensures outside { IfOk result (λ _. known.new.outside ≡ known.old.outside) }
{
    let node = judge_test(known, condition)?;
    let step = judge_between(known, between)?;
    let body = judge_inside(known, around.inside_loop(), body)?;
    for_loop(place, condition, node, step, body)
}

#[cycle(stmt)]
fn judge_for(
    known: &mut Known,
    around: Around<'_>,
    place: Place,
    body: &Stmt,
    first: &Option<First>,
    condition: &Option<Expr>,
    between: &Option<Simple>,
) -> Verdict<CoreStmt>
    ensures value { Judges (λ s. after_of known.new s) result
        (judge_stm (around_of around.entry) (scene_of known.old) (for_loop place (option_map first_of first.now)
        (option_map tree_of condition.now) (option_map simple_of between.now) (stm_of body.now))) }
    ensures outside { IfOk result (λ _. known.new.outside ≡ known.old.outside) }
{
    known.open()?;
    let start = judge_first(known, first)?;
    let front = alone(known.alloc(), start)?;
    let turns = judge_turns(known, around, place, body, condition, between)?;
    known.close();
    Ok(joined(front, turns)?)
}

// The statement inside a `when`, where it sees these variables.
#[cycle(stmt)]
fn judge_bound_body(
    known: &mut Known,
    around: Around<'_>,
    tree: &Stmt,
    variables: &[Variable<'_>],
) -> Verdict<Box<CoreStmt>>
    ensures value { Judges (λ s. after_of known.new s.value) result
        (judge_bound_body (around_of around.entry) (scene_of known.old) (each variable_of variables.now) (stm_of tree.now)) }
    ensures outside { IfOk result (λ _. known.new.outside ≡ known.old.outside) }
{
    judge_bound(known, variables)?;
    let statement = judge_inside(known, around.out_of_loops(), tree)?;
    known.close();
    Ok(statement)
}

#[cycle(stmt)]
#[tactic(auto, unfolding(sz_check_rules::specs::JudgingStatements::judge_stm))]
fn judge_when(
    known: &mut Known,
    around: Around<'_>,
    place: Place,
    body: &Stmt,
    quantifiers: &[Quantifier],
    condition: &Expr,
) -> Verdict<CoreStmt>
    ensures value { Judges (λ s. after_of known.new s) result
        (judge_stm (around_of around.entry) (scene_of known.old)
        (when place (each quantifier_of quantifiers.now) (tree_of condition.now) (stm_of body.now))) }
    ensures outside { IfOk result (λ _. known.new.outside ≡ known.old.outside) }
{
    let front = judge_front(known, quantifiers, condition)?;
    let body = judge_bound_body(known, around, body, front.variables.as_slice())?;
    let variables = judge_quantified(known, &front, condition)?;
    Ok(CoreStmt::When(place, variables, front.condition, body))
}
