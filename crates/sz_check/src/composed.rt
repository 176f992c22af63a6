//! Statements that are made of others.
ghost use Rattle.std.specs.Prelude.{◌≡◌, ◌++◌, ◌∷◌, [], IfOk, map as each};
ghost use Rattle.std.specs.Option.{option_map};
ghost use Rattle.sz_tree.specs.View.{tree_of};
ghost use Rattle.sz_core.specs.Statements.{block, stms_of};
ghost use Rattle.sz_core.specs.View.{node_of, stm_of};
ghost use Rattle.sz_check_rules.specs.JudgingStatements.{branch_of, while_of, do_while_of, for_of};
ghost use Rattle.sz_check_names.specs.Outcome.{Judges};

use crate::simple::test_if_some;
use std::alloc::{AllocError, Global};
use sz_check_expr::test;
use sz_check_names::Verdict;
use sz_core::{CoreExpr, CoreStmt};
use sz_tree::Expr;
use sz_types::Place;

// A statement in a box.
pub fn boxed(alloc: Global, statement: CoreStmt) -> Result<Box<CoreStmt>, AllocError>
    ensures value { IfOk result (λ made. made.value ≡ statement) }
{
    Ok(Box::new(alloc, statement)?)
}

// A list of one statement.
pub fn alone(alloc: Global, statement: CoreStmt) -> Result<Vec<CoreStmt>, AllocError>
    ensures value { IfOk result (λ made. each stm_of made.items ≡ stm_of statement ∷ []) }
{
    let mut statements = Vec::new(alloc);
    statements.push(statement)?;
    Ok(statements)
}

// A block of statements and one more after them.
pub fn joined(front: Vec<CoreStmt>, last: CoreStmt) -> Result<CoreStmt, AllocError>
    ensures value { IfOk result (λ made. stm_of made ≡ block (stms_of (each stm_of front.items ++ stm_of last ∷ []))) }
{
    let mut statements = front;
    statements.push(last)?;
    Ok(CoreStmt::block(statements))
}

// A branch over a test, which must be a truth value.
pub fn branch(
    place: Place,
    condition: &Expr,
    node: CoreExpr,
    taken: Box<CoreStmt>,
    other: Box<CoreStmt>,
) -> Verdict<CoreStmt>
    ensures value { Judges stm_of result (branch_of place (tree_of condition.now) (node_of node) (stm_of taken.value) (stm_of other.value)) }
{
    test(condition, &node)?;
    Ok(CoreStmt::Branch(place, node, taken, other))
}

// A loop with a test in front of each turn, which must be a truth value.
pub fn while_loop(
    place: Place,
    condition: &Expr,
    node: CoreExpr,
    body: Box<CoreStmt>,
) -> Verdict<CoreStmt>
    ensures value { Judges stm_of result (while_of place (tree_of condition.now) (node_of node) (stm_of body.value)) }
{
    test(condition, &node)?;
    Ok(CoreStmt::While(place, node, body))
}

// A loop with a test after each turn, which must be a truth value.
pub fn do_while_loop(
    place: Place,
    condition: &Expr,
    body: Box<CoreStmt>,
    node: CoreExpr,
) -> Verdict<CoreStmt>
    ensures value { Judges stm_of result (do_while_of place (tree_of condition.now) (stm_of body.value) (node_of node)) }
{
    test(condition, &node)?;
    Ok(CoreStmt::DoWhile(place, body, node))
}

// The turns of a `for` over a test that may be missing, with what is done between them.
pub fn for_loop(
    place: Place,
    condition: &Option<Expr>,
    node: Option<CoreExpr>,
    step: Box<CoreStmt>,
    body: Box<CoreStmt>,
) -> Verdict<CoreStmt>
    ensures value { Judges stm_of result
        (for_of place (option_map tree_of condition.now) (option_map node_of node) (stm_of step.value) (stm_of body.value)) }
{
    test_if_some(condition, &node)?;
    Ok(CoreStmt::For(place, node, step, body))
}
