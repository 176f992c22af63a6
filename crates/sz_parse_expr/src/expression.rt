//! Expressions: operators and their operands.
ghost use Rattle.std.specs.Prelude.{◌+◌, ◌<◌, ◌≤◌};
ghost use Rattle.sz_tree.specs.Expressions.{height};
ghost use Rattle.sz_tree.specs.View.{tree_of};
ghost use Rattle.sz_parse_expr.specs.Reading.{utf8_in};
ghost use Rattle.sz_parse_expr.specs.ReadingExpressions.{prefix_at, chain_at, level_at, expr_at};
ghost use Rattle.sz_parse_expr.specs.Outcome.{Fits, Parses};

use crate::failed::Failed;
use crate::nodes::joined;
use crate::operators::{operator, unary_of};
use crate::postfix::postfix;
use crate::reader::{Parsed, Reader};
use sz_tree::Expr;

/// An expression of at most the reader's height, no looser than this.
#[cycle(expr)]
#[tactic(auto, unfolding(crate::specs::ReadingExpressions::expr_at))]
pub fn expr(reader: Reader<'_>, level: u32) -> Result<Parsed<'_, Expr>, Failed>
    requires level { level ≤ 5 }
    ensures parsed { Parses tree_of height reader.entry.depth.levels result
        (expr_at (utf8_in reader.entry.text.now) reader.entry.depth.levels level reader.entry.tokens.now) }
{
    let Some(depth) = reader.depth.deeper() else {
        return Err(Failed::Syntax);
    };
    at_level(Reader { depth, ..reader }, level)
}

// In what follows, the parts of an expression have at most the height of the reader.
#[cycle(expr)]
#[tactic(auto, unfolding(crate::specs::ReadingExpressions::level_at, crate::specs::Reading::bind))]
fn at_level(reader: Reader<'_>, level: u32) -> Result<Parsed<'_, Expr>, Failed>
    requires level { level ≤ 5 }
    ensures parsed { Parses tree_of height (reader.entry.depth.levels + 1) result
        (level_at (utf8_in reader.entry.text.now) (expr_at (utf8_in reader.entry.text.now) reader.entry.depth.levels)
        reader.entry.depth.levels level reader.entry.tokens.now) }
{
    if level == 0 {
        return prefix(reader);
    }
    let left = at_level(reader, level - 1)?;
    chain(reader, level - 1, left)
}

// The operators of one level after an expression.
#[cycle(expr)]
fn chain<'t>(
    reader: Reader<'t>,
    below: u32,
    first: Parsed<'t, Expr>,
) -> Result<Parsed<'t, Expr>, Failed>
    requires level { below < 5 }
    requires fits { Fits tree_of height (reader.depth.levels + 1) first }
    ensures parsed { Parses tree_of height (reader.entry.depth.levels + 1) result
        (chain_at (expr_at (utf8_in reader.entry.text.now) reader.entry.depth.levels) reader.entry.depth.levels below
        (reader.entry.depth.levels + 1) (tree_of first.entry.tree) first.entry.rest.now) }
{
    let mut left = first;
    // Each operator makes the expression higher.
    for _ in 0..reader.depth.levels + 1 {
        let Some((op, after)) = operator(below + 1, left.rest) else {
            return Ok(left);
        };
        if left.tree.level() > op.left_level() || left.height > reader.depth.levels {
            return Err(Failed::Syntax);
        }
        let right = expr(reader.at(after), below)?;
        let tree = joined(reader.alloc, op, left.tree, right.tree)?;
        left = Parsed {
            tree,
            height: 1 + left.height.max(right.height),
            rest: right.rest,
        };
    }
    Ok(left)
}

// A unary operator with its operand, or an expression that an index may stand after.
#[cycle(expr)]
#[tactic(auto, unfolding(crate::specs::ReadingExpressions::prefix_at, crate::specs::ReadingExpressions::unary_at, crate::specs::Reading::bind, crate::specs::Reading::choose, sz_tree::specs::Expressions::height))]
fn prefix(reader: Reader<'_>) -> Result<Parsed<'_, Expr>, Failed>
    ensures parsed { Parses tree_of height (reader.entry.depth.levels + 1) result
        (prefix_at (utf8_in reader.entry.text.now) (expr_at (utf8_in reader.entry.text.now) reader.entry.depth.levels)
        reader.entry.depth.levels reader.entry.tokens.now) }
{
    let [token, rest @ ..] = reader.tokens else {
        return Err(Failed::Syntax);
    };
    match unary_of(token.kind) {
        Some(op) => {
            let operand = expr(reader.at(rest), 0)?;
            Ok(Parsed {
                tree: Expr::Unary(token.place, op, Box::new(reader.alloc, operand.tree)?),
                height: 1 + operand.height,
                rest: operand.rest,
            })
        }
        None => postfix(reader),
    }
}
