//! Expressions that indices, slices and fields stand after.
ghost use Rattle.std.specs.Prelude.{◌≡◌, ◌+◌, ◌≤◌, max};
ghost use Rattle.sz_tree.specs.Expressions.{height};
ghost use Rattle.sz_tree.specs.View.{tree_of};
ghost use Rattle.sz_parse_expr.specs.Reading.{utf8_in};
ghost use Rattle.sz_parse_expr.specs.ReadingExpressions.{bracket_at, part_at, tail_at, postfix_at, expr_at};
ghost use Rattle.sz_parse_expr.specs.ReadingParts.{slice_at};
ghost use Rattle.sz_parse_expr.specs.Outcome.{Fits, Parses};

use crate::expression::expr;
use crate::failed::Failed;
use crate::nodes::{field, indexed, sliced};
use crate::primary::primary;
use crate::reader::{Parsed, Reader};
use crate::token::{expect, name, skip};
use sz_lex::Sign;
use sz_tree::Expr;

// An expression with what stands after it.
#[cycle(expr)]
#[tactic(auto, unfolding(crate::specs::ReadingExpressions::postfix_at, crate::specs::Reading::bind))]
pub fn postfix(reader: Reader<'_>) -> Result<Parsed<'_, Expr>, Failed>
    ensures parsed { Parses tree_of height (reader.entry.depth.levels + 1) result
        (postfix_at (utf8_in reader.entry.text.now) (expr_at (utf8_in reader.entry.text.now)
        reader.entry.depth.levels) reader.entry.depth.levels reader.entry.tokens.now) }
{
    let [token, rest @ ..] = reader.tokens else {
        return Err(Failed::Syntax);
    };
    let first = primary(reader.at(rest), token)?;
    parts(reader, first)
}

// The indices, slices and fields after an expression.
#[cycle(expr)]
fn parts<'t>(reader: Reader<'t>, first: Parsed<'t, Expr>) -> Result<Parsed<'t, Expr>, Failed>
    requires fits { Fits tree_of height (reader.depth.levels + 1) first }
    ensures parsed { Parses tree_of height (reader.entry.depth.levels + 1) result
        (tail_at (utf8_in reader.entry.text.now) (expr_at (utf8_in reader.entry.text.now) reader.entry.depth.levels)
        reader.entry.depth.levels (reader.entry.depth.levels + 1) (tree_of first.entry.tree) first.entry.rest.now) }
{
    let mut left = first;
    // Each part makes the expression higher.
    for _ in 0..reader.depth.levels + 1 {
        let Parsed {
            tree: (tree, more),
            height,
            rest,
        } = part(reader, left)?;
        left = Parsed { tree, height, rest };
        if !more {
            return Ok(left);
        }
    }
    Ok(left)
}

// An index, a slice or a field, if one stands there, and whether one does.
#[cycle(expr)]
#[tactic(auto, unfolding(crate::specs::ReadingExpressions::part_at, crate::specs::ReadingExpressions::part_step, crate::specs::ReadingExpressions::field_at, crate::specs::Reading::bind, crate::specs::Reading::choose, crate::specs::Reading::guard, sz_tree::specs::Expressions::height))]
fn part<'t>(reader: Reader<'t>, left: Parsed<'t, Expr>) -> Result<Parsed<'t, (Expr, bool)>, Failed>
    requires fits { Fits tree_of height (reader.depth.levels + 1) left }
    ensures parsed { Parses (λ x. (tree_of x.0, x.1)) (λ x. height x.0) (reader.entry.depth.levels + 1) result
        (part_at (utf8_in reader.entry.text.now) (expr_at (utf8_in reader.entry.text.now) reader.entry.depth.levels)
        reader.entry.depth.levels (tree_of left.entry.tree) left.entry.rest.now) }
{
    match skip(Sign::OpenBracket, left.rest) {
        Some(rest) => {
            if left.height > reader.depth.levels {
                return Err(Failed::Syntax);
            }
            let Parsed { tree, height, rest } = bracket(reader.at(rest), left)?;
            Ok(Parsed {
                tree: (tree, true),
                height,
                rest,
            })
        }
        None => match skip(Sign::Dot, left.rest) {
            Some(rest) => {
                if left.height > reader.depth.levels {
                    return Err(Failed::Syntax);
                }
                let (name, rest) = name(reader.at(rest))?;
                Ok(Parsed {
                    tree: (field(reader.alloc, left.tree, name)?, true),
                    height: 1 + left.height,
                    rest,
                })
            }
            None => Ok(Parsed {
                tree: (left.tree, false),
                height: left.height,
                rest: left.rest,
            }),
        },
    }
}

// An index or a slice, after its opening bracket.
#[cycle(expr)]
#[tactic(auto, unfolding(crate::specs::ReadingExpressions::bracket_at, crate::specs::Reading::bind, crate::specs::Reading::choose, sz_tree::specs::Expressions::height))]
fn bracket<'t>(reader: Reader<'t>, left: Parsed<'t, Expr>) -> Result<Parsed<'t, Expr>, Failed>
    requires fits { Fits tree_of height reader.depth.levels left }
    ensures parsed { Parses tree_of height (reader.entry.depth.levels + 1) result
        (bracket_at (expr_at (utf8_in reader.entry.text.now) reader.entry.depth.levels)
        (tree_of left.entry.tree) reader.entry.tokens.now) }
{
    let at = expr(reader, 5)?;
    let front_height = left.height.max(at.height);
    match skip(Sign::Colon, at.rest) {
        None => {
            let rest = expect(Sign::CloseBracket, at.rest)?;
            Ok(Parsed {
                tree: indexed(reader.alloc, left.tree, at.tree)?,
                height: 1 + front_height,
                rest,
            })
        }
        Some(rest) => slice(reader.at(rest), left.tree, at.tree, front_height),
    }
}

// A slice, after its colon.
#[cycle(expr)]
#[tactic(auto, unfolding(crate::specs::Reading::bind, sz_tree::specs::Expressions::height))]
fn slice(
    reader: Reader<'_>,
    left: Expr,
    from: Expr,
    front_height: u32,
) -> Result<Parsed<'_, Expr>, Failed>
    requires low { front_height ≤ reader.depth.levels }
    requires measured { front_height ≡ max (height (tree_of left)) (height (tree_of from)) }
    ensures parsed { Parses tree_of height (reader.entry.depth.levels + 1) result
        (slice_at (expr_at (utf8_in reader.entry.text.now) reader.entry.depth.levels) (tree_of left)
        (tree_of from) reader.entry.tokens.now) }
{
    let to = expr(reader, 5)?;
    let rest = expect(Sign::CloseBracket, to.rest)?;
    Ok(Parsed {
        tree: sliced(reader.alloc, left, from, to.tree)?,
        height: 1 + front_height.max(to.height),
        rest,
    })
}
