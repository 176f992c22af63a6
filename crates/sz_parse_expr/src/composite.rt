//! Expressions and pairs with commas between them, and the lists and maps of these.
ghost use Rattle.std.specs.Prelude.{◌+◌, [], ◌∷◌, map as each};
ghost use Rattle.sz_tree.specs.Expressions.{exps_of, pairs_of, height, heights, pair_heights};
ghost use Rattle.sz_tree.specs.View.{tree_of, pair_of};
ghost use Rattle.sz_parse_expr.specs.Reading.{utf8_in};
ghost use Rattle.sz_parse_expr.specs.ReadingExpressions.{pair_at, items_after, pairs_after, args_at, list_at, map_at, composite_at, expr_at};
ghost use Rattle.sz_parse_expr.specs.Outcome.{Fits, Parses};

use crate::expression::expr;
use crate::failed::Failed;
use crate::reader::{Parsed, Reader};
use crate::token::{expect, skip};
use sz_lex::Sign;
use sz_tree::{Expr, Pair};
use sz_types::Place;

// The arguments of a call, up to the closing parenthesis.
#[cycle(expr)]
#[tactic(auto, unfolding(crate::specs::ReadingExpressions::args_at, crate::specs::Reading::bind, crate::specs::Reading::choose, sz_tree::specs::Expressions::height))]
pub fn arguments(reader: Reader<'_>) -> Result<Parsed<'_, Vec<Expr>>, Failed>
    ensures parsed { Parses (λ v. each tree_of v.items) (λ es. heights (exps_of es)) reader.entry.depth.levels result
        (args_at (expr_at (utf8_in reader.entry.text.now) reader.entry.depth.levels) reader.entry.tokens.now) }
{
    if let Some(_) = skip(Sign::CloseParen, reader.tokens) {
        return Ok(Parsed {
            tree: Vec::new(reader.alloc),
            height: 0,
            rest: reader.tokens,
        });
    }
    let first = expr(reader, 5)?;
    items(reader, first)
}

// An expression, and those that follow it with a comma before each.
#[cycle(expr)]
fn items<'t>(reader: Reader<'t>, first: Parsed<'t, Expr>) -> Result<Parsed<'t, Vec<Expr>>, Failed>
    requires fits { Fits tree_of height reader.depth.levels first }
    ensures parsed { Parses (λ v. each tree_of v.items) (λ es. heights (exps_of es)) reader.entry.depth.levels result
        (items_after (expr_at (utf8_in reader.entry.text.now) reader.entry.depth.levels) (tree_of first.entry.tree) first.entry.rest.now) }
{
    let mut items = Vec::new(reader.alloc);
    items.push(first.tree)?;
    let mut height = first.height;
    let mut rest = first.rest;
    while let Some(after) = skip(Sign::Comma, rest) {
        let item = expr(reader.at(after), 5)?;
        items.push(item.tree)?;
        height = height.max(item.height);
        rest = item.rest;
    }
    Ok(Parsed {
        tree: items,
        height,
        rest,
    })
}

// A list or a map, after its opening brace.
#[cycle(expr)]
#[tactic(auto, unfolding(crate::specs::ReadingExpressions::composite_at, crate::specs::Reading::bind, crate::specs::Reading::choose, sz_tree::specs::Expressions::height))]
pub fn composite(reader: Reader<'_>, place: Place) -> Result<Parsed<'_, Expr>, Failed>
    ensures parsed { Parses tree_of height (reader.entry.depth.levels + 1) result (composite_at
        (expr_at (utf8_in reader.entry.text.now) reader.entry.depth.levels) place reader.entry.tokens.now) }
{
    if let Some(rest) = skip(Sign::CloseBrace, reader.tokens) {
        return Ok(Parsed {
            tree: Expr::list(place, Vec::new(reader.alloc)),
            height: 1,
            rest,
        });
    }
    if let Some(rest) = skip(Sign::Colon, reader.tokens) {
        let rest = expect(Sign::CloseBrace, rest)?;
        return Ok(Parsed {
            tree: Expr::map(place, Vec::new(reader.alloc)),
            height: 1,
            rest,
        });
    }
    let first = expr(reader, 5)?;
    match skip(Sign::Colon, first.rest) {
        None => list(reader, place, first),
        Some(rest) => {
            let value = expr(reader.at(rest), 5)?;
            let first = Parsed {
                height: first.height.max(value.height),
                tree: Pair {
                    key: first.tree,
                    value: value.tree,
                },
                rest: value.rest,
            };
            map(reader, place, first)
        }
    }
}

#[cycle(expr)]
#[tactic(auto, unfolding(crate::specs::ReadingExpressions::list_at, crate::specs::Reading::bind, sz_tree::specs::Expressions::height))]
fn list<'t>(
    reader: Reader<'t>,
    place: Place,
    first: Parsed<'t, Expr>,
) -> Result<Parsed<'t, Expr>, Failed>
    requires fits { Fits tree_of height reader.depth.levels first }
    ensures parsed { Parses tree_of height (reader.entry.depth.levels + 1) result
        (list_at (expr_at (utf8_in reader.entry.text.now) reader.entry.depth.levels) place
        (tree_of first.entry.tree) first.entry.rest.now) }
{
    let items = items(reader, first)?;
    let rest = expect(Sign::CloseBrace, items.rest)?;
    Ok(Parsed {
        tree: Expr::list(place, items.tree),
        height: 1 + items.height,
        rest,
    })
}

#[cycle(expr)]
#[tactic(auto, unfolding(crate::specs::ReadingExpressions::map_at, crate::specs::Reading::bind, sz_tree::specs::Expressions::height))]
fn map<'t>(
    reader: Reader<'t>,
    place: Place,
    first: Parsed<'t, Pair>,
) -> Result<Parsed<'t, Expr>, Failed>
    requires fits { Fits pair_of (λ p. pair_heights (pairs_of (p ∷ []))) reader.depth.levels first }
    ensures parsed { Parses tree_of height (reader.entry.depth.levels + 1) result
        (map_at (expr_at (utf8_in reader.entry.text.now) reader.entry.depth.levels) place
        (pair_of first.entry.tree) first.entry.rest.now) }
{
    let pairs = pairs(reader, first)?;
    let rest = expect(Sign::CloseBrace, pairs.rest)?;
    Ok(Parsed {
        tree: Expr::map(place, pairs.tree),
        height: 1 + pairs.height,
        rest,
    })
}

// A key and its value.
#[cycle(expr)]
#[tactic(auto, unfolding(crate::specs::ReadingExpressions::pair_at, crate::specs::Reading::bind, sz_tree::specs::Expressions::height))]
fn pair(reader: Reader<'_>) -> Result<Parsed<'_, Pair>, Failed>
    ensures parsed { Parses pair_of (λ p. pair_heights (pairs_of (p ∷ []))) reader.entry.depth.levels result
        (pair_at (expr_at (utf8_in reader.entry.text.now) reader.entry.depth.levels) reader.entry.tokens.now) }
{
    let key = expr(reader, 5)?;
    let rest = expect(Sign::Colon, key.rest)?;
    let value = expr(reader.at(rest), 5)?;
    Ok(Parsed {
        height: key.height.max(value.height),
        tree: Pair {
            key: key.tree,
            value: value.tree,
        },
        rest: value.rest,
    })
}

// A pair, and those that follow it with a comma before each.
#[cycle(expr)]
fn pairs<'t>(reader: Reader<'t>, first: Parsed<'t, Pair>) -> Result<Parsed<'t, Vec<Pair>>, Failed>
    requires fits { Fits pair_of (λ p. pair_heights (pairs_of (p ∷ []))) reader.depth.levels first }
    ensures parsed { Parses (λ v. each pair_of v.items) (λ ps. pair_heights (pairs_of ps)) reader.entry.depth.levels result
        (pairs_after (expr_at (utf8_in reader.entry.text.now) reader.entry.depth.levels) (pair_of first.entry.tree) first.entry.rest.now) }
{
    let mut pairs = Vec::new(reader.alloc);
    pairs.push(first.tree)?;
    let mut height = first.height;
    let mut rest = first.rest;
    while let Some(after) = skip(Sign::Comma, rest) {
        let item = pair(reader.at(after))?;
        pairs.push(item.tree)?;
        height = height.max(item.height);
        rest = item.rest;
    }
    Ok(Parsed {
        tree: pairs,
        height,
        rest,
    })
}
