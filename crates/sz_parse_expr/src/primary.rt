//! Expressions by their first token: literals, names, calls, conversions and what stands in parentheses.
ghost use Rattle.std.specs.Prelude.{◌≡◌, ◌+◌, map as each};
ghost use Rattle.sz_tree.specs.Expressions.{exps_of, height, heights};
ghost use Rattle.sz_tree.specs.View.{tree_of};
ghost use Rattle.sz_parse_expr.specs.Reading.{utf8_in};
ghost use Rattle.sz_parse_expr.specs.ReadingExpressions.{call_at, named_at, closed_at, condition_at, paren_at, worded, primary_here, expr_at};
ghost use Rattle.sz_parse_expr.specs.Outcome.{Parses};

use crate::composite::{arguments, composite};
use crate::expression::expr;
use crate::failed::Failed;
use crate::operators::{conversion_of, quoted, string};
use crate::reader::{Parsed, Reader};
use crate::token::{expect, ident, skip, spelled};
use sz_lex::{Kind, Quoted, Sign, Token, Word};
use sz_tree::{Expr, Literal, Name};
use sz_types::Place;

// A tree without parts, before these tokens.
fn leaf(tree: Expr, rest: &[Token]) -> Parsed<'_, Expr>
    ensures value { result ≡ record { tree = tree; height = 1; rest = rest.entry } }
{
    Parsed {
        tree,
        height: 1,
        rest,
    }
}

// What a token begins, before what is left.
#[cycle(expr)]
#[tactic(auto, unfolding(crate::specs::Reading::bind, sz_tree::specs::Expressions::height))]
pub fn primary<'t>(reader: Reader<'t>, token: &Token) -> Result<Parsed<'t, Expr>, Failed>
    ensures parsed { Parses tree_of height (reader.entry.depth.levels + 1) result
        (primary_here (utf8_in reader.entry.text.now) (expr_at (utf8_in reader.entry.text.now)
        reader.entry.depth.levels) reader.entry.depth.levels token.now token.now.kind reader.entry.tokens.now) }
{
    let place = token.place;
    let rest = reader.tokens;
    match token.kind {
        Kind::Number(n) => Ok(leaf(Expr::Literal(place, Literal::Number(n)), rest)),
        Kind::Character(c) => Ok(leaf(Expr::Literal(place, Literal::Character(c)), rest)),
        Kind::Str => {
            let value = string(reader.alloc, spelled(reader.text, token))?;
            Ok(leaf(Expr::Literal(place, Literal::Str(value)), rest))
        }
        Kind::Bytes => {
            let literal = spelled(reader.text, token).as_bytes();
            let value = quoted(reader.alloc, Quoted::Bytes, literal)?;
            Ok(leaf(Expr::Literal(place, Literal::Bytes(value)), rest))
        }
        Kind::Name => named(reader, ident(reader.alloc, reader.text, token)?),
        Kind::Sign(Sign::OpenParen) => paren(reader, place),
        Kind::Sign(Sign::OpenBrace) => composite(reader, place),
        Kind::Sign(_) => Err(Failed::Syntax),
        Kind::Word(word) => worded(reader, place, word),
    }
}

// What a word begins.
#[cycle(expr)]
#[tactic(auto, unfolding(crate::specs::ReadingExpressions::def_at, crate::specs::ReadingExpressions::convert_at, crate::specs::Reading::bind, sz_tree::specs::Expressions::height))]
fn worded(reader: Reader<'_>, place: Place, word: Word) -> Result<Parsed<'_, Expr>, Failed>
    ensures parsed { Parses tree_of height (reader.entry.depth.levels + 1) result (worded
        (expr_at (utf8_in reader.entry.text.now) reader.entry.depth.levels) place word reader.entry.tokens.now) }
{
    match word {
        Word::True => Ok(leaf(Expr::Literal(place, Literal::Bool(true)), reader.tokens)),
        Word::False => Ok(leaf(Expr::Literal(place, Literal::Bool(false)), reader.tokens)),
        Word::Def => {
            let part = condition(reader)?;
            Ok(Parsed {
                tree: Expr::Def(place, Box::new(reader.alloc, part.tree)?),
                height: 1 + part.height,
                rest: part.rest,
            })
        }
        _ => match conversion_of(word) {
            Some(basic) => {
                let part = condition(reader)?;
                Ok(Parsed {
                    tree: Expr::Convert(place, basic, Box::new(reader.alloc, part.tree)?),
                    height: 1 + part.height,
                    rest: part.rest,
                })
            }
            None => Err(Failed::Syntax),
        },
    }
}

/// An expression in parentheses.
#[cycle(expr)]
#[tactic(auto, unfolding(crate::specs::ReadingExpressions::condition_at, crate::specs::Reading::bind))]
pub fn condition(reader: Reader<'_>) -> Result<Parsed<'_, Expr>, Failed>
    ensures parsed { Parses tree_of height reader.entry.depth.levels result
        (condition_at (expr_at (utf8_in reader.entry.text.now) reader.entry.depth.levels) reader.entry.tokens.now) }
{
    let rest = expect(Sign::OpenParen, reader.tokens)?;
    closed(reader.at(rest))
}

// An expression and a closing parenthesis.
#[cycle(expr)]
#[tactic(auto, unfolding(crate::specs::ReadingExpressions::closed_at, crate::specs::Reading::bind))]
fn closed(reader: Reader<'_>) -> Result<Parsed<'_, Expr>, Failed>
    ensures parsed { Parses tree_of height reader.entry.depth.levels result
        (closed_at (expr_at (utf8_in reader.entry.text.now) reader.entry.depth.levels) reader.entry.tokens.now) }
{
    let part = expr(reader, 5)?;
    let rest = expect(Sign::CloseParen, part.rest)?;
    Ok(Parsed { rest, ..part })
}

#[cycle(expr)]
#[tactic(auto, unfolding(crate::specs::ReadingExpressions::paren_at, crate::specs::Reading::bind, sz_tree::specs::Expressions::height))]
fn paren(reader: Reader<'_>, place: Place) -> Result<Parsed<'_, Expr>, Failed>
    ensures parsed { Parses tree_of height (reader.entry.depth.levels + 1) result
        (paren_at (expr_at (utf8_in reader.entry.text.now) reader.entry.depth.levels) place reader.entry.tokens.now) }
{
    let part = closed(reader)?;
    Ok(Parsed {
        tree: Expr::Paren(place, Box::new(reader.alloc, part.tree)?),
        height: 1 + part.height,
        rest: part.rest,
    })
}

// A name, or a call.
#[cycle(expr)]
#[tactic(auto, unfolding(crate::specs::ReadingExpressions::named_at, crate::specs::Reading::bind, crate::specs::Reading::choose, crate::specs::Reading::guard, sz_tree::specs::Expressions::height))]
fn named(reader: Reader<'_>, name: Name) -> Result<Parsed<'_, Expr>, Failed>
    ensures parsed { Parses tree_of height (reader.entry.depth.levels + 1) result
        (named_at (expr_at (utf8_in reader.entry.text.now) reader.entry.depth.levels) reader.entry.depth.levels name
        reader.entry.tokens.now) }
{
    match skip(Sign::OpenParen, reader.tokens) {
        None => Ok(leaf(Expr::Named(name), reader.tokens)),
        Some(rest) => {
            if reader.depth.levels == 0 {
                return Err(Failed::Syntax);
            }
            let arguments = call(reader.at(rest))?;
            Ok(Parsed {
                tree: Expr::call(name, arguments.tree),
                height: 1 + arguments.height.max(1),
                rest: arguments.rest,
            })
        }
    }
}

/// The arguments of a call, and the closing parenthesis.
#[cycle(expr)]
#[tactic(auto, unfolding(crate::specs::ReadingExpressions::call_at, crate::specs::Reading::bind))]
pub fn call(reader: Reader<'_>) -> Result<Parsed<'_, Vec<Expr>>, Failed>
    ensures parsed { Parses (λ v. exps_of (each tree_of v.items)) heights reader.entry.depth.levels result
        (call_at (expr_at (utf8_in reader.entry.text.now) reader.entry.depth.levels) reader.entry.tokens.now) }
{
    let arguments = arguments(reader)?;
    let rest = expect(Sign::CloseParen, arguments.rest)?;
    Ok(Parsed { rest, ..arguments })
}
