//! Statements that may stand as a step of a `for`, and its first part.
ghost use Rattle.std.specs.Prelude.{◌<◌, map as each};
ghost use Rattle.sz_tree.specs.View.{tree_of, step_of, simple_of, first_of};
ghost use Rattle.sz_parse_expr.specs.Reading.{utf8_in, all_at};
ghost use Rattle.sz_parse_expr.specs.ReadingExpressions.{expr_at};
ghost use Rattle.sz_parse_expr.specs.ReadingTypes.{type_at};
ghost use Rattle.sz_parse.specs.ReadingStatements.{index_at, index_step, begins_step, step_item, path_step, assign_at, simple_after, simple_at, first_after, first_at};
ghost use Rattle.sz_parse_expr.specs.Outcome.{Gives, Sees};

use crate::signs::later;
use sz_lex::{Sign, Token};
use sz_parse_expr::{Failed, Reader, call, expect, expr, name, skip, type_tree};
use sz_tree::{Expr, First, Name, Path, Simple, Step};

// An expression and a closing bracket.
#[tactic(auto, unfolding(crate::specs::ReadingStatements::index_at, sz_parse_expr::specs::Reading::bind))]
fn index(reader: Reader<'_>) -> Result<(Expr, &[Token]), Failed>
    ensures read { Gives (λ x. (tree_of x.0, x.1.now)) result
        (index_at (expr_at (utf8_in reader.entry.text.now) reader.entry.depth.levels) reader.entry.tokens.now) }
{
    let part = expr(reader, 5)?;
    let rest = expect(Sign::CloseBracket, part.rest)?;
    Ok((part.tree, rest))
}

// Expressions, each in brackets.
pub fn indexes(reader: Reader<'_>) -> Result<(Vec<Expr>, &[Token]), Failed>
    ensures read { Gives (λ x. (each tree_of x.0.items, x.1.now)) result (all_at
        (index_step (expr_at (utf8_in reader.entry.text.now) reader.entry.depth.levels)) reader.entry.tokens.now) }
{
    let mut items = Vec::new(reader.alloc);
    let mut rest = reader.tokens;
    while let Some(after) = skip(Sign::OpenBracket, rest) {
        let (item, after) = index(reader.at(after))?;
        items.push(item)?;
        rest = after;
    }
    Ok((items, rest))
}

// What follows the bracket or dot with which a step of a path begins.
#[tactic(auto, unfolding(crate::specs::ReadingStatements::begins_step, sz_parse_expr::specs::Reading::choose))]
fn begins_step(tokens: &[Token]) -> Option<&[Token]>
    ensures value { Sees (λ r. r.now) result (begins_step tokens.now) }
{
    match skip(Sign::OpenBracket, tokens) {
        Some(rest) => Some(rest),
        None => skip(Sign::Dot, tokens),
    }
}

// A step of a path.
#[tactic(auto, unfolding(crate::specs::ReadingStatements::step_item, sz_parse_expr::specs::Reading::bind, sz_parse_expr::specs::Reading::choose))]
fn step(reader: Reader<'_>) -> Result<(Step, &[Token]), Failed>
    ensures read { Gives (λ x. (step_of x.0, x.1.now)) result (step_item (utf8_in reader.entry.text.now)
        (expr_at (utf8_in reader.entry.text.now) reader.entry.depth.levels) reader.entry.tokens.now) }
{
    match skip(Sign::OpenBracket, reader.tokens) {
        Some(rest) => {
            let (tree, rest) = index(reader.at(rest))?;
            Ok((Step::Index(tree), rest))
        }
        None => {
            let rest = expect(Sign::Dot, reader.tokens)?;
            let (name, rest) = name(reader.at(rest))?;
            Ok((Step::Field(name), rest))
        }
    }
}

// The steps of a path.
fn steps(reader: Reader<'_>) -> Result<(Vec<Step>, &[Token]), Failed>
    ensures read { Gives
        (λ x. (each step_of x.0.items, x.1.now)) result (all_at (path_step (utf8_in reader.entry.text.now)
        (expr_at (utf8_in reader.entry.text.now) reader.entry.depth.levels)) reader.entry.tokens.now) }
{
    let mut items = Vec::new(reader.alloc);
    let mut rest = reader.tokens;
    while let Some(_) = begins_step(rest) {
        let (item, after) = step(reader.at(rest))?;
        items.push(item)?;
        rest = after;
    }
    Ok((items, rest))
}

// An assignment, after the name of its variable.
#[tactic(auto, unfolding(crate::specs::ReadingStatements::assign_at, crate::specs::ReadingStatements::after_at, sz_parse_expr::specs::Reading::bind))]
fn assign(reader: Reader<'_>, name: Name) -> Result<(Simple, &[Token]), Failed>
    ensures read { Gives (λ x. (simple_of x.0, x.1.now)) result (assign_at (utf8_in reader.entry.text.now)
        (expr_at (utf8_in reader.entry.text.now) reader.entry.depth.levels) name reader.entry.tokens.now) }
{
    let (steps, rest) = steps(reader)?;
    let (value, rest) = later(reader.at(rest), Sign::Assign)?;
    Ok((Simple::Assign(Path { name, steps }, value), rest))
}

// What a name begins; a step counts as an assignment of a sum, which is 3 high, and a call is at least 2 high.
#[tactic(auto, unfolding(crate::specs::ReadingStatements::simple_after, sz_parse_expr::specs::Reading::bind, sz_parse_expr::specs::Reading::choose, sz_parse_expr::specs::Reading::guard))]
pub fn simple_after(reader: Reader<'_>, name: Name) -> Result<(Simple, &[Token]), Failed>
    ensures read { Gives (λ x. (simple_of x.0, x.1.now)) result (simple_after (utf8_in reader.entry.text.now)
        (expr_at (utf8_in reader.entry.text.now) reader.entry.depth.levels) reader.entry.depth.levels name
        reader.entry.tokens.now) }
{
    if let Some(rest) = skip(Sign::Increment, reader.tokens) {
        if reader.depth.levels < 2 {
            return Err(Failed::Syntax);
        }
        return Ok((Simple::Increment(name), rest));
    }
    if let Some(rest) = skip(Sign::Decrement, reader.tokens) {
        if reader.depth.levels < 2 {
            return Err(Failed::Syntax);
        }
        return Ok((Simple::Decrement(name), rest));
    }
    match skip(Sign::OpenParen, reader.tokens) {
        None => assign(reader, name),
        Some(rest) => {
            if reader.depth.levels == 0 {
                return Err(Failed::Syntax);
            }
            let arguments = call(reader.at(rest))?;
            Ok((Simple::Call(name, arguments.tree), arguments.rest))
        }
    }
}

// A statement of at most this height that may stand as a step of a `for`.
#[tactic(auto, unfolding(crate::specs::ReadingStatements::simple_at, sz_parse_expr::specs::Reading::bind))]
pub fn simple(reader: Reader<'_>) -> Result<(Simple, &[Token]), Failed>
    ensures read { Gives (λ x. (simple_of x.0, x.1.now)) result (simple_at (utf8_in reader.entry.text.now) reader.entry.depth.levels reader.entry.tokens.now) }
{
    let Some(depth) = reader.depth.deeper() else {
        return Err(Failed::Syntax);
    };
    let (name, rest) = name(reader)?;
    let reader = Reader { depth, ..reader };
    simple_after(reader.at(rest), name)
}

// The first part of a `for`, after its name.
#[tactic(auto, unfolding(crate::specs::ReadingStatements::first_after, crate::specs::ReadingStatements::after_at, sz_parse_expr::specs::Reading::bind, sz_parse_expr::specs::Reading::choose))]
fn first_after(reader: Reader<'_>, name: Name) -> Result<(First, &[Token]), Failed>
    ensures read { Gives (λ x. (first_of x.0, x.1.now)) result
        (first_after (utf8_in reader.entry.text.now)
        (expr_at (utf8_in reader.entry.text.now) reader.entry.depth.levels) (type_at (utf8_in reader.entry.text.now)
        reader.entry.depth.levels) reader.entry.depth.levels name reader.entry.tokens.now) }
{
    if let Some(rest) = skip(Sign::Colon, reader.tokens) {
        let (of, rest) = type_tree(reader.at(rest))?;
        let (value, rest) = later(reader.at(rest), Sign::Assign)?;
        return Ok((First::Declare(name, of, value), rest));
    }
    if let Some(rest) = skip(Sign::Define, reader.tokens) {
        let value = expr(reader.at(rest), 5)?;
        return Ok((First::Define(name, value.tree), value.rest));
    }
    let (simple, rest) = simple_after(reader, name)?;
    Ok((First::Simple(simple), rest))
}

// The first part of a `for`, at most this high.
#[tactic(auto, unfolding(crate::specs::ReadingStatements::first_at, sz_parse_expr::specs::Reading::bind))]
pub fn first(reader: Reader<'_>) -> Result<(First, &[Token]), Failed>
    ensures read { Gives (λ x. (first_of x.0, x.1.now)) result (first_at (utf8_in reader.entry.text.now) reader.entry.depth.levels reader.entry.tokens.now) }
{
    let Some(depth) = reader.depth.deeper() else {
        return Err(Failed::Syntax);
    };
    let (name, rest) = name(reader)?;
    let reader = Reader { depth, ..reader };
    first_after(reader.at(rest), name)
}
