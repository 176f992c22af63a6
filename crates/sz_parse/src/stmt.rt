//! Statements.
ghost use Rattle.std.specs.Prelude.{◌<◌, map as each};
ghost use Rattle.sz_tree.specs.View.{stm_of};
ghost use Rattle.sz_parse_expr.specs.Reading.{utf8_in, all_at};
ghost use Rattle.sz_parse.specs.ReadingStatements.{begins_stm, stm_step, body_at, block_at, function_at, colon_at, named_stm_at, if_at, while_at, do_at, for_at, when_at, stm_worded, step_at, stm_at, readers_at};
ghost use Rattle.sz_parse_expr.specs.Outcome.{Gives, Sees};

use crate::leaf::{
    declare, define, emit, maybe_expr, maybe_first, maybe_simple, parameters, return_statement,
    returned, simple_statement, static_statement, table_statement, type_statement,
};
use crate::signs::{beside, ended};
use crate::table::quantifiers;
use sz_lex::{Kind, Sign, Token, Word};
use sz_parse_expr::{Failed, Reader, condition, expect, expect_word, expr, ident, skip, skip_word};
use sz_tree::{Name, Stmt};
use sz_types::Place;

// The tokens, where neither a closing brace nor the end stands.
#[tactic(auto, unfolding(crate::specs::ReadingStatements::begins_stm, sz_parse_expr::specs::Reading::choose))]
fn begins_statement(tokens: &[Token]) -> Option<&[Token]>
    ensures value { Sees (λ r. r.now) result (begins_stm tokens.now) }
{
    let [_, ..] = tokens else {
        return None;
    };
    match skip(Sign::CloseBrace, tokens) {
        Some(_) => None,
        None => Some(tokens),
    }
}

// A statement of at most this height, and what follows it.
#[cycle(statement)]
#[tactic(auto, unfolding(crate::specs::ReadingStatements::stm_at))]
pub fn statement(reader: Reader<'_>) -> Result<(Stmt, &[Token]), Failed>
    ensures read { Gives (λ x. (stm_of x.0, x.1.now)) result (stm_at (utf8_in reader.entry.text.now) reader.entry.depth.levels reader.entry.tokens.now) }
{
    let Some(depth) = reader.depth.deeper() else {
        return Err(Failed::Syntax);
    };
    step(Reader { depth, ..reader })
}

// In what follows, the parts of a statement have at most the height `inner`. This reads a part.
#[cycle(statement)]
#[tactic(auto)]
fn boxed(reader: Reader<'_>) -> Result<(Box<Stmt>, &[Token]), Failed>
    ensures read { Gives (λ x. (stm_of x.0.value, x.1.now)) result (stm_at (utf8_in reader.entry.text.now) reader.entry.depth.levels reader.entry.tokens.now) }
{
    let (tree, rest) = statement(reader)?;
    Ok((Box::new(reader.alloc, tree)?, rest))
}

// What a token begins.
#[cycle(statement)]
#[tactic(auto, unfolding(crate::specs::ReadingStatements::step_at, sz_parse_expr::specs::Reading::bind))]
fn step(reader: Reader<'_>) -> Result<(Stmt, &[Token]), Failed>
    ensures read { Gives (λ x. (stm_of x.0, x.1.now)) result (step_at (utf8_in reader.entry.text.now)
        (readers_at (utf8_in reader.entry.text.now) reader.entry.depth.levels) reader.entry.depth.levels
        reader.entry.tokens.now) }
{
    let [token, rest @ ..] = reader.tokens else {
        return Err(Failed::Syntax);
    };
    match token.kind {
        Kind::Name => {
            let name = ident(reader.alloc, reader.text, token)?;
            named(reader.at(rest), name)
        }
        Kind::Sign(Sign::Semicolon) => Ok((Stmt::Empty(token.place), rest)),
        Kind::Sign(Sign::OpenBrace) => block(reader.at(rest), token.place),
        Kind::Word(word) => worded(reader.at(rest), token.place, word),
        _ => Err(Failed::Syntax),
    }
}

// What a name begins.
#[cycle(statement)]
#[tactic(auto, unfolding(crate::specs::ReadingStatements::named_stm_at, sz_parse_expr::specs::Reading::choose))]
fn named(reader: Reader<'_>, name: Name) -> Result<(Stmt, &[Token]), Failed>
    ensures read { Gives (λ x. (stm_of x.0, x.1.now)) result (named_stm_at (utf8_in reader.entry.text.now)
        (readers_at (utf8_in reader.entry.text.now) reader.entry.depth.levels) reader.entry.depth.levels name
        reader.entry.tokens.now) }
{
    if let Some(rest) = skip(Sign::Colon, reader.tokens) {
        return colon(reader.at(rest), name);
    }
    match skip(Sign::Define, reader.tokens) {
        Some(rest) => define(reader.at(rest), name),
        None => simple_statement(reader, name),
    }
}

// What a name and a colon begin.
#[cycle(statement)]
#[tactic(auto, unfolding(crate::specs::ReadingStatements::colon_at, sz_parse_expr::specs::Reading::choose))]
fn colon(reader: Reader<'_>, name: Name) -> Result<(Stmt, &[Token]), Failed>
    ensures read { Gives (λ x. (stm_of x.0, x.1.now)) result (colon_at (utf8_in reader.entry.text.now)
        (readers_at (utf8_in reader.entry.text.now) reader.entry.depth.levels) name reader.entry.tokens.now) }
{
    if let Some(rest) = skip_word(Word::Table, reader.tokens) {
        return table_statement(reader.at(rest), name);
    }
    match skip_word(Word::Function, reader.tokens) {
        Some(rest) => function(reader.at(rest), name),
        None => declare(reader, name),
    }
}

// A function, after its first word.
#[cycle(statement)]
#[tactic(auto, unfolding(crate::specs::ReadingStatements::function_at, crate::specs::ReadingStatements::parameters_at, crate::specs::ReadingStatements::closed_by, sz_parse_expr::specs::Reading::bind))]
fn function(reader: Reader<'_>, name: Name) -> Result<(Stmt, &[Token]), Failed>
    ensures read { Gives (λ x. (stm_of x.0, x.1.now)) result (function_at (utf8_in reader.entry.text.now)
        (readers_at (utf8_in reader.entry.text.now) reader.entry.depth.levels) name reader.entry.tokens.now) }
{
    let (params, rest) = parameters(reader)?;
    let (of, rest) = returned(reader.at(rest))?;
    let (statements, rest) = body(reader.at(rest))?;
    Ok((Stmt::function(name, params, of, statements), rest))
}

#[cycle(statement)]
#[tactic(auto, unfolding(crate::specs::ReadingStatements::block_at, sz_parse_expr::specs::Reading::bind))]
fn block(reader: Reader<'_>, place: Place) -> Result<(Stmt, &[Token]), Failed>
    ensures read { Gives (λ x. (stm_of x.0, x.1.now)) result
        (block_at (stm_at (utf8_in reader.entry.text.now) reader.entry.depth.levels) place reader.entry.tokens.now) }
{
    let (statements, rest) = body(reader)?;
    Ok((Stmt::block(place, statements), rest))
}

// Statements, and the closing brace.
#[cycle(statement)]
#[tactic(auto, unfolding(crate::specs::ReadingStatements::body_at, sz_parse_expr::specs::Reading::bind))]
fn body(reader: Reader<'_>) -> Result<(Vec<Stmt>, &[Token]), Failed>
    ensures read { Gives (λ x. (each stm_of x.0.items, x.1.now)) result
        (body_at (stm_at (utf8_in reader.entry.text.now) reader.entry.depth.levels) reader.entry.tokens.now) }
{
    let (statements, rest) = statements(reader)?;
    let rest = expect(Sign::CloseBrace, rest)?;
    Ok((statements, rest))
}

// Statements, up to a closing brace or the end.
#[cycle(statement)]
fn statements(reader: Reader<'_>) -> Result<(Vec<Stmt>, &[Token]), Failed>
    ensures read { Gives (λ x. (each stm_of x.0.items, x.1.now)) result (all_at
        (stm_step (stm_at (utf8_in reader.entry.text.now) reader.entry.depth.levels)) reader.entry.tokens.now) }
{
    let mut items = Vec::new(reader.alloc);
    let mut rest = reader.tokens;
    while let Some(_) = begins_statement(rest) {
        let (item, after) = statement(reader.at(rest))?;
        items.push(item)?;
        rest = after;
    }
    Ok((items, rest))
}

// What a word begins.
#[cycle(statement)]
#[tactic(auto, unfolding(crate::specs::ReadingStatements::break_at, crate::specs::ReadingStatements::continue_at))]
fn worded(reader: Reader<'_>, place: Place, word: Word) -> Result<(Stmt, &[Token]), Failed>
    ensures read { Gives (λ x. (stm_of x.0, x.1.now)) result (stm_worded (utf8_in reader.entry.text.now)
        (readers_at (utf8_in reader.entry.text.now) reader.entry.depth.levels) place word reader.entry.tokens.now) }
{
    match word {
        Word::Static => static_statement(reader, place),
        Word::Type => type_statement(reader, place),
        Word::If => choice(reader, place),
        Word::While => repeat(reader, place),
        Word::Do => repeat_until(reader, place),
        Word::For => for_loop(reader, place),
        Word::Break => ended(Stmt::Break(place), reader.tokens),
        Word::Continue => ended(Stmt::Continue(place), reader.tokens),
        Word::Return => return_statement(reader, place),
        Word::Emit => emit(reader, place),
        Word::When => when(reader, place),
        _ => Err(Failed::Syntax),
    }
}

#[cycle(statement)]
#[tactic(auto, unfolding(crate::specs::ReadingStatements::if_at, sz_parse_expr::specs::Reading::bind, sz_parse_expr::specs::Reading::choose))]
fn choice(reader: Reader<'_>, place: Place) -> Result<(Stmt, &[Token]), Failed>
    ensures read { Gives (λ x. (stm_of x.0, x.1.now)) result
        (if_at (readers_at (utf8_in reader.entry.text.now) reader.entry.depth.levels) place reader.entry.tokens.now) }
{
    let test = condition(reader)?;
    let (part, rest) = boxed(reader.at(test.rest))?;
    match skip_word(Word::Else, rest) {
        None => Ok((Stmt::If(place, test.tree, part, None), rest)),
        Some(rest) => {
            let (other, rest) = boxed(reader.at(rest))?;
            Ok((Stmt::If(place, test.tree, part, Some(other)), rest))
        }
    }
}

#[cycle(statement)]
#[tactic(auto, unfolding(crate::specs::ReadingStatements::while_at, sz_parse_expr::specs::Reading::bind))]
fn repeat(reader: Reader<'_>, place: Place) -> Result<(Stmt, &[Token]), Failed>
    ensures read { Gives (λ x. (stm_of x.0, x.1.now)) result (while_at
        (readers_at (utf8_in reader.entry.text.now) reader.entry.depth.levels) place reader.entry.tokens.now) }
{
    let test = condition(reader)?;
    let (part, rest) = boxed(reader.at(test.rest))?;
    Ok((Stmt::While(place, test.tree, part), rest))
}

#[cycle(statement)]
#[tactic(auto, unfolding(crate::specs::ReadingStatements::do_at, sz_parse_expr::specs::Reading::bind))]
fn repeat_until(reader: Reader<'_>, place: Place) -> Result<(Stmt, &[Token]), Failed>
    ensures read { Gives (λ x. (stm_of x.0, x.1.now)) result
        (do_at (readers_at (utf8_in reader.entry.text.now) reader.entry.depth.levels) place reader.entry.tokens.now) }
{
    let (part, rest) = boxed(reader)?;
    let rest = expect_word(Word::While, rest)?;
    let test = condition(reader.at(rest))?;
    ended(Stmt::DoWhile(place, part, test.tree), test.rest)
}

#[cycle(statement)]
#[tactic(auto, unfolding(crate::specs::ReadingStatements::for_at, crate::specs::ReadingStatements::closed_by, sz_parse_expr::specs::Reading::bind))]
fn for_loop(reader: Reader<'_>, place: Place) -> Result<(Stmt, &[Token]), Failed>
    ensures read { Gives (λ x. (stm_of x.0, x.1.now)) result (for_at
        (readers_at (utf8_in reader.entry.text.now) reader.entry.depth.levels) place reader.entry.tokens.now) }
{
    let rest = expect(Sign::OpenParen, reader.tokens)?;
    let (first, rest) = maybe_first(reader.at(rest))?;
    let test = maybe_expr(reader.at(rest), Sign::Semicolon);
    let (first, test, rest) = beside(first, test)?;
    let next = maybe_simple(reader.at(rest));
    let (head, next, rest) = beside((first, test), next)?;
    let part = boxed(reader.at(rest));
    let (((first, test), next), part, rest) = beside((head, next), part)?;
    Ok((Stmt::For(place, first, test, next, part), rest))
}

#[cycle(statement)]
#[tactic(auto, unfolding(crate::specs::ReadingStatements::when_at, sz_parse_expr::specs::Reading::bind))]
fn when(reader: Reader<'_>, place: Place) -> Result<(Stmt, &[Token]), Failed>
    ensures read { Gives (λ x. (stm_of x.0, x.1.now)) result (when_at (utf8_in reader.entry.text.now)
        (readers_at (utf8_in reader.entry.text.now) reader.entry.depth.levels) place reader.entry.tokens.now) }
{
    let rest = expect(Sign::OpenParen, reader.tokens)?;
    let (quantifiers, rest) = quantifiers(reader.at(rest))?;
    let test = expr(reader.at(rest), 5)?;
    let rest = expect(Sign::CloseParen, test.rest)?;
    let (part, rest) = boxed(reader.at(rest))?;
    Ok((Stmt::When(place, quantifiers, test.tree, part), rest))
}
