//! Statements that have no statements for parts, and parts of statements.
ghost use Rattle.std.specs.Prelude.{◌<◌, map as each};
ghost use Rattle.std.specs.Option.{option_map};
ghost use Rattle.sz_lex.specs.declared.sign.Sign.TheVariants.{Semicolon, OpenBrace, CloseParen};
ghost use Rattle.sz_tree.specs.View.{tree_of, type_of, first_of, simple_of, param_of, stm_of};
ghost use Rattle.sz_parse_expr.specs.Reading.{utf8_in};
ghost use Rattle.sz_parse_expr.specs.ReadingExpressions.{expr_at};
ghost use Rattle.sz_parse_expr.specs.ReadingTypes.{type_at};
ghost use Rattle.sz_parse.specs.ReadingStatements.{unless_at, init_at, weight_at, simple_at, first_at, declare_at, declared_at, parameters_at, table_stm_at, define_at, simple_stm_at, static_at, typedef_at, return_at, emit_at, closed_by, readers_at};
ghost use Rattle.sz_parse_expr.specs.Outcome.{Gives};

use crate::signs::{ended, later};
use crate::simple::{first, indexes, simple, simple_after};
use crate::table::table;
use sz_lex::{Sign, Token, Word};
use sz_parse_expr::{
    Failed, Reader, expect, expr, label, name, params, skip, skip_word, type_tree,
};
use sz_tree::{Expr, First, Name, Param, Simple, Stmt, TypeTree};
use sz_types::Place;

// An expression unless this sign stands there, and the sign.
#[tactic(auto, unfolding(crate::specs::ReadingStatements::closed_by, crate::specs::ReadingStatements::unless_at, sz_parse_expr::specs::Reading::bind, sz_parse_expr::specs::Reading::choose))]
pub fn maybe_expr(reader: Reader<'_>, sign: Sign) -> Result<(Option<Expr>, &[Token]), Failed>
    ensures read { Gives (λ x. (option_map tree_of x.0, x.1.now)) result (closed_by sign (unless_at sign
        (expr_at (utf8_in reader.entry.text.now) reader.entry.depth.levels 5) reader.entry.tokens.now)) }
{
    if let Some(rest) = skip(sign, reader.tokens) {
        return Ok((None, rest));
    }
    let part = expr(reader, 5)?;
    let rest = expect(sign, part.rest)?;
    Ok((Some(part.tree), rest))
}

// The first part of a `for` unless a semicolon stands there, and the semicolon.
#[tactic(auto, unfolding(crate::specs::ReadingStatements::closed_by, crate::specs::ReadingStatements::unless_at, sz_parse_expr::specs::Reading::bind, sz_parse_expr::specs::Reading::choose))]
pub fn maybe_first(reader: Reader<'_>) -> Result<(Option<First>, &[Token]), Failed>
    ensures read { Gives (λ x. (option_map first_of x.0, x.1.now)) result (closed_by Semicolon (unless_at Semicolon
        (first_at (utf8_in reader.entry.text.now) reader.entry.depth.levels) reader.entry.tokens.now)) }
{
    if let Some(rest) = skip(Sign::Semicolon, reader.tokens) {
        return Ok((None, rest));
    }
    let (part, rest) = first(reader)?;
    let rest = expect(Sign::Semicolon, rest)?;
    Ok((Some(part), rest))
}

// The step of a `for` unless a closing parenthesis stands there, and the parenthesis.
#[tactic(auto, unfolding(crate::specs::ReadingStatements::closed_by, crate::specs::ReadingStatements::unless_at, sz_parse_expr::specs::Reading::bind, sz_parse_expr::specs::Reading::choose))]
pub fn maybe_simple(reader: Reader<'_>) -> Result<(Option<Simple>, &[Token]), Failed>
    ensures read { Gives (λ x. (option_map simple_of x.0, x.1.now)) result (closed_by CloseParen (unless_at CloseParen
        (simple_at (utf8_in reader.entry.text.now) reader.entry.depth.levels) reader.entry.tokens.now)) }
{
    if let Some(rest) = skip(Sign::CloseParen, reader.tokens) {
        return Ok((None, rest));
    }
    let (part, rest) = simple(reader)?;
    let rest = expect(Sign::CloseParen, rest)?;
    Ok((Some(part), rest))
}

// The expression after an equals sign, if one stands there.
#[tactic(auto, unfolding(crate::specs::ReadingStatements::init_at, sz_parse_expr::specs::Reading::bind, sz_parse_expr::specs::Reading::choose))]
fn init(reader: Reader<'_>) -> Result<(Option<Expr>, &[Token]), Failed>
    ensures read { Gives (λ x. (option_map tree_of x.0, x.1.now)) result
        (init_at (expr_at (utf8_in reader.entry.text.now) reader.entry.depth.levels) reader.entry.tokens.now) }
{
    match skip(Sign::Assign, reader.tokens) {
        None => Ok((None, reader.tokens)),
        Some(rest) => {
            let part = expr(reader.at(rest), 5)?;
            Ok((Some(part.tree), part.rest))
        }
    }
}

// The expression after `weight`, if one stands there.
#[tactic(auto, unfolding(crate::specs::ReadingStatements::weight_at, sz_parse_expr::specs::Reading::bind, sz_parse_expr::specs::Reading::choose))]
fn weight(reader: Reader<'_>) -> Result<(Option<Expr>, &[Token]), Failed>
    ensures read { Gives (λ x. (option_map tree_of x.0, x.1.now)) result
        (weight_at (expr_at (utf8_in reader.entry.text.now) reader.entry.depth.levels) reader.entry.tokens.now) }
{
    match skip_word(Word::Weight, reader.tokens) {
        None => Ok((None, reader.tokens)),
        Some(rest) => {
            let part = expr(reader.at(rest), 5)?;
            Ok((Some(part.tree), part.rest))
        }
    }
}

// A declaration, after its name and colon.
#[tactic(auto, unfolding(crate::specs::ReadingStatements::declare_at, sz_parse_expr::specs::Reading::bind))]
pub fn declare(reader: Reader<'_>, name: Name) -> Result<(Stmt, &[Token]), Failed>
    ensures read { Gives (λ x. (stm_of x.0, x.1.now)) result (declare_at
        (readers_at (utf8_in reader.entry.text.now) reader.entry.depth.levels) name reader.entry.tokens.now) }
{
    let (of, rest) = type_tree(reader)?;
    let (value, rest) = init(reader.at(rest))?;
    ended(Stmt::Declare(name, of, value), rest)
}

// Parameters, up to the closing parenthesis.
#[tactic(auto, unfolding(crate::specs::ReadingStatements::declared_at, sz_parse_expr::specs::Reading::choose))]
fn declared(reader: Reader<'_>) -> Result<(Vec<Param>, &[Token]), Failed>
    ensures read { Gives (λ x. (each param_of x.0.items, x.1.now)) result (declared_at (utf8_in reader.entry.text.now)
        (type_at (utf8_in reader.entry.text.now) reader.entry.depth.levels) reader.entry.tokens.now) }
{
    if let Some(_) = skip(Sign::CloseParen, reader.tokens) {
        return Ok((Vec::new(reader.alloc), reader.tokens));
    }
    params(reader)
}

// The parameters of a function, with the signs around them.
#[tactic(auto, unfolding(crate::specs::ReadingStatements::parameters_at, sz_parse_expr::specs::Reading::bind))]
pub fn parameters(reader: Reader<'_>) -> Result<(Vec<Param>, &[Token]), Failed>
    ensures read { Gives (λ x. (each param_of x.0.items, x.1.now)) result
        (parameters_at (utf8_in reader.entry.text.now) (type_at (utf8_in reader.entry.text.now) reader.entry.depth.levels) reader.entry.tokens.now) }
{
    let rest = expect(Sign::OpenParen, reader.tokens)?;
    let (params, rest) = declared(reader.at(rest))?;
    let rest = expect(Sign::CloseParen, rest)?;
    let rest = expect(Sign::Colon, rest)?;
    Ok((params, rest))
}

// The type that a function gives, and the brace that opens its body.
#[tactic(auto, unfolding(crate::specs::ReadingStatements::closed_by, sz_parse_expr::specs::Reading::bind))]
pub fn returned(reader: Reader<'_>) -> Result<(TypeTree, &[Token]), Failed>
    ensures read { Gives (λ x. (type_of x.0, x.1.now)) result (closed_by OpenBrace
        (type_at (utf8_in reader.entry.text.now) reader.entry.depth.levels reader.entry.tokens.now)) }
{
    let (of, rest) = type_tree(reader)?;
    let rest = expect(Sign::OpenBrace, rest)?;
    Ok((of, rest))
}

// A declaration without a type, after its name and `:=`.
#[tactic(auto, unfolding(crate::specs::ReadingStatements::define_at, sz_parse_expr::specs::Reading::bind))]
pub fn define(reader: Reader<'_>, name: Name) -> Result<(Stmt, &[Token]), Failed>
    ensures read { Gives (λ x. (stm_of x.0, x.1.now)) result (define_at
        (readers_at (utf8_in reader.entry.text.now) reader.entry.depth.levels) name reader.entry.tokens.now) }
{
    let value = expr(reader, 5)?;
    ended(Stmt::Define(name, value.tree), value.rest)
}

// An assignment, a change by one or a call, after its first name.
#[tactic(auto, unfolding(crate::specs::ReadingStatements::simple_stm_at, sz_parse_expr::specs::Reading::bind))]
pub fn simple_statement(reader: Reader<'_>, name: Name) -> Result<(Stmt, &[Token]), Failed>
    ensures read { Gives (λ x. (stm_of x.0, x.1.now)) result (simple_stm_at (utf8_in reader.entry.text.now)
        (readers_at (utf8_in reader.entry.text.now) reader.entry.depth.levels) reader.entry.depth.levels name
        reader.entry.tokens.now) }
{
    let (part, rest) = simple_after(reader, name)?;
    ended(Stmt::Simple(part), rest)
}

// The declaration of a table, after its name, colon and `table`.
#[tactic(auto, unfolding(crate::specs::ReadingStatements::table_stm_at, sz_parse_expr::specs::Reading::bind))]
pub fn table_statement(reader: Reader<'_>, name: Name) -> Result<(Stmt, &[Token]), Failed>
    ensures read { Gives (λ x. (stm_of x.0, x.1.now)) result (table_stm_at (utf8_in reader.entry.text.now)
        (readers_at (utf8_in reader.entry.text.now) reader.entry.depth.levels) name reader.entry.tokens.now) }
{
    let (part, rest) = table(reader)?;
    Ok((Stmt::Table(name, part), rest))
}

// The declaration of a static, after its first word.
#[tactic(auto, unfolding(crate::specs::ReadingStatements::static_at, crate::specs::ReadingStatements::after_at, sz_parse_expr::specs::Reading::bind))]
pub fn static_statement(reader: Reader<'_>, place: Place) -> Result<(Stmt, &[Token]), Failed>
    ensures read { Gives (λ x. (stm_of x.0, x.1.now)) result (static_at (utf8_in reader.entry.text.now)
        (readers_at (utf8_in reader.entry.text.now) reader.entry.depth.levels) place reader.entry.tokens.now) }
{
    let (name, rest) = label(reader)?;
    let (of, rest) = type_tree(reader.at(rest))?;
    let (value, rest) = later(reader.at(rest), Sign::Assign)?;
    ended(Stmt::Static(place, name, of, value), rest)
}

// The declaration of a type by its name, after its first word.
#[tactic(auto, unfolding(crate::specs::ReadingStatements::typedef_at, sz_parse_expr::specs::Reading::bind))]
pub fn type_statement(reader: Reader<'_>, place: Place) -> Result<(Stmt, &[Token]), Failed>
    ensures read { Gives (λ x. (stm_of x.0, x.1.now)) result (typedef_at (utf8_in reader.entry.text.now)
        (readers_at (utf8_in reader.entry.text.now) reader.entry.depth.levels) place reader.entry.tokens.now) }
{
    let (name, rest) = name(reader)?;
    let rest = expect(Sign::Assign, rest)?;
    let (of, rest) = type_tree(reader.at(rest))?;
    ended(Stmt::Type(place, name, of), rest)
}

// A `return`, after its first word.
#[tactic(auto, unfolding(crate::specs::ReadingStatements::return_at, crate::specs::ReadingStatements::closed_by, sz_parse_expr::specs::Reading::bind))]
pub fn return_statement(reader: Reader<'_>, place: Place) -> Result<(Stmt, &[Token]), Failed>
    ensures read { Gives (λ x. (stm_of x.0, x.1.now)) result (return_at
        (readers_at (utf8_in reader.entry.text.now) reader.entry.depth.levels) place reader.entry.tokens.now) }
{
    let (value, rest) = maybe_expr(reader, Sign::Semicolon)?;
    Ok((Stmt::Return(place, value), rest))
}

// An `emit`, after its first word.
#[tactic(auto, unfolding(crate::specs::ReadingStatements::emit_at, crate::specs::ReadingStatements::after_at, sz_parse_expr::specs::Reading::bind))]
pub fn emit(reader: Reader<'_>, place: Place) -> Result<(Stmt, &[Token]), Failed>
    ensures read { Gives (λ x. (stm_of x.0, x.1.now)) result (emit_at (utf8_in reader.entry.text.now)
        (readers_at (utf8_in reader.entry.text.now) reader.entry.depth.levels) place reader.entry.tokens.now) }
{
    let (table, rest) = name(reader)?;
    let (indexes, rest) = indexes(reader.at(rest))?;
    let (value, rest) = later(reader.at(rest), Sign::Arrow)?;
    let (weight, rest) = weight(reader.at(rest))?;
    ended(Stmt::Emit(place, table, indexes, value, weight), rest)
}
