//! Tables and quantifiers.
ghost use Rattle.std.specs.Prelude.{◌≡◌, ◌<◌, map as each};
ghost use Rattle.sz_tree.specs.View.{elem_of, table_of, quantifier_of};
ghost use Rattle.std.specs.Option.{option_map};
ghost use Rattle.sz_parse_expr.specs.Reading.{utf8_in, all_at};
ghost use Rattle.sz_parse_expr.specs.ReadingTypes.{type_at};
ghost use Rattle.sz_parse.specs.ReadingTables.{argument_at, table_index_at, table_index_step, table_weight_at, table_parts_at, table_at, names_later, names_at, quantity_of, quantity_at, quantifier_at, begins_quantifier, quantifiers_after, quantifiers_at};
ghost use Rattle.sz_parse_expr.specs.Outcome.{Gives, Sees};

use sz_lex::{Kind, Sign, Token, Word};
use sz_parse_expr::{
    Failed, Reader, elem, expect, expect_word, name, number, skip, skip_word, type_tree,
};
use sz_tree::{Elem, Name, Quantifier, Quantity, Table};

// A number in parentheses, if one stands there.
#[tactic(auto, unfolding(crate::specs::ReadingTables::argument_at, sz_parse_expr::specs::Reading::bind, sz_parse_expr::specs::Reading::choose))]
fn argument(tokens: &[Token]) -> Result<(Option<i64>, &[Token]), Failed>
    ensures read { Gives (λ x. (x.0, x.1.now)) result (argument_at tokens.now) }
{
    match skip(Sign::OpenParen, tokens) {
        None => Ok((None, tokens)),
        Some(rest) => {
            let (number, rest) = number(rest)?;
            let rest = expect(Sign::CloseParen, rest)?;
            Ok((Some(number), rest))
        }
    }
}

// An index of a table, after its opening bracket.
#[tactic(auto, unfolding(crate::specs::ReadingTables::table_index_at, sz_parse_expr::specs::Reading::bind))]
fn table_index(reader: Reader<'_>) -> Result<(Elem, &[Token]), Failed>
    ensures read { Gives (λ x. (elem_of x.0, x.1.now)) result (table_index_at (utf8_in reader.entry.text.now)
        (type_at (utf8_in reader.entry.text.now) reader.entry.depth.levels) reader.entry.tokens.now) }
{
    let (item, rest) = elem(reader)?;
    let rest = expect(Sign::CloseBracket, rest)?;
    Ok((item, rest))
}

// The indexes of a table.
fn table_indexes(reader: Reader<'_>) -> Result<(Vec<Elem>, &[Token]), Failed>
    ensures read { Gives (λ x. (each elem_of x.0.items, x.1.now)) result
        (all_at (table_index_step (utf8_in reader.entry.text.now)
        (type_at (utf8_in reader.entry.text.now) reader.entry.depth.levels)) reader.entry.tokens.now) }
{
    let mut items = Vec::new(reader.alloc);
    let mut rest = reader.tokens;
    while let Some(after) = skip(Sign::OpenBracket, rest) {
        let (item, after) = table_index(reader.at(after))?;
        items.push(item)?;
        rest = after;
    }
    Ok((items, rest))
}

// What `weight` begins, if it stands there.
#[tactic(auto, unfolding(crate::specs::ReadingTables::table_weight_at, sz_parse_expr::specs::Reading::bind, sz_parse_expr::specs::Reading::choose))]
fn table_weight(reader: Reader<'_>) -> Result<(Option<Elem>, &[Token]), Failed>
    ensures read { Gives
        (λ x. (option_map elem_of x.0, x.1.now)) result (table_weight_at (utf8_in reader.entry.text.now)
        (type_at (utf8_in reader.entry.text.now) reader.entry.depth.levels) reader.entry.tokens.now) }
{
    match skip_word(Word::Weight, reader.tokens) {
        None => Ok((None, reader.tokens)),
        Some(rest) => {
            let (item, rest) = elem(reader.at(rest))?;
            Ok((Some(item), rest))
        }
    }
}

// What a table keeps, and its weight if it has one.
#[tactic(auto, unfolding(crate::specs::ReadingTables::table_parts_at, sz_parse_expr::specs::Reading::bind))]
fn table_parts(reader: Reader<'_>) -> Result<(Elem, Option<Elem>, &[Token]), Failed>
    ensures read { Gives (λ x. ((elem_of x.0, option_map elem_of x.1), x.2.now)) result
        (table_parts_at (utf8_in reader.entry.text.now) (type_at (utf8_in reader.entry.text.now) reader.entry.depth.levels) reader.entry.tokens.now) }
{
    let rest = expect_word(Word::Of, reader.tokens)?;
    let (of, rest) = elem(reader.at(rest))?;
    let (weight, rest) = table_weight(reader.at(rest))?;
    Ok((of, weight, rest))
}

// What stands after `table`, up to the semicolon.
#[tactic(auto, unfolding(crate::specs::ReadingTables::table_at, crate::specs::ReadingTables::table_parts_at, sz_parse_expr::specs::Reading::bind))]
pub fn table(reader: Reader<'_>) -> Result<(Table, &[Token]), Failed>
    ensures read { Gives (λ x. (table_of x.0, x.1.now)) result (table_at (utf8_in reader.entry.text.now)
        (type_at (utf8_in reader.entry.text.now) reader.entry.depth.levels) reader.entry.tokens.now) }
{
    let (kind, rest) = name(reader)?;
    let (argument, rest) = argument(rest)?;
    let (indexes, rest) = table_indexes(reader.at(rest))?;
    let (of, weight, rest) = table_parts(reader.at(rest))?;
    let table = Table {
        kind,
        argument,
        indexes,
        of,
        weight,
    };
    let rest = expect(Sign::Semicolon, rest)?;
    Ok((table, rest))
}

// A name, and those that follow it with a comma before each.
#[tactic(auto, unfolding(crate::specs::ReadingTables::names_at, sz_parse_expr::specs::Reading::bind))]
fn names(reader: Reader<'_>) -> Result<(Vec<Name>, &[Token]), Failed>
    ensures read { Gives (λ x. (x.0.items, x.1.now)) result (names_at (utf8_in reader.entry.text.now) reader.entry.tokens.now) }
{
    let (first, rest) = name(reader)?;
    names_later(reader.at(rest), first)
}

fn names_later(reader: Reader<'_>, first: Name) -> Result<(Vec<Name>, &[Token]), Failed>
    ensures read { Gives (λ x. (x.0.items, x.1.now)) result (names_later (utf8_in reader.entry.text.now) first reader.entry.tokens.now) }
{
    let mut items = Vec::new(reader.alloc);
    items.push(first)?;
    let mut rest = reader.tokens;
    while let Some(after) = skip(Sign::Comma, rest) {
        let (item, after) = name(reader.at(after))?;
        items.push(item)?;
        rest = after;
    }
    Ok((items, rest))
}

// How many values a word speaks of.
fn quantity_of(word: Word) -> Option<Quantity>
    ensures value { result ≡ quantity_of word }
{
    match word {
        Word::Some => Some(Quantity::Some),
        Word::Each => Some(Quantity::Each),
        Word::All => Some(Quantity::All),
        _ => None,
    }
}

// How many values a quantifier speaks of.
#[tactic(auto, unfolding(crate::specs::ReadingTables::quantity_at, sz_parse_expr::specs::Reading::bind))]
fn quantity(tokens: &[Token]) -> Result<(Quantity, &[Token]), Failed>
    ensures read { Gives (λ x. (x.0, x.1.now)) result (quantity_at tokens.now) }
{
    let [
        Token {
            kind: Kind::Word(word),
            ..
        },
        rest @ ..,
    ] = tokens
    else {
        return Err(Failed::Syntax);
    };
    match quantity_of(*word) {
        Some(quantity) => Ok((quantity, rest)),
        None => Err(Failed::Syntax),
    }
}

// What follows a name and a comma or a colon.
#[tactic(auto, unfolding(crate::specs::ReadingTables::begins_quantifier, sz_parse_expr::specs::Reading::name_at, sz_parse_expr::specs::Reading::bind, sz_parse_expr::specs::Reading::choose))]
fn begins_quantifier<'t>(text: &[u8], tokens: &'t [Token]) -> Option<&'t [Token]>
    ensures value { Sees (λ r. r.now) result (begins_quantifier (utf8_in text.now) tokens.now) }
{
    let _text = text;
    let [
        Token {
            kind: Kind::Name,
            ..
        },
        rest @ ..,
    ] = tokens
    else {
        return None;
    };
    match skip(Sign::Comma, rest) {
        Some(rest) => Some(rest),
        None => skip(Sign::Colon, rest),
    }
}

// A quantifier with its semicolon.
#[tactic(auto, unfolding(crate::specs::ReadingTables::quantifier_at, sz_parse_expr::specs::Reading::bind))]
fn quantifier(reader: Reader<'_>) -> Result<(Quantifier, &[Token]), Failed>
    ensures read { Gives (λ x. (quantifier_of x.0, x.1.now)) result (quantifier_at (utf8_in reader.entry.text.now)
        (type_at (utf8_in reader.entry.text.now) reader.entry.depth.levels) reader.entry.tokens.now) }
{
    let (names, rest) = names(reader)?;
    let rest = expect(Sign::Colon, rest)?;
    let (quantity, rest) = quantity(rest)?;
    let (of, rest) = type_tree(reader.at(rest))?;
    let quantifier = Quantifier {
        names,
        quantity,
        of,
    };
    let rest = expect(Sign::Semicolon, rest)?;
    Ok((quantifier, rest))
}

// One or more quantifiers.
#[tactic(auto, unfolding(crate::specs::ReadingTables::quantifiers_at, sz_parse_expr::specs::Reading::bind))]
pub fn quantifiers(reader: Reader<'_>) -> Result<(Vec<Quantifier>, &[Token]), Failed>
    ensures read { Gives (λ x. (each quantifier_of x.0.items, x.1.now)) result
        (quantifiers_at (utf8_in reader.entry.text.now) (type_at (utf8_in reader.entry.text.now) reader.entry.depth.levels) reader.entry.tokens.now) }
{
    let (first, rest) = quantifier(reader)?;
    quantifiers_after(reader.at(rest), first)
}

fn quantifiers_after(
    reader: Reader<'_>,
    first: Quantifier,
) -> Result<(Vec<Quantifier>, &[Token]), Failed>
    ensures read { Gives (λ x. (each quantifier_of x.0.items, x.1.now)) result
        (quantifiers_after (utf8_in reader.entry.text.now) (type_at (utf8_in reader.entry.text.now)
        reader.entry.depth.levels) (quantifier_of first) reader.entry.tokens.now) }
{
    let mut items = Vec::new(reader.alloc);
    items.push(first)?;
    let mut rest = reader.tokens;
    while let Some(_) = begins_quantifier(reader.text, rest) {
        let (item, after) = quantifier(reader.at(rest))?;
        items.push(item)?;
        rest = after;
    }
    Ok((items, rest))
}
