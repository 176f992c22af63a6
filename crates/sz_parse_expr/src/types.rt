//! Types.
ghost use Rattle.std.specs.Prelude.{◌≡◌, ◌<◌, Some as Just, map as each};
ghost use Rattle.sz_tree.specs.Types.{map_type};
ghost use Rattle.sz_tree.specs.View.{type_of, param_of, field_of, elem_of};
ghost use Rattle.sz_parse_expr.specs.Reading.{utf8_in};
ghost use Rattle.sz_parse_expr.specs.ReadingTypes.{number_at, label_at, maybe_name_at, elem_at, param_at, params_after, params_at, proto_field_at, proto_fields_after, proto_fields_at, array_at, map_type_at, tuple_at, proto_at, basic_of, type_worded, type_step, type_at};
ghost use Rattle.sz_parse_expr.specs.Outcome.{Gives};

use crate::failed::Failed;
use crate::reader::Reader;
use crate::token::{expect, expect_word, ident, name, skip};
use std::alloc::Global;
use sz_lex::{Kind, Sign, Token, Word};
use sz_tree::{BasicType, Elem, Name, Param, ProtoField, TypeTree};
use sz_types::Place;

/// A number, and what follows it.
#[tactic(auto, unfolding(crate::specs::ReadingTypes::number_at))]
pub fn number(tokens: &[Token]) -> Result<(i64, &[Token]), Failed>
    ensures value { Gives (λ x. (x.0, x.1.now)) result (number_at tokens.now) }
{
    let [token, rest @ ..] = tokens else {
        return Err(Failed::Syntax);
    };
    match token.kind {
        Kind::Number(n) => Ok((n, rest)),
        _ => Err(Failed::Syntax),
    }
}

/// A name with a colon after it.
#[tactic(auto, unfolding(crate::specs::ReadingTypes::label_at, crate::specs::Reading::bind))]
pub fn label(reader: Reader<'_>) -> Result<(Name, &[Token]), Failed>
    ensures value { Gives (λ x. (x.0, x.1.now)) result (label_at (utf8_in reader.entry.text.now) reader.entry.tokens.now) }
{
    let (name, rest) = name(reader)?;
    let rest = expect(Sign::Colon, rest)?;
    Ok((name, rest))
}

// A name, if there is one.
#[tactic(auto, unfolding(crate::specs::ReadingTypes::maybe_name_at, crate::specs::Reading::choose))]
fn maybe_name(reader: Reader<'_>) -> Result<(Option<Name>, &[Token]), Failed>
    ensures value { Gives (λ x. (x.0, x.1.now)) result (maybe_name_at (utf8_in reader.entry.text.now) reader.entry.tokens.now) }
{
    match name(reader) {
        Ok((name, rest)) => Ok((Some(name), rest)),
        Err(Failed::Syntax) => Ok((None, reader.tokens)),
        Err(Failed::Memory) => Err(Failed::Memory),
    }
}

// The basic type that a word names.
fn basic_of(word: Word) -> Option<BasicType>
    ensures value { result ≡ basic_of word }
{
    match word {
        Word::Bool => Some(BasicType::Bool),
        Word::Int => Some(BasicType::Int),
        Word::String => Some(BasicType::String),
        Word::Bytes => Some(BasicType::Bytes),
        Word::Time => Some(BasicType::Time),
        _ => None,
    }
}

/// A type of at most this height, and what follows it.
#[cycle(types)]
#[tactic(auto, unfolding(crate::specs::ReadingTypes::type_at))]
pub fn type_tree(reader: Reader<'_>) -> Result<(TypeTree, &[Token]), Failed>
    ensures read { Gives (λ x. (type_of x.0, x.1.now)) result (type_at (utf8_in reader.entry.text.now) reader.entry.depth.levels reader.entry.tokens.now) }
{
    let Some(depth) = reader.depth.deeper() else {
        return Err(Failed::Syntax);
    };
    step(Reader { depth, ..reader })
}

// In what follows, the parts of a type have at most the height `inner`.
#[cycle(types)]
#[tactic(auto, unfolding(crate::specs::ReadingTypes::type_step))]
fn step(reader: Reader<'_>) -> Result<(TypeTree, &[Token]), Failed>
    ensures read { Gives (λ x. (type_of x.0, x.1.now)) result (type_step (utf8_in reader.entry.text.now)
        (type_at (utf8_in reader.entry.text.now) reader.entry.depth.levels) reader.entry.tokens.now) }
{
    let [token, rest @ ..] = reader.tokens else {
        return Err(Failed::Syntax);
    };
    match token.kind {
        Kind::Name => Ok((
            TypeTree::Named(ident(reader.alloc, reader.text, token)?),
            rest,
        )),
        Kind::Word(word) => worded(reader.at(rest), token.place, word),
        Kind::Sign(Sign::OpenBrace) => tuple(reader.at(rest), token.place),
        _ => Err(Failed::Syntax),
    }
}

// What a word begins.
#[cycle(types)]
fn worded(reader: Reader<'_>, place: Place, word: Word) -> Result<(TypeTree, &[Token]), Failed>
    ensures read { Gives (λ x. (type_of x.0, x.1.now)) result (type_worded (utf8_in reader.entry.text.now)
        (type_at (utf8_in reader.entry.text.now) reader.entry.depth.levels) place word reader.entry.tokens.now) }
{
    match word {
        Word::Array => array(reader, place),
        Word::Map => map(reader, place),
        Word::Proto => proto(reader, place),
        _ => match basic_of(word) {
            Some(basic) => Ok((TypeTree::Basic(place, basic), reader.tokens)),
            None => Err(Failed::Syntax),
        },
    }
}

#[cycle(types)]
#[tactic(auto, unfolding(crate::specs::ReadingTypes::array_at, crate::specs::Reading::bind))]
fn array(reader: Reader<'_>, place: Place) -> Result<(TypeTree, &[Token]), Failed>
    ensures read { Gives (λ x. (type_of x.0, x.1.now)) result
        (array_at (type_at (utf8_in reader.entry.text.now) reader.entry.depth.levels) place reader.entry.tokens.now) }
{
    let rest = expect_word(Word::Of, reader.tokens)?;
    let (of, rest) = type_tree(reader.at(rest))?;
    Ok((TypeTree::Array(place, Box::new(reader.alloc, of)?), rest))
}

// A map of these types.
fn mapped(
    alloc: Global,
    place: Place,
    name: Option<Name>,
    key: TypeTree,
    value: TypeTree,
) -> Result<TypeTree, Failed>
    ensures value { Gives type_of result (Just (map_type place name (type_of key) (type_of value))) }
{
    let key = Box::new(alloc, key)?;
    let value = Box::new(alloc, value)?;
    Ok(TypeTree::Map(place, name, key, value))
}

#[cycle(types)]
#[tactic(auto, unfolding(crate::specs::ReadingTypes::map_type_at, crate::specs::Reading::bind))]
fn map(reader: Reader<'_>, place: Place) -> Result<(TypeTree, &[Token]), Failed>
    ensures read { Gives (λ x. (type_of x.0, x.1.now)) result (map_type_at (utf8_in reader.entry.text.now)
        (type_at (utf8_in reader.entry.text.now) reader.entry.depth.levels) place reader.entry.tokens.now) }
{
    let rest = expect(Sign::OpenBracket, reader.tokens)?;
    let (Elem { name, of }, rest) = elem(reader.at(rest))?;
    let rest = expect(Sign::CloseBracket, rest)?;
    let rest = expect_word(Word::Of, rest)?;
    let (value, rest) = type_tree(reader.at(rest))?;
    Ok((mapped(reader.alloc, place, name, of, value)?, rest))
}

/// A type, with a name and a colon before it or without.
#[cycle(types)]
#[tactic(auto, unfolding(crate::specs::ReadingTypes::elem_at, crate::specs::Reading::bind, crate::specs::Reading::choose))]
pub fn elem(reader: Reader<'_>) -> Result<(Elem, &[Token]), Failed>
    ensures read { Gives (λ x. (elem_of x.0, x.1.now)) result (elem_at (utf8_in reader.entry.text.now)
        (type_at (utf8_in reader.entry.text.now) reader.entry.depth.levels) reader.entry.tokens.now) }
{
    match label(reader) {
        Ok((name, rest)) => {
            let (of, rest) = type_tree(reader.at(rest))?;
            let name = Some(name);
            Ok((Elem { name, of }, rest))
        }
        Err(Failed::Syntax) => {
            let (of, rest) = type_tree(reader)?;
            Ok((Elem { name: None, of }, rest))
        }
        Err(Failed::Memory) => Err(Failed::Memory),
    }
}

#[cycle(types)]
#[tactic(auto, unfolding(crate::specs::ReadingTypes::tuple_at, crate::specs::Reading::bind))]
fn tuple(reader: Reader<'_>, place: Place) -> Result<(TypeTree, &[Token]), Failed>
    ensures read { Gives (λ x. (type_of x.0, x.1.now)) result (tuple_at (utf8_in reader.entry.text.now)
        (type_at (utf8_in reader.entry.text.now) reader.entry.depth.levels) place reader.entry.tokens.now) }
{
    let (parts, rest) = params(reader)?;
    let rest = expect(Sign::CloseBrace, rest)?;
    Ok((TypeTree::tuple(place, parts), rest))
}

#[cycle(types)]
#[tactic(auto, unfolding(crate::specs::ReadingTypes::proto_at, crate::specs::Reading::bind))]
fn proto(reader: Reader<'_>, place: Place) -> Result<(TypeTree, &[Token]), Failed>
    ensures read { Gives (λ x. (type_of x.0, x.1.now)) result (proto_at (utf8_in reader.entry.text.now)
        (type_at (utf8_in reader.entry.text.now) reader.entry.depth.levels) place reader.entry.tokens.now) }
{
    let rest = expect(Sign::OpenBrace, reader.tokens)?;
    let (fields, rest) = fields(reader.at(rest))?;
    let rest = expect(Sign::CloseBrace, rest)?;
    Ok((TypeTree::proto(place, fields), rest))
}

// A name and its type.
#[cycle(types)]
#[tactic(auto, unfolding(crate::specs::ReadingTypes::param_at, crate::specs::Reading::bind))]
fn param(reader: Reader<'_>) -> Result<(Param, &[Token]), Failed>
    ensures read { Gives (λ x. (param_of x.0, x.1.now)) result (param_at (utf8_in reader.entry.text.now)
        (type_at (utf8_in reader.entry.text.now) reader.entry.depth.levels) reader.entry.tokens.now) }
{
    let (name, rest) = label(reader)?;
    let (of, rest) = type_tree(reader.at(rest))?;
    Ok((Param { name, of }, rest))
}

/// Names with their types, with commas between them.
#[cycle(types)]
#[tactic(auto, unfolding(crate::specs::ReadingTypes::params_at, crate::specs::Reading::bind))]
pub fn params(reader: Reader<'_>) -> Result<(Vec<Param>, &[Token]), Failed>
    ensures read { Gives (λ x. (each param_of x.0.items, x.1.now)) result (params_at (utf8_in reader.entry.text.now)
        (type_at (utf8_in reader.entry.text.now) reader.entry.depth.levels) reader.entry.tokens.now) }
{
    let (first, rest) = param(reader)?;
    params_after(reader.at(rest), first)
}

#[cycle(types)]
fn params_after(reader: Reader<'_>, first: Param) -> Result<(Vec<Param>, &[Token]), Failed>
    ensures read { Gives (λ x. (each param_of x.0.items, x.1.now)) result
        (params_after (utf8_in reader.entry.text.now) (type_at (utf8_in reader.entry.text.now)
        reader.entry.depth.levels) (param_of first) reader.entry.tokens.now) }
{
    let mut params = Vec::new(reader.alloc);
    params.push(first)?;
    let mut rest = reader.tokens;
    while let Some(after) = skip(Sign::Comma, rest) {
        let (item, after) = param(reader.at(after))?;
        params.push(item)?;
        rest = after;
    }
    Ok((params, rest))
}

// A field of a message.
#[cycle(types)]
#[tactic(auto, unfolding(crate::specs::ReadingTypes::proto_field_at, crate::specs::Reading::bind))]
fn field(reader: Reader<'_>) -> Result<(ProtoField, &[Token]), Failed>
    ensures read { Gives (λ x. (field_of x.0, x.1.now)) result (proto_field_at (utf8_in reader.entry.text.now)
        (type_at (utf8_in reader.entry.text.now) reader.entry.depth.levels) reader.entry.tokens.now) }
{
    let (Param { name, of }, rest) = param(reader)?;
    let rest = expect(Sign::At, rest)?;
    let (number, rest) = number(rest)?;
    let (label, rest) = maybe_name(reader.at(rest))?;
    let field = ProtoField {
        name,
        of,
        number,
        label,
    };
    Ok((field, rest))
}

// Fields of a message, with commas between them.
#[cycle(types)]
#[tactic(auto, unfolding(crate::specs::ReadingTypes::proto_fields_at, crate::specs::Reading::bind))]
fn fields(reader: Reader<'_>) -> Result<(Vec<ProtoField>, &[Token]), Failed>
    ensures read { Gives
        (λ x. (each field_of x.0.items, x.1.now)) result (proto_fields_at (utf8_in reader.entry.text.now)
        (type_at (utf8_in reader.entry.text.now) reader.entry.depth.levels) reader.entry.tokens.now) }
{
    let (first, rest) = field(reader)?;
    fields_after(reader.at(rest), first)
}

#[cycle(types)]
fn fields_after(
    reader: Reader<'_>,
    first: ProtoField,
) -> Result<(Vec<ProtoField>, &[Token]), Failed>
    ensures read { Gives (λ x. (each field_of x.0.items, x.1.now)) result
        (proto_fields_after (utf8_in reader.entry.text.now) (type_at (utf8_in reader.entry.text.now)
        reader.entry.depth.levels) (field_of first) reader.entry.tokens.now) }
{
    let mut fields = Vec::new(reader.alloc);
    fields.push(first)?;
    let mut rest = reader.tokens;
    while let Some(after) = skip(Sign::Comma, rest) {
        let (item, after) = field(reader.at(after))?;
        fields.push(item)?;
        rest = after;
    }
    Ok((fields, rest))
}
