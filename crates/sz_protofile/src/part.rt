//! Parts of a message.
ghost use Rattle.sz_protofile_lex.specs.Lexemes.{lexeme_of};
ghost use Rattle.sz_protofile.specs.Forms.{settings_at, oneof_at, member_at, group_at, past_map, map_at, field_at, label_is, label_at, labelled_group_at, labelled_field_at, any_group_at, any_field_at, members_at, others_at, part_at, end_at, inner_at};
ghost use Rattle.sz_protofile.specs.Outcome.{Gives};

use crate::failed::Failed;
use crate::form::{block, closed, declared, ended, past_options, setting};
use crate::keyword::Keyword;
use crate::line::{FieldLine, Line, Member};
use crate::token::{after_sign, after_word, name, number, word};
use std::alloc::Global;
use sz_protofile_lex::Token;

// Options, and what is reserved.
#[tactic(auto, unfolding(crate::specs::Forms::settings_at, crate::specs::Reading::first))]
fn settings<'t>(
    alloc: Global,
    text: &[u8],
    tokens: &'t [Token],
) -> Result<(Line, &'t [Token]), Failed>
    ensures read { Gives (λ x. (x.0, x.1.now)) result (settings_at (lexeme_of text.now) tokens.now) }
{
    match setting(alloc, text, Keyword::Option, tokens) {
        Err(Failed::Unfit) => match setting(alloc, text, Keyword::Reserved, tokens) {
            Err(Failed::Unfit) => setting(alloc, text, Keyword::Extensions, tokens),
            found => found,
        },
        found => found,
    }
}

// `oneof name { .. }`
#[tactic(auto, unfolding(crate::specs::Forms::oneof_at, crate::specs::Reading::bind))]
fn oneof<'t>(alloc: Global, text: &[u8], tokens: &'t [Token]) -> Result<(Line, &'t [Token]), Failed>
    ensures read { Gives (λ x. (x.0, x.1.now)) result (oneof_at (lexeme_of text.now) tokens.now) }
{
    let rest = after_word(text, Keyword::Oneof, tokens)?;
    let (_, rest) = name(text, rest)?;
    closed(alloc, Line::Passed, rest)
}

// A name, `=`, its number, and options.
#[tactic(auto, unfolding(crate::specs::Forms::member_at, crate::specs::Reading::bind))]
fn member<'t>(
    alloc: Global,
    text: &[u8],
    tokens: &'t [Token],
) -> Result<(Member, &'t [Token]), Failed>
    ensures read { Gives (λ x. (x.0, x.1.now)) result (member_at (lexeme_of text.now) tokens.now) }
{
    let (name, rest) = name(text, tokens)?;
    let rest = after_sign(b'=', rest)?;
    let (number, rest) = number(text, rest)?;
    let rest = past_options(alloc, rest)?;
    Ok((Member { name, number }, rest))
}

// `group`, a member, and `{ .. }`.
#[tactic(auto, unfolding(crate::specs::Forms::group_at, crate::specs::Reading::bind))]
fn group<'t>(alloc: Global, text: &[u8], tokens: &'t [Token]) -> Result<(Line, &'t [Token]), Failed>
    ensures read { Gives (λ x. (x.0, x.1.now)) result (group_at (lexeme_of text.now) tokens.now) }
{
    let rest = after_word(text, Keyword::Group, tokens)?;
    let (member, rest) = member(alloc, text, rest)?;
    closed(alloc, Line::Unread(member), rest)
}

// What follows `map < word , word >`.
#[tactic(auto, unfolding(crate::specs::Forms::past_map, crate::specs::Reading::bind))]
fn past_map<'t>(text: &[u8], tokens: &'t [Token]) -> Result<&'t [Token], Failed>
    ensures read { Gives (λ r. r.now) result (past_map (lexeme_of text.now) tokens.now) }
{
    let rest = after_word(text, Keyword::Map, tokens)?;
    let rest = after_sign(b'<', rest)?;
    let (_, rest) = word(rest)?;
    let rest = after_sign(b',', rest)?;
    let (_, rest) = word(rest)?;
    after_sign(b'>', rest)
}

// A map.
#[tactic(auto, unfolding(crate::specs::Forms::map_at, crate::specs::Reading::bind))]
fn map<'t>(alloc: Global, text: &[u8], tokens: &'t [Token]) -> Result<(Line, &'t [Token]), Failed>
    ensures read { Gives (λ x. (x.0, x.1.now)) result (map_at (lexeme_of text.now) tokens.now) }
{
    let rest = past_map(text, tokens)?;
    let (member, rest) = member(alloc, text, rest)?;
    ended(Line::Unread(member), rest)
}

// A word for a type, a member, and `;`.
#[tactic(auto, unfolding(crate::specs::Forms::field_at, crate::specs::Reading::bind))]
fn field<'t>(
    alloc: Global,
    text: &[u8],
    repeated: bool,
    tokens: &'t [Token],
) -> Result<(Line, &'t [Token]), Failed>
    ensures read { Gives (λ x. (x.0, x.1.now)) result (field_at (lexeme_of text.now) repeated tokens.now) }
{
    let (word, rest) = word(tokens)?;
    let (member, rest) = member(alloc, text, rest)?;
    let field = FieldLine {
        repeated,
        word,
        member,
    };
    ended(Line::Field(field), rest)
}

// This word, for a label.
#[tactic(auto, unfolding(crate::specs::Forms::label_is, crate::specs::Reading::bind))]
fn label_is<'t>(
    text: &[u8],
    keyword: Keyword,
    repeated: bool,
    tokens: &'t [Token],
) -> Result<(bool, &'t [Token]), Failed>
    ensures read { Gives (λ x. (x.0, x.1.now)) result (label_is (lexeme_of text.now) keyword repeated tokens.now) }
{
    let rest = after_word(text, keyword, tokens)?;
    Ok((repeated, rest))
}

// A label: whether it is `repeated`.
#[tactic(auto, unfolding(crate::specs::Forms::label_at, crate::specs::Reading::first))]
fn label<'t>(text: &[u8], tokens: &'t [Token]) -> Result<(bool, &'t [Token]), Failed>
    ensures read { Gives (λ x. (x.0, x.1.now)) result (label_at (lexeme_of text.now) tokens.now) }
{
    match label_is(text, Keyword::Repeated, true, tokens) {
        Err(Failed::Unfit) => match label_is(text, Keyword::Optional, false, tokens) {
            Err(Failed::Unfit) => label_is(text, Keyword::Required, false, tokens),
            found => found,
        },
        found => found,
    }
}

// A label and a group.
#[tactic(auto, unfolding(crate::specs::Forms::labelled_group_at, crate::specs::Reading::bind))]
fn labelled_group<'t>(
    alloc: Global,
    text: &[u8],
    tokens: &'t [Token],
) -> Result<(Line, &'t [Token]), Failed>
    ensures read { Gives (λ x. (x.0, x.1.now)) result (labelled_group_at (lexeme_of text.now) tokens.now) }
{
    let (_, rest) = label(text, tokens)?;
    group(alloc, text, rest)
}

// A label and a field.
#[tactic(auto, unfolding(crate::specs::Forms::labelled_field_at, crate::specs::Reading::bind))]
fn labelled_field<'t>(
    alloc: Global,
    text: &[u8],
    tokens: &'t [Token],
) -> Result<(Line, &'t [Token]), Failed>
    ensures read { Gives (λ x. (x.0, x.1.now)) result (labelled_field_at (lexeme_of text.now) tokens.now) }
{
    let (repeated, rest) = label(text, tokens)?;
    field(alloc, text, repeated, rest)
}

// A group, with a label or without one.
#[tactic(auto, unfolding(crate::specs::Forms::any_group_at, crate::specs::Reading::first))]
fn any_group<'t>(
    alloc: Global,
    text: &[u8],
    tokens: &'t [Token],
) -> Result<(Line, &'t [Token]), Failed>
    ensures read { Gives (λ x. (x.0, x.1.now)) result (any_group_at (lexeme_of text.now) tokens.now) }
{
    match labelled_group(alloc, text, tokens) {
        Err(Failed::Unfit) => group(alloc, text, tokens),
        found => found,
    }
}

// A field, with a label or without one.
#[tactic(auto, unfolding(crate::specs::Forms::any_field_at, crate::specs::Reading::first))]
fn any_field<'t>(
    alloc: Global,
    text: &[u8],
    tokens: &'t [Token],
) -> Result<(Line, &'t [Token]), Failed>
    ensures read { Gives (λ x. (x.0, x.1.now)) result (any_field_at (lexeme_of text.now) tokens.now) }
{
    match labelled_field(alloc, text, tokens) {
        Err(Failed::Unfit) => field(alloc, text, false, tokens),
        found => found,
    }
}

// A group, a map or a field.
#[tactic(auto, unfolding(crate::specs::Forms::members_at, crate::specs::Reading::first))]
fn members<'t>(
    alloc: Global,
    text: &[u8],
    tokens: &'t [Token],
) -> Result<(Line, &'t [Token]), Failed>
    ensures read { Gives (λ x. (x.0, x.1.now)) result (members_at (lexeme_of text.now) tokens.now) }
{
    match any_group(alloc, text, tokens) {
        Err(Failed::Unfit) => match map(alloc, text, tokens) {
            Err(Failed::Unfit) => any_field(alloc, text, tokens),
            found => found,
        },
        found => found,
    }
}

// What has parts that are passed over, or a member.
#[tactic(auto, unfolding(crate::specs::Forms::others_at, crate::specs::Reading::first))]
fn others<'t>(
    alloc: Global,
    text: &[u8],
    tokens: &'t [Token],
) -> Result<(Line, &'t [Token]), Failed>
    ensures read { Gives (λ x. (x.0, x.1.now)) result (others_at (lexeme_of text.now) tokens.now) }
{
    match block(alloc, text, Keyword::Extend, tokens) {
        Err(Failed::Unfit) => match oneof(alloc, text, tokens) {
            Err(Failed::Unfit) => members(alloc, text, tokens),
            found => found,
        },
        found => found,
    }
}

// What a message holds beside its end.
#[tactic(auto, unfolding(crate::specs::Forms::part_at, crate::specs::Reading::first))]
fn part<'t>(alloc: Global, text: &[u8], tokens: &'t [Token]) -> Result<(Line, &'t [Token]), Failed>
    ensures read { Gives (λ x. (x.0, x.1.now)) result (part_at (lexeme_of text.now) tokens.now) }
{
    match ended(Line::Passed, tokens) {
        Err(Failed::Unfit) => match declared(alloc, text, tokens) {
            Err(Failed::Unfit) => match settings(alloc, text, tokens) {
                Err(Failed::Unfit) => others(alloc, text, tokens),
                found => found,
            },
            found => found,
        },
        found => found,
    }
}

// The end of a message.
#[tactic(auto, unfolding(crate::specs::Forms::end_at, crate::specs::Reading::bind))]
fn end<'t>(tokens: &'t [Token]) -> Result<(Line, &'t [Token]), Failed>
    ensures read { Gives (λ x. (x.0, x.1.now)) result (end_at tokens.now) }
{
    let rest = after_sign(b'}', tokens)?;
    Ok((Line::End, rest))
}

// A part of a message, or its end.
#[tactic(auto, unfolding(crate::specs::Forms::inner_at, crate::specs::Reading::first))]
pub fn part_or_end<'t>(
    alloc: Global,
    text: &[u8],
    tokens: &'t [Token],
) -> Result<(Line, &'t [Token]), Failed>
    ensures read { Gives (λ x. (x.0, x.1.now)) result (inner_at (lexeme_of text.now) tokens.now) }
{
    match part(alloc, text, tokens) {
        Err(Failed::Unfit) => end(tokens),
        found => found,
    }
}
