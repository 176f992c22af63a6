//! Forms that parts of a file and parts of a message share.
ghost use Rattle.sz_protofile_lex.specs.Lexemes.{lexeme_of};
ghost use Rattle.sz_protofile.specs.Forms.{ended, braced, closed, listed, past_options, message_at, enum_at, declared_at, setting_at, block_at};
ghost use Rattle.sz_protofile.specs.Outcome.{Gives};

use crate::brackets::past;
use crate::failed::Failed;
use crate::keyword::Keyword;
use crate::line::Line;
use crate::token::{after_sign, after_word, name, word};
use std::alloc::Global;
use sz_protofile_lex::Token;

// The line, and what follows the semicolon after it.
#[tactic(auto, unfolding(crate::specs::Forms::ended, crate::specs::Reading::bind))]
pub fn ended<'t>(line: Line, tokens: &'t [Token]) -> Result<(Line, &'t [Token]), Failed>
    ensures read { Gives (λ x. (x.0, x.1.now)) result (ended line tokens.now) }
{
    let rest = after_sign(b';', tokens)?;
    Ok((line, rest))
}

// What follows `{`, tokens in which brackets match, and `}`.
#[tactic(auto, unfolding(crate::specs::Forms::braced, crate::specs::Reading::bind))]
fn braced<'t>(alloc: Global, tokens: &'t [Token]) -> Result<&'t [Token], Failed>
    ensures read { Gives (λ r. r.now) result (braced tokens.now) }
{
    let rest = after_sign(b'{', tokens)?;
    let rest = past(alloc, false, rest)?;
    after_sign(b'}', rest)
}

// The line, and what follows the braces after it.
#[tactic(auto, unfolding(crate::specs::Forms::closed, crate::specs::Reading::bind))]
pub fn closed<'t>(
    alloc: Global,
    line: Line,
    tokens: &'t [Token],
) -> Result<(Line, &'t [Token]), Failed>
    ensures read { Gives (λ x. (x.0, x.1.now)) result (closed line tokens.now) }
{
    let rest = braced(alloc, tokens)?;
    Ok((line, rest))
}

// What follows `[`, tokens in which brackets match and outside of which no semicolon stands, and `]`.
#[tactic(auto, unfolding(crate::specs::Forms::listed, crate::specs::Reading::bind))]
fn listed<'t>(alloc: Global, tokens: &'t [Token]) -> Result<&'t [Token], Failed>
    ensures read { Gives (λ r. r.now) result (listed tokens.now) }
{
    let rest = after_sign(b'[', tokens)?;
    let rest = past(alloc, true, rest)?;
    after_sign(b']', rest)
}

// What follows the options of a field, if there are any.
#[tactic(auto, unfolding(crate::specs::Forms::past_options, crate::specs::Reading::first))]
pub fn past_options<'t>(alloc: Global, tokens: &'t [Token]) -> Result<&'t [Token], Failed>
    ensures read { Gives (λ r. r.now) result (past_options tokens.now) }
{
    match listed(alloc, tokens) {
        Err(Failed::Unfit) => Ok(tokens),
        found => found,
    }
}

// `message name {`
#[tactic(auto, unfolding(crate::specs::Forms::message_at, crate::specs::Reading::bind))]
fn message<'t>(text: &[u8], tokens: &'t [Token]) -> Result<(Line, &'t [Token]), Failed>
    ensures read { Gives (λ x. (x.0, x.1.now)) result (message_at (lexeme_of text.now) tokens.now) }
{
    let rest = after_word(text, Keyword::Message, tokens)?;
    let (name, rest) = name(text, rest)?;
    let rest = after_sign(b'{', rest)?;
    Ok((Line::Message(name), rest))
}

// `enum name { .. }`
#[tactic(auto, unfolding(crate::specs::Forms::enum_at, crate::specs::Reading::bind))]
fn enumeration<'t>(
    alloc: Global,
    text: &[u8],
    tokens: &'t [Token],
) -> Result<(Line, &'t [Token]), Failed>
    ensures read { Gives (λ x. (x.0, x.1.now)) result (enum_at (lexeme_of text.now) tokens.now) }
{
    let rest = after_word(text, Keyword::Enum, tokens)?;
    let (name, rest) = name(text, rest)?;
    closed(alloc, Line::Enum(name), rest)
}

// The beginning of a message, or an enum.
#[tactic(auto, unfolding(crate::specs::Forms::declared_at, crate::specs::Reading::first))]
pub fn declared<'t>(
    alloc: Global,
    text: &[u8],
    tokens: &'t [Token],
) -> Result<(Line, &'t [Token]), Failed>
    ensures read { Gives (λ x. (x.0, x.1.now)) result (declared_at (lexeme_of text.now) tokens.now) }
{
    match message(text, tokens) {
        Err(Failed::Unfit) => enumeration(alloc, text, tokens),
        found => found,
    }
}

// This word, what is set, and `;`.
#[tactic(auto, unfolding(crate::specs::Forms::setting_at, crate::specs::Reading::bind))]
pub fn setting<'t>(
    alloc: Global,
    text: &[u8],
    keyword: Keyword,
    tokens: &'t [Token],
) -> Result<(Line, &'t [Token]), Failed>
    ensures read { Gives (λ x. (x.0, x.1.now)) result (setting_at (lexeme_of text.now) keyword tokens.now) }
{
    let rest = after_word(text, keyword, tokens)?;
    let rest = past(alloc, true, rest)?;
    ended(Line::Passed, rest)
}

// This word, a word, and `{ .. }`.
#[tactic(auto, unfolding(crate::specs::Forms::block_at, crate::specs::Reading::bind))]
pub fn block<'t>(
    alloc: Global,
    text: &[u8],
    keyword: Keyword,
    tokens: &'t [Token],
) -> Result<(Line, &'t [Token]), Failed>
    ensures read { Gives (λ x. (x.0, x.1.now)) result (block_at (lexeme_of text.now) keyword tokens.now) }
{
    let rest = after_word(text, keyword, tokens)?;
    let (_, rest) = word(rest)?;
    closed(alloc, Line::Passed, rest)
}
