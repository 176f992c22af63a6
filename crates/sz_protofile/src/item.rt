//! Parts of a file.
ghost use Rattle.sz_protofile_lex.specs.Lexemes.{lexeme_of};
ghost use Rattle.sz_protofile.specs.Forms.{syntax_at, package_at, past_manner, import_at, service_at, header_at, body_at, item_at};
ghost use Rattle.sz_protofile.specs.Outcome.{Gives};

use crate::failed::Failed;
use crate::form::{block, declared, ended, setting};
use crate::keyword::Keyword;
use crate::line::Line;
use crate::token::{after_quoted, after_sign, after_word, word};
use std::alloc::Global;
use sz_protofile_lex::Token;

// `syntax = ".." ;`
#[tactic(auto, unfolding(crate::specs::Forms::syntax_at, crate::specs::Reading::bind))]
fn syntax<'t>(text: &[u8], tokens: &'t [Token]) -> Result<(Line, &'t [Token]), Failed>
    ensures read { Gives (λ x. (x.0, x.1.now)) result (syntax_at (lexeme_of text.now) tokens.now) }
{
    let rest = after_word(text, Keyword::Syntax, tokens)?;
    let rest = after_sign(b'=', rest)?;
    let rest = after_quoted(rest)?;
    ended(Line::Passed, rest)
}

// `package word ;`
#[tactic(auto, unfolding(crate::specs::Forms::package_at, crate::specs::Reading::bind))]
fn package<'t>(text: &[u8], tokens: &'t [Token]) -> Result<(Line, &'t [Token]), Failed>
    ensures read { Gives (λ x. (x.0, x.1.now)) result (package_at (lexeme_of text.now) tokens.now) }
{
    let rest = after_word(text, Keyword::Package, tokens)?;
    let (package, rest) = word(rest)?;
    ended(Line::Package(package), rest)
}

// What follows `public` or `weak`, if one of them stands there.
#[tactic(auto, unfolding(crate::specs::Forms::past_manner, crate::specs::Reading::first))]
fn past_manner<'t>(text: &[u8], tokens: &'t [Token]) -> Result<&'t [Token], Failed>
    ensures read { Gives (λ r. r.now) result (past_manner (lexeme_of text.now) tokens.now) }
{
    match after_word(text, Keyword::Public, tokens) {
        Err(Failed::Unfit) => match after_word(text, Keyword::Weak, tokens) {
            Err(Failed::Unfit) => Ok(tokens),
            found => found,
        },
        found => found,
    }
}

// `import ".." ;`
#[tactic(auto, unfolding(crate::specs::Forms::import_at, crate::specs::Reading::bind))]
fn import<'t>(text: &[u8], tokens: &'t [Token]) -> Result<(Line, &'t [Token]), Failed>
    ensures read { Gives (λ x. (x.0, x.1.now)) result (import_at (lexeme_of text.now) tokens.now) }
{
    let rest = after_word(text, Keyword::Import, tokens)?;
    let rest = past_manner(text, rest)?;
    let rest = after_quoted(rest)?;
    ended(Line::Passed, rest)
}

// `service` or `extend`, a word, and `{ .. }`.
#[tactic(auto, unfolding(crate::specs::Forms::service_at, crate::specs::Reading::first))]
fn service<'t>(
    alloc: Global,
    text: &[u8],
    tokens: &'t [Token],
) -> Result<(Line, &'t [Token]), Failed>
    ensures read { Gives (λ x. (x.0, x.1.now)) result (service_at (lexeme_of text.now) tokens.now) }
{
    match block(alloc, text, Keyword::Service, tokens) {
        Err(Failed::Unfit) => block(alloc, text, Keyword::Extend, tokens),
        found => found,
    }
}

// What stands at the head of a file.
#[tactic(auto, unfolding(crate::specs::Forms::header_at, crate::specs::Reading::first))]
fn header<'t>(text: &[u8], tokens: &'t [Token]) -> Result<(Line, &'t [Token]), Failed>
    ensures read { Gives (λ x. (x.0, x.1.now)) result (header_at (lexeme_of text.now) tokens.now) }
{
    match syntax(text, tokens) {
        Err(Failed::Unfit) => match package(text, tokens) {
            Err(Failed::Unfit) => import(text, tokens),
            found => found,
        },
        found => found,
    }
}

// What doesn't stand at the head of a file.
#[tactic(auto, unfolding(crate::specs::Forms::body_at, crate::specs::Reading::first))]
fn body<'t>(alloc: Global, text: &[u8], tokens: &'t [Token]) -> Result<(Line, &'t [Token]), Failed>
    ensures read { Gives (λ x. (x.0, x.1.now)) result (body_at (lexeme_of text.now) tokens.now) }
{
    match setting(alloc, text, Keyword::Option, tokens) {
        Err(Failed::Unfit) => match declared(alloc, text, tokens) {
            Err(Failed::Unfit) => service(alloc, text, tokens),
            found => found,
        },
        found => found,
    }
}

// A part of a file; of a message the beginning alone.
#[tactic(auto, unfolding(crate::specs::Forms::item_at, crate::specs::Reading::first))]
pub fn item<'t>(
    alloc: Global,
    text: &[u8],
    tokens: &'t [Token],
) -> Result<(Line, &'t [Token]), Failed>
    ensures read { Gives (λ x. (x.0, x.1.now)) result (item_at (lexeme_of text.now) tokens.now) }
{
    match ended(Line::Passed, tokens) {
        Err(Failed::Unfit) => match header(text, tokens) {
            Err(Failed::Unfit) => body(alloc, text, tokens),
            found => found,
        },
        found => found,
    }
}
