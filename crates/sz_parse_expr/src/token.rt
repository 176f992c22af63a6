//! Single tokens.
ghost use Rattle.std.specs.Prelude.{◌≡◌, Some as Just};
ghost use Rattle.sz_lex.specs.Lexed.{lexeme_of};
ghost use Rattle.sz_parse_expr.specs.Reading.{after_sign, after_word, utf8_in, ident_of, name_at};
ghost use Rattle.sz_parse_expr.specs.Outcome.{Gives, Sees};

use crate::failed::Failed;
use crate::reader::Reader;
use std::alloc::Global;
use sz_lex::{Kind, Sign, Token, Word};
use sz_tree::Name;
use sz_types::Text;

/// What follows the sign, if it is there.
#[tactic(auto, unfolding(crate::specs::Reading::after_sign))]
pub fn skip(sign: Sign, tokens: &[Token]) -> Option<&[Token]>
    ensures value { Sees (λ r. r.now) result (after_sign sign tokens.now) }
{
    match tokens {
        [
            Token {
                kind: Kind::Sign(found),
                ..
            },
            rest @ ..,
        ] if *found == sign => Some(rest),
        _ => None,
    }
}

/// What follows the sign, which must be there.
pub fn expect(sign: Sign, tokens: &[Token]) -> Result<&[Token], Failed>
    ensures value { Gives (λ r. r.now) result (after_sign sign tokens.now) }
{
    skip(sign, tokens).ok_or(Failed::Syntax)
}

/// What follows the word, if it is there.
#[tactic(auto, unfolding(crate::specs::Reading::after_word))]
pub fn skip_word(word: Word, tokens: &[Token]) -> Option<&[Token]>
    ensures value { Sees (λ r. r.now) result (after_word word tokens.now) }
{
    match tokens {
        [
            Token {
                kind: Kind::Word(found),
                ..
            },
            rest @ ..,
        ] if *found == word => Some(rest),
        _ => None,
    }
}

/// What follows the word, which must be there.
pub fn expect_word(word: Word, tokens: &[Token]) -> Result<&[Token], Failed>
    ensures value { Gives (λ r. r.now) result (after_word word tokens.now) }
{
    skip_word(word, tokens).ok_or(Failed::Syntax)
}

// The bytes of the text in a token's span, as far as the text reaches.
fn lexeme<'t>(text: &'t [u8], token: &Token) -> &'t [u8]
    ensures value { result.now ≡ lexeme_of text.now token.now }
{
    let start = token.start.min(text.len());
    let rest = &text[start..];
    &rest[..token.len.min(rest.len())]
}

// The text of a token. The text's own tokens are UTF-8, so that none of them is taken for empty.
#[tactic(auto, using(crate::proofs::TokenLemmas::utf8_in_is, crate::proofs::TokenLemmas::utf8_in_none))]
pub fn spelled<'t>(text: &'t [u8], token: &Token) -> &'t str
    ensures value { result.now ≡ utf8_in text.now token.now }
{
    match std::str::from_utf8(lexeme(text, token)) {
        Ok(lexeme) => lexeme,
        Err(_) => "",
    }
}

/// The name that a token spells.
pub fn ident(alloc: Global, text: &[u8], token: &Token) -> Result<Name, Failed>
    ensures value { Gives (λ n. n) result (Just (ident_of (utf8_in text.now) token.now)) }
{
    Ok(Name::new(token.place, Text::from_str(alloc, spelled(text, token))?))
}

/// A name, and what follows it.
#[tactic(auto, unfolding(crate::specs::Reading::name_at))]
pub fn name(reader: Reader<'_>) -> Result<(Name, &[Token]), Failed>
    ensures value { Gives (λ x. (x.0, x.1.now)) result (name_at (utf8_in reader.entry.text.now) reader.entry.tokens.now) }
{
    let [token, rest @ ..] = reader.tokens else {
        return Err(Failed::Syntax);
    };
    match token.kind {
        Kind::Name => Ok((ident(reader.alloc, reader.text, token)?, rest)),
        _ => Err(Failed::Syntax),
    }
}
