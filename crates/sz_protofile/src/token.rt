//! Single tokens.
ghost use Rattle.std.specs.Prelude.{◌≡◌};
ghost use Rattle.sz_lex.specs.Tokens.{all_word};
ghost use Rattle.sz_lex.specs.Classes.{is_letter, is_word};
ghost use Rattle.sz_protofile_lex.specs.Lexemes.{lexeme_of};
ghost use Rattle.sz_protofile.specs.Reading.{after_sign, after_quoted, word_at, after_word, is_name, name_at, number_at};
ghost use Rattle.sz_protofile.specs.Outcome.{Gives};

use crate::failed::Failed;
use crate::keyword::Keyword;
use crate::number::number_of;
use sz_protofile_lex::{Kind, Token, lexeme};

/// What follows the sign.
#[tactic(auto, unfolding(crate::specs::Reading::after_sign))]
pub fn after_sign(sign: u8, tokens: &[Token]) -> Result<&[Token], Failed>
    ensures read { Gives (λ r. r.now) result (after_sign sign tokens.now) }
{
    match tokens {
        [
            Token {
                kind: Kind::Sign(found),
                ..
            },
            rest @ ..,
        ] if *found == sign => Ok(rest),
        _ => Err(Failed::Unfit),
    }
}

/// What follows a string.
#[tactic(auto, unfolding(crate::specs::Reading::after_quoted))]
pub fn after_quoted(tokens: &[Token]) -> Result<&[Token], Failed>
    ensures read { Gives (λ r. r.now) result (after_quoted tokens.now) }
{
    match tokens {
        [
            Token {
                kind: Kind::Quoted,
                ..
            },
            rest @ ..,
        ] => Ok(rest),
        _ => Err(Failed::Unfit),
    }
}

/// A word, and what follows it.
#[tactic(auto, unfolding(crate::specs::Reading::word_at))]
pub fn word(tokens: &[Token]) -> Result<(Token, &[Token]), Failed>
    ensures read { Gives (λ x. (x.0, x.1.now)) result (word_at tokens.now) }
{
    let [token, rest @ ..] = tokens else {
        return Err(Failed::Unfit);
    };
    match token.kind {
        Kind::Word => Ok((*token, rest)),
        _ => Err(Failed::Unfit),
    }
}

/// What follows the keyword.
#[tactic(auto, unfolding(crate::specs::Reading::after_word, crate::specs::Reading::bind, crate::specs::Reading::guard))]
pub fn after_word<'t>(
    text: &[u8],
    keyword: Keyword,
    tokens: &'t [Token],
) -> Result<&'t [Token], Failed>
    ensures read { Gives (λ r. r.now) result (after_word (lexeme_of text.now) keyword tokens.now) }
{
    let (token, rest) = word(tokens)?;
    if keyword.text() == lexeme(text, &token) {
        Ok(rest)
    } else {
        Err(Failed::Unfit)
    }
}

fn is_letter(byte: u8) -> bool
    ensures { result ≡ is_letter byte }
{
    b'A' <= byte && byte <= b'Z' || b'a' <= byte && byte <= b'z' || byte == b'_'
}

// Whether it is a letter, a digit or an underscore.
fn is_word(byte: u8) -> bool
    ensures { result ≡ is_word byte }
{
    is_letter(byte) || b'0' <= byte && byte <= b'9'
}

// Whether all bytes are letters, digits and underscores.
fn all_word(bytes: &[u8]) -> bool
    ensures value { result ≡ all_word bytes.now }
{
    for byte in bytes {
        if !is_word(*byte) {
            return false;
        }
    }
    true
}

// Whether a word is a name.
fn is_name(word: &[u8]) -> bool
    ensures { result ≡ is_name word.now }
{
    match word {
        [] => false,
        [first, rest @ ..] => is_letter(*first) && all_word(rest),
    }
}

/// A name, and what follows it.
#[tactic(auto, unfolding(crate::specs::Reading::name_at, crate::specs::Reading::bind, crate::specs::Reading::guard))]
pub fn name<'t>(text: &[u8], tokens: &'t [Token]) -> Result<(Token, &'t [Token]), Failed>
    ensures read { Gives (λ x. (x.0, x.1.now)) result (name_at (lexeme_of text.now) tokens.now) }
{
    let (token, rest) = word(tokens)?;
    if is_name(lexeme(text, &token)) {
        Ok((token, rest))
    } else {
        Err(Failed::Unfit)
    }
}

/// A number, and what follows it.
#[tactic(auto, unfolding(crate::specs::Reading::number_at, crate::specs::Reading::bind))]
pub fn number<'t>(text: &[u8], tokens: &'t [Token]) -> Result<(u32, &'t [Token]), Failed>
    ensures read { Gives (λ x. (x.0, x.1.now)) result (number_at (lexeme_of text.now) tokens.now) }
{
    let (token, rest) = word(tokens)?;
    match number_of(lexeme(text, &token)) {
        Some(number) => Ok((number, rest)),
        None => Err(Failed::Unfit),
    }
}
