//! From a text to its tokens.
ghost use Rattle.std.specs.Prelude.{◌≡◌, ◌-◌, ◌<◌, ◌≤◌, ◌^◌, ◌⊎◌, List, length, IsUtf8};
ghost use Rattle.std.specs.Prelude.{IfOk, IfErr, MatchResult};
ghost use Rattle.sz_lex.specs.declared.token.Token.{Token as Tok};
ghost use Rattle.sz_lex.specs.declared.error.LexError.{LexError as Reason};
ghost use Rattle.sz_lex.specs.Tokens.{after, later, first_place, HasTokens, IsRefused};
ghost use Rattle.sz_lex.specs.Reading.{lexed, Gives};

use crate::error::LexError;
use crate::item::{Item, first_item};
use crate::token::Token;
use crate::tokens::Tokens;
use std::alloc::Global;
use sz_types::Place;

// The place after a byte.
fn after(byte: u8, place: Place) -> Place
    requires line { place.line < 2 ^ 32 - 1 }
    requires column { place.column < 2 ^ 32 - 1 }
    ensures { result ≡ after byte place }
{
    if byte == b'\n' {
        Place {
            line: place.line + 1,
            column: 1,
        }
    } else {
        Place {
            line: place.line,
            column: place.column + 1,
        }
    }
}

// The place after the front of a text.
fn place_after(front: &[u8]) -> Place
    requires { length front.now ≤ 1048576 }
    ensures { result ≡ later front.now first_place }
{
    let mut place = Place { line: 1, column: 1 };
    for byte in front {
        place = after(*byte, place);
    }
    place
}

// The tokens, from left to right.
fn scan(alloc: Global, text: &[u8]) -> Result<Vec<Token>, LexError>
    requires { length text.now ≤ 1048576 }
    ensures { Gives (λ v. v.items) result (lexed 0 0 first_place text.now) }
{
    let mut tokens = Vec::new(alloc);
    let mut place = Place { line: 1, column: 1 };
    // How many of the next bytes belong to what was read last.
    let mut skip = 0;
    for (at, byte) in text.iter().enumerate() {
        if skip > 0 {
            skip -= 1;
        } else {
            match first_item(&text[at..]) {
                Item::Gap(len) => skip = len - 1,
                Item::Lexeme(kind, len) => {
                    tokens.push(Token {
                        kind,
                        place,
                        start: at,
                        len,
                    })?;
                    skip = len - 1;
                }
                Item::BadChar => return Err(LexError::BadChar(place)),
                Item::BadLiteral => return Err(LexError::BadLiteral(place)),
            }
        }
        place = after(*byte, place);
    }
    Ok(tokens)
}

// The tokens with a copy of the text.
fn tokens_of(alloc: Global, text: &[u8]) -> Result<Tokens, LexError>
    requires within { length text.now ≤ 1048576 }
    requires utf8 { IsUtf8 text.now }
    ensures read { Gives (λ t. t.tokens) result (lexed 0 0 first_place text.now) }
    ensures copied { IfOk result (λ t. t.text ≡ text.now) }
{
    let tokens = scan(alloc, text)?;
    Tokens::new(alloc, text, tokens)
}

/// The tokens of a program's text of at most 1,048,576 bytes.
///
/// A text that isn't UTF-8 is refused first, at the first byte that isn't part of a valid front. Otherwise tokens are
/// taken from the left, each as long as possible, and the first byte that begins none, or the first literal that isn't
/// of its form, is refused.
pub fn lex(alloc: Global, text: &[u8]) -> Result<Tokens, LexError>
    requires { length text.now ≤ 1048576 }
    // What is found are the tokens of the text, beside a copy of it.
    ensures found { IfOk result (λ t. HasTokens text.now t.tokens) }
    ensures copied { IfOk result (λ t. t.text ≡ text.now) }
    // The text's tokens are found, unless memory runs out.
    ensures only_found { (ts : List Tok) → HasTokens text.now ts
        → MatchResult result (λ t. t.tokens ≡ ts) (λ e. e ≡ LexError.NoMemory) }

    // A refusal is the text's, unless memory ran out.
    ensures refused { IfErr result (λ e. (e ≡ LexError.NoMemory) ⊎ IsRefused text.now e) }
    // What the text is refused for is the answer, unless memory runs out.
    ensures only_refused { (e : Reason) → IsRefused text.now e
        → MatchResult result (λ _. ⊥) (λ f. (f ≡ LexError.NoMemory) ⊎ (f ≡ e)) }
{
    match simdutf8::compat::from_utf8(text) {
        Ok(_) => tokens_of(alloc, text),
        Err(error) => Err(LexError::NotUtf8(place_after(&text[..error.valid_up_to()]))),
    }
}
