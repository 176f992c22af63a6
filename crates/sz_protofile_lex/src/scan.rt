//! From a text to its tokens.
ghost use Rattle.std.specs.Prelude.{◌≡◌, ◌-◌, ◌<◌, ◌≤◌, ◌^◌, length};
ghost use Rattle.sz_lex.specs.Tokens.{after};
ghost use Rattle.sz_protofile_lex.specs.Tokens.{tokens_of};
ghost use Rattle.sz_protofile_lex.specs.Answers.{Gives};

use crate::error::LexError;
use crate::item::{Item, first_item};
use crate::token::Token;
use std::alloc::Global;
use sz_types::Place;

// The place after a byte.
fn after(byte: u8, place: Place) -> Place
    requires line { place.line < 2 ^ 32 - 1 }
    requires column { place.column < 2 ^ 32 - 1 }
    ensures { result ≡ after byte place }
{
    if byte == b'\n' {
        Place {
            line: place.line + 1,
            column: 1,
        }
    } else {
        Place {
            line: place.line,
            column: place.column + 1,
        }
    }
}

/// The tokens of a `.proto` file of at most 1,048,576 bytes, from left to right.
///
/// Blanks and comments separate tokens. The first byte with which no token begins is refused, and so is the first byte of
/// a string or a comment that isn't closed, whichever comes first.
pub fn lex(alloc: Global, text: &[u8]) -> Result<Vec<Token>, LexError>
    requires { length text.now ≤ 1048576 }
    // The text's tokens, or the place where it is refused, unless memory runs out.
    ensures value { Gives (λ v. v.items) result (tokens_of text.now) }
{
    let mut tokens = Vec::new(alloc);
    let mut place = Place { line: 1, column: 1 };
    // How many of the next bytes belong to what was read last.
    let mut skip = 0;
    for (at, byte) in text.iter().enumerate() {
        if skip > 0 {
            skip -= 1;
        } else {
            match first_item(&text[at..]) {
                Item::Gap(len) => skip = len - 1,
                Item::Lexeme(kind, len) => {
                    tokens.push(Token {
                        kind,
                        place,
                        start: at,
                        len,
                    })?;
                    skip = len - 1;
                }
                Item::Bad => return Err(LexError::Refused(place)),
            }
        }
        place = after(*byte, place);
    }
    Ok(tokens)
}
