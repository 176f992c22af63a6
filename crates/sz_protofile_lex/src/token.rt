//! A token: its kind, its place and its span.
ghost use Rattle.std.specs.Prelude.{◌≡◌};
ghost use Rattle.sz_protofile_lex.specs.Lexemes.{lexeme_of};

use sz_types::Place;

/// What a token is.
#[derive(Clone, Copy, Debug, PartialEq, Eq)]
pub enum Kind {
    /// A run of letters, digits, underscores and dots.
    Word,
    /// A string between double or single quotes.
    Quoted,
    /// Any other printable byte of ASCII.
    Sign(u8),
}

/// A token. Its text is the `len` bytes from `start` on, which counts bytes from 0.
#[derive(Clone, Copy, Debug, PartialEq, Eq)]
pub struct Token {
    pub kind: Kind,
    /// The place of its first byte.
    pub place: Place,
    pub start: usize,
    pub len: usize,
}

/// The bytes of the text in a token's span, as far as the text reaches.
pub fn lexeme<'t>(text: &'t [u8], token: &Token) -> &'t [u8]
    ensures value { result.now ≡ lexeme_of text.now token.now }
{
    let start = token.start.min(text.len());
    let rest = &text[start..];
    &rest[..token.len.min(rest.len())]
}
