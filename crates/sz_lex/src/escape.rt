//! Escapes in literals.
ghost use Rattle.std.specs.Prelude.{◌≡◌, length};
ghost use Rattle.std.specs.Option.{option_and_then};
ghost use Rattle.sz_lex.specs.Numbers.{digits_from};
ghost use Rattle.sz_lex.specs.Literals.{opening, letter_escape, character_escape, escape_of};
ghost use Rattle.sz_lex.specs.Reading.{escape_size, escape_at};

use crate::number;

/// A literal between double quotes: a string, or bytes, which have a `B` before the opening quote.
#[derive(Clone, Copy, Debug, PartialEq, Eq)]
pub enum Quoted {
    Str,
    Bytes,
}

impl Quoted {
    /// What stands before the literal's first part.
    pub fn opening(self) -> &'static [u8]
        ensures value { result.now ≡ opening self }
    {
        match self {
            Quoted::Str => b"\"",
            Quoted::Bytes => b"B\"",
        }
    }
}

/// What an escape stands for.
#[derive(Clone, Copy, Debug, PartialEq, Eq)]
pub enum Escape {
    Byte(u8),
    Char(char),
}

fn letter_escape(letter: u8) -> Option<Escape>
    ensures { result ≡ letter_escape letter }
{
    match letter {
        b'n' => Some(Escape::Char('\n')),
        b't' => Some(Escape::Char('\t')),
        b'r' => Some(Escape::Char('\r')),
        b'\\' | b'"' | b'\'' => Some(Escape::Char(char::from(letter))),
        _ => None,
    }
}

// The character whose code four hexadecimal digits spell.
fn character_escape(digits: &[u8]) -> Option<Escape>
    requires { length digits.now ≡ 4 }
    ensures { result ≡ option_and_then character_escape (digits_from 16 0 digits.now) }
{
    let code = number::digits(16, digits)?;
    Some(Escape::Char(char::from_u32(code as u32)?))
}

// What an escape stands for, which is written without its backslash.
fn escape_of(text: &[u8]) -> Option<Escape>
    ensures { result ≡ escape_of text.now }
{
    match text {
        [letter] => letter_escape(*letter),
        [b'x', _, _] => Some(Escape::Byte(number::digits(16, &text[1..])? as u8)),
        [b'u', _, _, _, _] => character_escape(&text[1..]),
        _ => None,
    }
}

// How many bytes an escape takes after its backslash, if its first byte is this.
pub fn escape_size(first: u8) -> usize
    ensures { result ≡ escape_size first }
{
    match first {
        b'x' => 3,
        b'u' => 5,
        _ => 1,
    }
}

// The escape at the front, after its backslash.
pub fn escape_at(text: &[u8]) -> Option<Escape>
    ensures { result ≡ escape_at text.now }
{
    if text.is_empty() {
        return None;
    }
    let size = escape_size(text[0]);
    escape_of(&text[..size.min(text.len())])
}
