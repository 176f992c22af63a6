//! What stands at the front of a text.
ghost use Rattle.std.specs.Prelude.{◌≡◌, ◌+◌, ◌<◌, ◌≤◌, length, true};
ghost use Rattle.std.specs.List.{prefix_len};
ghost use Rattle.sz_lex.specs.Classes.{is_blank, is_letter, is_digit, is_word};
ghost use Rattle.sz_lex.specs.Tokens.{begins_literal};
ghost use Rattle.sz_lex.specs.Reading.{not_newline, word_kind, body_at, quoted_item, literal_of, sign_of_text, item};

use crate::escape::Quoted;
use crate::literal::{body_len, character_at};
use crate::number::number_of;
use crate::sign::sign_at;
use crate::token::Kind;
use crate::word::word_of;
use memchr::memchr;

/// What stands at the front of a text, and how many bytes it takes.
#[derive(Clone, Copy, Debug)]
pub enum Item {
    /// A blank, or a comment.
    Gap(usize),
    Lexeme(Kind, usize),
    BadChar,
    BadLiteral,
}

fn is_blank(byte: u8) -> bool
    ensures { result ≡ is_blank byte }
{
    byte == b' ' || byte == b'\t' || byte == b'\n' || byte == b'\r'
}

fn is_letter(byte: u8) -> bool
    ensures { result ≡ is_letter byte }
{
    b'A' <= byte && byte <= b'Z' || b'a' <= byte && byte <= b'z' || byte == b'_'
}

fn is_digit(byte: u8) -> bool
    ensures { result ≡ is_digit byte }
{
    b'0' <= byte && byte <= b'9'
}

fn is_word(byte: u8) -> bool
    ensures { result ≡ is_word byte }
{
    is_letter(byte) || is_digit(byte)
}

// How many bytes at the front are letters, digits and underscores.
fn word_len(text: &[u8]) -> usize
    ensures value { result ≡ prefix_len is_word text.now }
    ensures most { result ≤ length text.now }
{
    let mut len = 0;
    while len < text.len() && is_word(text[len]) {
        len += 1;
    }
    len
}

// How many bytes at the front are before the end of the line.
fn line_len(text: &[u8]) -> usize
    ensures value { result ≡ prefix_len not_newline text.now }
    ensures most { result ≤ length text.now }
{
    memchr(b'\n', text).unwrap_or(text.len())
}

fn word_kind(word: &[u8]) -> Kind
    ensures { result ≡ word_kind word.now }
{
    match word_of(word) {
        Some(reserved) => Kind::Word(reserved),
        None => Kind::Name,
    }
}

// Whether a literal begins here.
fn begins_literal(text: &[u8]) -> bool
    ensures { result ≡ begins_literal text.now }
{
    match text {
        [] => false,
        [b'B', b'"', ..] => true,
        [first, ..] => is_digit(*first) || *first == b'"' || *first == b'\'',
    }
}

// The string or bytes literal at the front, after its opening.
fn quoted_item(quoted: Quoted, text: &[u8]) -> Item
    ensures { result ≡ quoted_item quoted (body_at quoted 0 text.now) }
{
    match (quoted, body_len(quoted, text)) {
        (_, None) => Item::BadLiteral,
        (Quoted::Str, Some(len)) => Item::Lexeme(Kind::Str, 1 + len),
        (Quoted::Bytes, Some(len)) => Item::Lexeme(Kind::Bytes, 2 + len),
    }
}

// The literal that begins at the front.
fn literal_item(text: &[u8]) -> Item
    requires begins { begins_literal text.now ≡ true }
    ensures { result ≡ literal_of text.now }
{
    let first = text[0];
    if is_digit(first) {
        let len = word_len(text);
        match number_of(&text[..len]) {
            Some(number) => Item::Lexeme(Kind::Number(number), len),
            None => Item::BadLiteral,
        }
    } else if first == b'\'' {
        match character_at(&text[1..]) {
            Some((character, len)) => Item::Lexeme(Kind::Character(character), len + 1),
            None => Item::BadLiteral,
        }
    } else if first == b'"' {
        quoted_item(Quoted::Str, &text[1..])
    } else {
        quoted_item(Quoted::Bytes, &text[2..])
    }
}

// The sign at the front.
fn sign_item(text: &[u8]) -> Item
    requires { 0 < length text.now }
    ensures { result ≡ sign_of_text text.now }
{
    let second = if text.len() > 1 { text[1] } else { 0 };
    match sign_at(text[0], second) {
        Some((sign, len)) => Item::Lexeme(Kind::Sign(sign), len),
        None => Item::BadChar,
    }
}

// What stands at the front of a text that isn't empty.
pub fn first_item(text: &[u8]) -> Item
    requires some { 0 < length text.now }
    requires most { length text.now ≤ 1048576 }
    ensures { result ≡ item text.now }
{
    let first = text[0];
    if is_blank(first) {
        Item::Gap(1)
    } else if first == b'#' {
        Item::Gap(line_len(&text[1..]) + 1)
    } else if begins_literal(text) {
        literal_item(text)
    } else if is_letter(first) {
        let len = word_len(text);
        Item::Lexeme(word_kind(&text[..len]), len)
    } else {
        sign_item(text)
    }
}
