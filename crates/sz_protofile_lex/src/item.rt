//! What stands at the front of a text.
ghost use Rattle.std.specs.Prelude.{◌≡◌, ◌<◌, ◌≤◌, ◌==◌, ◌&&◌, not, length, false, IfSome};
ghost use Rattle.std.specs.List.{prefix_len};
ghost use Rattle.sz_lex.specs.Classes.{is_word};
ghost use Rattle.sz_lex.specs.Reading.{not_newline};
ghost use Rattle.sz_protofile_lex.specs.Tokens.{is_blank, in_word, is_printable, comment_at, quoted_at, block_item, quoted_item, slash_item, item, size_of};

use crate::token::Kind;
use memchr::memchr;

/// What stands at the front of a text, and how many bytes it takes.
#[derive(Clone, Copy, Debug)]
pub enum Item {
    /// A blank, or a comment.
    Gap(usize),
    Lexeme(Kind, usize),
    /// What begins neither, or isn't closed.
    Bad,
}

fn is_blank(byte: u8) -> bool
    ensures { result ≡ is_blank byte }
{
    byte == b' ' || 9 <= byte && byte <= 13
}

// Whether it is a letter, a digit or an underscore.
fn is_word(byte: u8) -> bool
    ensures { result ≡ is_word byte }
{
    b'A' <= byte && byte <= b'Z'
        || b'a' <= byte && byte <= b'z'
        || byte == b'_'
        || b'0' <= byte && byte <= b'9'
}

fn in_word(byte: u8) -> bool
    ensures { result ≡ in_word byte }
{
    is_word(byte) || byte == b'.'
}

fn is_printable(byte: u8) -> bool
    ensures { result ≡ is_printable byte }
{
    b'!' <= byte && byte <= b'~'
}

// How many bytes at the front may stand in a word.
fn word_len(text: &[u8]) -> usize
    ensures value { result ≡ prefix_len in_word text.now }
    ensures most { result ≤ length text.now }
{
    let mut len = 0;
    while len < text.len() && in_word(text[len]) {
        len += 1;
    }
    len
}

// How many bytes at the front are before the end of the line.
fn line_len(text: &[u8]) -> usize
    ensures value { result ≡ prefix_len not_newline text.now }
    ensures most { result ≤ length text.now }
{
    memchr(b'\n', text).unwrap_or(text.len())
}

// Whether a comment ends with this byte, after a star or after another byte.
fn ends_comment(star: bool, byte: u8) -> bool
    ensures value { result ≡ (star && byte == 47) }
{
    star && byte == b'/'
}

// How many bytes of a comment there are, with the star and the slash that close it.
fn comment_len(text: &[u8]) -> Option<usize>
    ensures value { result ≡ comment_at false text.now }
    ensures within { IfSome result (λ n. n ≤ length text.now) }
{
    let mut star = false;
    for (at, byte) in text.iter().enumerate() {
        if ends_comment(star, *byte) {
            return Some(at + 1);
        }
        star = *byte == b'*';
    }
    None
}

// Whether a string ends with this byte, which a backslash before it takes with it or not.
fn ends_string(quote: u8, escaped: bool, byte: u8) -> bool
    ensures value { result ≡ (not escaped && byte == quote) }
{
    !escaped && byte == quote
}

// Whether this byte takes the next one with it.
fn takes_next(escaped: bool, byte: u8) -> bool
    ensures value { result ≡ (not escaped && byte == 92) }
{
    !escaped && byte == b'\\'
}

// How many bytes of a string there are after its opening quote, with the closing one.
fn quoted_len(quote: u8, text: &[u8]) -> Option<usize>
    ensures value { result ≡ quoted_at quote false text.now }
    ensures within { IfSome result (λ n. n ≤ length text.now) }
{
    let mut escaped = false;
    for (at, byte) in text.iter().enumerate() {
        if *byte == b'\n' {
            return None;
        }
        if ends_string(quote, escaped, *byte) {
            return Some(at + 1);
        }
        escaped = takes_next(escaped, *byte);
    }
    None
}

// The comment between `/*` and `*/`, whose text after the opening this is.
fn block_item(text: &[u8]) -> Item
    requires most { length text.now ≤ 1048576 }
    ensures value { result ≡ block_item (comment_at false text.now) }
    ensures some { 1 ≤ size_of result }
{
    match comment_len(text) {
        Some(len) => Item::Gap(len + 2),
        None => Item::Bad,
    }
}

// The string whose text after the opening quote this is.
fn quoted_item(quote: u8, text: &[u8]) -> Item
    requires most { length text.now ≤ 1048576 }
    ensures value { result ≡ quoted_item (quoted_at quote false text.now) }
    ensures some { 1 ≤ size_of result }
{
    match quoted_len(quote, text) {
        Some(len) => Item::Lexeme(Kind::Quoted, len + 1),
        None => Item::Bad,
    }
}

// A comment, or a slash by itself; this is the text after the first slash.
fn slash_item(text: &[u8]) -> Item
    requires most { length text.now ≤ 1048576 }
    ensures value { result ≡ slash_item text.now }
    ensures some { 1 ≤ size_of result }
{
    match text {
        [b'/', rest @ ..] => Item::Gap(line_len(rest) + 2),
        [b'*', rest @ ..] => block_item(rest),
        _ => Item::Lexeme(Kind::Sign(b'/'), 1),
    }
}

// What stands at the front of a text that isn't empty.
pub fn first_item(text: &[u8]) -> Item
    requires some { 0 < length text.now }
    requires most { length text.now ≤ 1048576 }
    ensures value { result ≡ item text.now }
    ensures some { 1 ≤ size_of result }
{
    let first = text[0];
    if is_blank(first) {
        Item::Gap(1)
    } else if first == b'/' {
        slash_item(&text[1..])
    } else if in_word(first) {
        Item::Lexeme(Kind::Word, word_len(&text[1..]) + 1)
    } else if first == b'"' || first == b'\'' {
        quoted_item(first, &text[1..])
    } else if is_printable(first) {
        Item::Lexeme(Kind::Sign(first), 1)
    } else {
        Item::Bad
    }
}
