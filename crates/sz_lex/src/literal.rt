//! Literals between quotes: where they end, and what they stand for.
ghost use Rattle.std.specs.Prelude.{◌≡◌, ℕ, ◌+◌, ◌<◌, ◌≤◌, List, ◌++◌, length, is_some, IfSome, IfNone, IfOk, OnOk};
ghost use Rattle.std.specs.Option.{option_map, option_and_then};
ghost use Rattle.sz_lex.specs.Literals.{escape_code, escape_bytes, IsQuoted};
ghost use Rattle.std.specs.Str.{chars};
ghost use Rattle.sz_lex.specs.Reading.{first, escape_size, escape_at, body_at, unescaped, only_plain, plain_character, unescaped_at, escaped_at, character_at, escape_value, whole_value};

use crate::escape::{Escape, Quoted, escape_at, escape_size};
use memchr::{memchr, memchr3};
use std::alloc::{AllocError, Global};

// Whether the escape may stand in such a literal.
fn may_stand(quoted: Quoted, escape: Escape) -> bool
    ensures { result ≡ is_some (escape_bytes quoted escape) }
{
    match (quoted, escape) {
        (Quoted::Str, Escape::Byte(byte)) => byte < 0x80,
        _ => true,
    }
}

// The escape at the front, after its backslash, if it may stand in such a literal.
fn escape_in(quoted: Quoted, text: &[u8]) -> Option<Escape>
    ensures value { option_map escape_value result ≡ option_and_then (escape_bytes quoted) (escape_at text.now) }
    ensures within { IfSome result (λ _. escape_size (first text.now) ≤ length text.now) }
    ensures some { IfSome result (λ _. 0 < length text.now) }
{
    let escape = escape_at(text)?;
    if may_stand(quoted, escape) {
        Some(escape)
    } else {
        None
    }
}

// The length of the escape at the front, after its backslash, if it may stand in such a literal.
fn escape_len(quoted: Quoted, text: &[u8]) -> Option<usize>
    ensures value { result ≡ option_map (λ _. escape_size (first text.now)) (option_and_then (escape_bytes quoted) (escape_at text.now)) }
    ensures within { IfSome result (λ n. n ≤ length text.now) }
{
    escape_in(quoted, text)?;
    Some(escape_size(text[0]))
}

// How many bytes the body of a literal at the front takes, with the closing quote.
pub fn body_len(quoted: Quoted, text: &[u8]) -> Option<usize>
    ensures value { result ≡ option_map (λ b. b.len) (body_at quoted 0 text.now) }
    ensures within { IfSome result (λ n. n ≤ length text.now) }
{
    let mut at = 0;
    while let Some(plain) = memchr3(b'"', b'\\', b'\n', &text[at..]) {
        let mark = at + plain;
        if text[mark] == b'"' {
            return Some(mark + 1);
        }
        if text[mark] != b'\\' {
            return None;
        }
        let escape = escape_len(quoted, &text[mark + 1..])?;
        at = mark + 1 + escape;
    }
    None
}

// The code of an escape in a character literal.
fn escape_code(escape: Escape) -> Option<char>
    ensures { result ≡ escape_code escape }
{
    match escape {
        Escape::Byte(byte) if byte < 0x80 => Some(char::from(byte)),
        Escape::Byte(_) => None,
        Escape::Char(c) => Some(c),
    }
}

// The only character of a text, if it needs no escape.
fn only_plain(text: &str) -> Option<char>
    ensures { result ≡ only_plain (chars text.now) }
{
    let mut chars = text.chars();
    let c = chars.next()?;
    match chars.next() {
        Some(_) => None,
        None => unescaped(c),
    }
}

// The character, if it needs no escape.
fn unescaped(c: char) -> Option<char>
    ensures { result ≡ unescaped c }
{
    if c == '\'' || c == '\\' || c == '\n' {
        None
    } else {
        Some(c)
    }
}

// The only character of these bytes, if it needs no escape.
fn plain_character(bytes: &[u8]) -> Option<char>
    ensures { result ≡ plain_character bytes.now }
{
    match std::str::from_utf8(bytes) {
        Ok(text) => only_plain(text),
        Err(_) => None,
    }
}

// The character and its length with the closing quote, where no backslash stands after the opening one.
fn unescaped_at(text: &[u8]) -> Option<(char, usize)>
    ensures value { result ≡ unescaped_at text.now }
    ensures within { IfSome result (λ r. r.1 ≤ length text.now) }
{
    let end = memchr(b'\'', text)?;
    let character = plain_character(&text[..end])?;
    Some((character, end + 1))
}

// The same, where an escape stands after the opening quote, from after its backslash on.
fn escaped_at(text: &[u8]) -> Option<(char, usize)>
    ensures value { result ≡ escaped_at text.now }
    ensures within { IfSome result (λ r. r.1 ≤ length text.now + 1) }
{
    let character = escape_code(escape_at(text)?)?;
    let size = escape_size(text[0]);
    if size < text.len() && text[size] == b'\'' {
        Some((character, 1 + size + 1))
    } else {
        None
    }
}

// The character after an opening quote, and the number of bytes with the closing one.
pub fn character_at(text: &[u8]) -> Option<(char, usize)>
    ensures value { result ≡ character_at text.now }
    ensures within { IfSome result (λ r. r.1 ≤ length text.now) }
{
    match text {
        [] => None,
        [b'\\', ..] => escaped_at(&text[1..]),
        _ => unescaped_at(text),
    }
}

// Writes what an escape stands for after the value.
fn push_escape(value: &mut Vec<u8>, escape: Escape) -> Result<(), AllocError>
    ensures { OnOk result (value.new.items ≡ value.old.items ++ escape_value escape) }
{
    match escape {
        Escape::Byte(byte) => value.extend_from_slice(&[byte]),
        Escape::Char(c) => {
            let mut buffer = [0; 4];
            value.extend_from_slice(c.encode_utf8(&mut buffer).as_bytes())
        }
    }
}

// The bytes that the body of a literal stands for, with its closing quote at the end.
fn decode_body(alloc: Global, quoted: Quoted, body: &[u8]) -> Result<Option<Vec<u8>>, AllocError>
    ensures { IfOk result (λ o. option_map (λ v. v.items) o ≡ whole_value (length body.now) (body_at quoted 0 body.now)) }
{
    let mut value = Vec::new(alloc);
    let mut at = 0;
    while let Some(plain) = memchr3(b'"', b'\\', b'\n', &body[at..]) {
        let mark = at + plain;
        value.extend_from_slice(&body[at..mark])?;
        if body[mark] == b'"' && mark + 1 == body.len() {
            return Ok(Some(value));
        }
        if body[mark] != b'\\' {
            return Ok(None);
        }
        let rest = &body[mark + 1..];
        let Some(escape) = escape_in(quoted, rest) else {
            return Ok(None);
        };
        push_escape(&mut value, escape)?;
        let size = escape_size(rest[0]);
        at = mark + 1 + size;
    }
    Ok(None)
}

/// The bytes that a string or bytes literal, with its quotes, stands for. Those of a string are UTF-8 if the literal is.
/// `None` if the bytes are no such literal.
pub fn decode(alloc: Global, quoted: Quoted, literal: &[u8]) -> Result<Option<Vec<u8>>, AllocError>
    ensures found { IfOk result (λ o. IfSome o (λ v. IsQuoted quoted literal.now v.items)) }
    ensures none { IfOk result (λ o. IfNone o ((value : List ℕ) → IsQuoted quoted literal.now value → ⊥)) }
{
    match literal.strip_prefix(quoted.opening()) {
        Some(body) => decode_body(alloc, quoted, body),
        None => Ok(None),
    }
}
