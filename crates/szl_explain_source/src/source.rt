//! A program's text with its tokens.
use crate::expected::is_at;
use std::alloc::{AllocError, Global};
use sz_lex::{Kind, Token};
use sz_types::Place;

/// The brackets that open.
pub const OPENING: &str = "( [ {";

/// The brackets that close.
pub const CLOSING: &str = ") ] }";

/// The text of a program, and its tokens, which are none where it has none.
#[derive(Clone, Copy)]
pub struct Source<'t> {
    pub text: &'t [u8],
    pub tokens: &'t [Token],
}

/// The bytes of a text from one offset to another, as far as it has them.
pub fn part(text: &[u8], from: usize, to: usize) -> &[u8] {
    let from = from.min(text.len());
    let rest = &text[from..];
    let count = to.saturating_sub(from).min(rest.len());
    &rest[..count]
}

/// The offset of the first byte of a line, which is counted from 1.
pub fn line_start(text: &[u8], line: u32) -> usize {
    let mut left = line;
    for (at, byte) in text.iter().enumerate() {
        if left <= 1 {
            return at;
        }
        if *byte == b'\n' {
            left -= 1;
        }
    }
    text.len()
}

/// A line of a text, counted from 1, without its end.
pub fn line_of(text: &[u8], line: u32) -> &[u8] {
    let rest = part(text, line_start(text, line), text.len());
    for (at, byte) in rest.iter().enumerate() {
        if *byte == b'\n' {
            return part(rest, 0, at);
        }
    }
    rest
}

/// The bytes of a text from a place on.
pub fn text_from(text: &[u8], place: Place) -> &[u8] {
    let start = line_start(text, place.line);
    let before = (place.column as usize).saturating_sub(1);
    part(text, start.saturating_add(before), text.len())
}

/// Texts, one after the other.
pub fn joined(alloc: Global, texts: &[&[u8]]) -> Result<Vec<u8>, AllocError> {
    let mut whole = Vec::new(alloc);
    for text in texts {
        whole.extend_from_slice(text)?;
    }
    Ok(whole)
}

/// The place of an offset in a text.
pub fn place_of(text: &[u8], offset: usize) -> Place {
    let mut place = Place { line: 1, column: 1 };
    for byte in part(text, 0, offset) {
        if *byte == b'\n' {
            place = Place {
                line: place.line.saturating_add(1),
                column: 1,
            };
        } else {
            place.column = place.column.saturating_add(1);
        }
    }
    place
}

/// Whether the first place stands before the second.
pub fn is_before(first: Place, second: Place) -> bool {
    first.line < second.line || (first.line == second.line && first.column < second.column)
}

impl<'t> Source<'t> {
    /// The index of the first token at a place or after it.
    pub fn token_at(&self, place: Place) -> usize {
        for (index, token) in self.tokens.iter().enumerate() {
            if !is_before(token.place, place) {
                return index;
            }
        }
        self.tokens.len()
    }

    /// The index of the first token that begins at an offset or after it.
    pub fn token_from(&self, offset: usize) -> usize {
        for (index, token) in self.tokens.iter().enumerate() {
            if token.start >= offset {
                return index;
            }
        }
        self.tokens.len()
    }

    /// The tokens before an index.
    pub fn front(&self, count: usize) -> &'t [Token] {
        let tokens = self.tokens;
        let count = count.min(tokens.len());
        &tokens[..count]
    }

    /// The kind of a token by its index.
    pub fn kind(&self, index: usize) -> Option<Kind> {
        Some(self.tokens.get(index)?.kind)
    }

    /// The place of a token; that of the end of the text where there is no such token.
    pub fn place(&self, index: usize) -> Place {
        match self.tokens.get(index) {
            Some(token) => token.place,
            None => place_of(self.text, self.text.len()),
        }
    }

    /// The offset of a token, or the length of the text.
    pub fn start(&self, index: usize) -> usize {
        match self.tokens.get(index) {
            Some(token) => token.start,
            None => self.text.len(),
        }
    }

    /// The offset after a token, or the length of the text.
    pub fn end(&self, index: usize) -> usize {
        match self.tokens.get(index) {
            Some(token) => token.start.saturating_add(token.len),
            None => self.text.len(),
        }
    }

    /// The bytes of a token, or none where there is no such token.
    pub fn spelled(&self, index: usize) -> &'t [u8] {
        part(self.text, self.start(index), self.end(index))
    }

    /// The bytes from the first of these tokens to the end of the last.
    pub fn spelled_from(&self, first: usize, last: usize) -> &'t [u8] {
        part(self.text, self.start(first), self.end(last))
    }

    /// Whether a token is one of these words of the grammar.
    pub fn is(&self, index: usize, words: &str) -> bool {
        is_at(self.tokens, index, words)
    }

    /// The index of the bracket of any kind that is open after the tokens from one index up to another, the last of these that are.
    pub fn open_bracket(&self, from: usize, to: usize) -> Option<usize> {
        let mut depth: usize = 0;
        for index in (from..to).rev() {
            if self.is(index, CLOSING) {
                depth = depth.saturating_add(1);
            } else if self.is(index, OPENING) {
                if depth == 0 {
                    return Some(index);
                }
                depth -= 1;
            }
        }
        None
    }

    /// The index of the first of these words from a token on, or the number of tokens.
    pub fn next(&self, from: usize, words: &str) -> usize {
        for index in from..self.tokens.len() {
            if self.is(index, words) {
                return index;
            }
        }
        self.tokens.len()
    }

    /// How many brackets are open after a token, if so many are before it.
    pub fn depth_after(&self, index: usize, depth: usize) -> usize {
        if self.is(index, OPENING) {
            depth.saturating_add(1)
        } else if self.is(index, CLOSING) {
            depth.saturating_sub(1)
        } else {
            depth
        }
    }
}
