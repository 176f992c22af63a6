//! A token: its kind, its place and its span.
use crate::sign::Sign;
use crate::word::Word;
use sz_types::Place;

/// What a token is, with the value that its text spells, unless that is a string or bytes: those are decoded by `decode`.
#[derive(Clone, Copy, Debug, PartialEq, Eq)]
pub enum Kind {
    Name,
    Word(Word),
    Number(i64),
    Character(char),
    Str,
    Bytes,
    Sign(Sign),
}

/// A token. Its text is the `len` bytes from `start` on, which counts bytes from 0.
#[derive(Clone, Copy, Debug, PartialEq, Eq)]
pub struct Token {
    pub kind: Kind,
    /// The place of its first byte.
    pub place: Place,
    pub start: usize,
    pub len: usize,
}
