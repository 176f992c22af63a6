//! How a text is kept.
use crate::marked::MarkedText;
use arrayvec::ArrayString;

// The most bytes that are kept in place. With their number they take 24 bytes, as do the address, the length and the room of a string.
pub(crate) const MOST: usize = 16;

// How a text is kept.
#[derive(Debug, Drop)]
pub(crate) enum Form {
    // All bytes are ASCII, so that each is a character.
    Ascii(String),
    // The same of few bytes, which are kept in place and take no memory.
    Brief(ArrayString<MOST>),
    // Some byte isn't, and places are found by a walk from the front.
    Unmarked(String),
    // Some byte isn't, and places are found near those that are kept.
    Marked(Box<MarkedText>),
}
