//! Fields of messages.
use sz_types::{Encoding, Text};

/// The type of a field that has no message's.
#[derive(Clone, Copy, Debug, PartialEq, Eq)]
pub enum PlainKind {
    Truth,
    Whole,
    Str,
    Bytes,
}

/// What a field is kept with that has no message's type.
#[derive(Clone, Copy, Debug, PartialEq, Eq)]
pub struct Plain {
    pub kind: PlainKind,
    pub code: Encoding,
}

/// What a field is by its type.
#[derive(Debug, Drop)]
pub enum Sort {
    /// It isn't kept.
    Unkept,
    Kept(Plain),
    /// It has the type of the message of this full name.
    Message(Text),
}

/// A field of a message.
#[derive(Debug, Drop)]
pub struct FieldIn {
    /// The full name of its message.
    pub owner: Text,
    /// Its name as programs see it.
    pub name: Text,
    pub number: u32,
    pub repeated: bool,
    pub sort: Sort,
}
