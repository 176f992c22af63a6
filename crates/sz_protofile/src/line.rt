//! The lines of a file: what is kept of each of its parts.
use sz_protofile_lex::Token;

/// A name with its number.
#[derive(Clone, Copy, Debug, PartialEq, Eq)]
pub struct Member {
    pub name: Token,
    /// The number, and 2^29 for each larger one.
    pub number: u32,
}

/// A field of a message.
#[derive(Clone, Copy, Debug, PartialEq, Eq)]
pub struct FieldLine {
    pub repeated: bool,
    /// The word for its type.
    pub word: Token,
    pub member: Member,
}

/// A part of a file. A message is its opening line, its parts and its closing line.
#[derive(Clone, Copy, Debug, PartialEq, Eq)]
pub enum Line {
    /// A part that means nothing here.
    Passed,
    /// The package's name.
    Package(Token),
    /// An enum, by its name.
    Enum(Token),
    /// A message begins; its name.
    Message(Token),
    /// The message ends that began last.
    End,
    Field(FieldLine),
    /// A map or a group.
    Unread(Member),
}
