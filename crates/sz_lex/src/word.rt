//! The reserved words.
ghost use Rattle.std.specs.Prelude.{◌≡◌};
ghost use Rattle.sz_lex.specs.Words.{word_text};
ghost use Rattle.sz_lex.specs.Lookup.{word_of};

/// A reserved word. It is no name.
#[derive(Clone, Copy, Debug, PartialEq, Eq)]
pub enum Word {
    All,
    Array,
    Bool,
    Break,
    Bytes,
    Continue,
    Def,
    Do,
    Each,
    Else,
    Emit,
    False,
    For,
    Function,
    If,
    Int,
    Map,
    Of,
    Proto,
    Return,
    Some,
    Static,
    String,
    Table,
    Time,
    True,
    Type,
    Weight,
    When,
    While,
}

// Each reserved word once.
const WORDS: [Word; 30] = [
    Word::All,
    Word::Array,
    Word::Bool,
    Word::Break,
    Word::Bytes,
    Word::Continue,
    Word::Def,
    Word::Do,
    Word::Each,
    Word::Else,
    Word::Emit,
    Word::False,
    Word::For,
    Word::Function,
    Word::If,
    Word::Int,
    Word::Map,
    Word::Of,
    Word::Proto,
    Word::Return,
    Word::Some,
    Word::Static,
    Word::String,
    Word::Table,
    Word::Time,
    Word::True,
    Word::Type,
    Word::Weight,
    Word::When,
    Word::While,
];

impl Word {
    /// How the word is spelled.
    pub fn text(self) -> &'static [u8]
        ensures value { result.now ≡ word_text self }
    {
        match self {
            Word::All => b"all",
            Word::Array => b"array",
            Word::Bool => b"bool",
            Word::Break => b"break",
            Word::Bytes => b"bytes",
            Word::Continue => b"continue",
            Word::Def => b"def",
            Word::Do => b"do",
            Word::Each => b"each",
            Word::Else => b"else",
            Word::Emit => b"emit",
            Word::False => b"false",
            Word::For => b"for",
            Word::Function => b"function",
            Word::If => b"if",
            Word::Int => b"int",
            Word::Map => b"map",
            Word::Of => b"of",
            Word::Proto => b"proto",
            Word::Return => b"return",
            Word::Some => b"some",
            Word::Static => b"static",
            Word::String => b"string",
            Word::Table => b"table",
            Word::Time => b"time",
            Word::True => b"true",
            Word::Type => b"type",
            Word::Weight => b"weight",
            Word::When => b"when",
            Word::While => b"while",
        }
    }
}

// The reserved word that is spelled so.
pub fn word_of(text: &[u8]) -> Option<Word>
    ensures { result ≡ word_of text.now }
{
    for word in WORDS {
        if word.text() == text {
            return Some(word);
        }
    }
    None
}
