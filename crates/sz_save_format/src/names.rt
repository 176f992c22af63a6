//! Names, read from the front of bytes.
ghost use Rattle.std.specs.Prelude.{◌≡◌, is_some};
ghost use Rattle.sz_lex.specs.Classes as classes;
ghost use Rattle.sz_lex.specs.Lookup.{word_of};
ghost use Rattle.sz_lex.specs.Tokens.{all_word};
ghost use Rattle.sz_save_format.specs.Decoding as decoding;
ghost use Rattle.sz_save_format.specs.Decoding.{Reads, name_at};

use crate::error::SavedError;
use crate::numbers::read_string;
use std::alloc::Global;
use sz_lex::Word;
use sz_types::Text;

// Each reserved word once.
const WORDS: [Word; 30] = [
    Word::All,
    Word::Array,
    Word::Bool,
    Word::Break,
    Word::Bytes,
    Word::Continue,
    Word::Def,
    Word::Do,
    Word::Each,
    Word::Else,
    Word::Emit,
    Word::False,
    Word::For,
    Word::Function,
    Word::If,
    Word::Int,
    Word::Map,
    Word::Of,
    Word::Proto,
    Word::Return,
    Word::Some,
    Word::Static,
    Word::String,
    Word::Table,
    Word::Time,
    Word::True,
    Word::Type,
    Word::Weight,
    Word::When,
    Word::While,
];

// The name in front.
#[tactic(auto, unfolding(crate::specs::Decoding::name_at), using(crate::proofs::NameLemmas::name_is_utf8))]
pub(crate) fn read_name(alloc: Global, flat: &[u8]) -> Result<(Text, &[u8]), SavedError>
    ensures value { Reads (λ r. (r.0, r.1.now)) (name_at flat.now) result }
{
    let (bytes, rest) = read_string(flat)?;
    if !is_name(bytes) {
        return Err(SavedError::NotSaved);
    }
    match str::from_utf8(bytes) {
        Ok(name) => Ok((Text::from_str(alloc, name)?, rest)),
        Err(_) => Err(SavedError::NotSaved),
    }
}

// Whether the bytes are those of a name.
#[tactic(auto, unfolding(crate::specs::Decoding::is_name))]
fn is_name(bytes: &[u8]) -> bool
    ensures value { result ≡ decoding.is_name bytes.now }
{
    let [first, rest @ ..] = bytes else {
        return false;
    };
    is_letter(*first) && are_word_bytes(rest) && !is_reserved(bytes)
}

// Whether each byte may stand in a name.
fn are_word_bytes(bytes: &[u8]) -> bool
    ensures value { result ≡ all_word bytes.now }
{
    for byte in bytes {
        if !is_letter(*byte) && !is_digit(*byte) {
            return false;
        }
    }
    true
}

fn is_letter(byte: u8) -> bool
    ensures { result ≡ classes.is_letter byte }
{
    b'A' <= byte && byte <= b'Z' || b'a' <= byte && byte <= b'z' || byte == b'_'
}

fn is_digit(byte: u8) -> bool
    ensures { result ≡ classes.is_digit byte }
{
    b'0' <= byte && byte <= b'9'
}

// Whether the bytes are those of a reserved word.
fn is_reserved(bytes: &[u8]) -> bool
    ensures value { result ≡ is_some (word_of bytes.now) }
{
    for word in WORDS {
        if word.text() == bytes {
            return true;
        }
    }
    false
}
