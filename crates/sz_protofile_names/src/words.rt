//! Words of a file.
ghost use Rattle.std.specs.Prelude.{◌≡◌, IfOk, option_copied};
ghost use Rattle.std.specs.Option.{is_some};
ghost use Rattle.std.specs.String.{string_bytes};
ghost use Rattle.sz_lex.specs.Lookup.{word_of};
ghost use Rattle.sz_protofile.specs.Names.{spelled, unreserved, put_after};
ghost use Rattle.sz_protofile.specs.Scalars.{scalar_of};
ghost use Rattle.sz_protofile.specs.Lookup.{behind};

use std::alloc::Global;
use sz_lex::Word;
use sz_protofile::Scalar;
use sz_protofile_lex::{Token, lexeme};
use sz_types::NoMemory;

// Each reserved word once.
const RESERVED: [Word; 30] = [
    Word::All,
    Word::Array,
    Word::Bool,
    Word::Break,
    Word::Bytes,
    Word::Continue,
    Word::Def,
    Word::Do,
    Word::Each,
    Word::Else,
    Word::Emit,
    Word::False,
    Word::For,
    Word::Function,
    Word::If,
    Word::Int,
    Word::Map,
    Word::Of,
    Word::Proto,
    Word::Return,
    Word::Some,
    Word::Static,
    Word::String,
    Word::Table,
    Word::Time,
    Word::True,
    Word::Type,
    Word::Weight,
    Word::When,
    Word::While,
];

// Each scalar once.
const SCALARS: [Scalar; 15] = [
    Scalar::Double,
    Scalar::Float,
    Scalar::Int32,
    Scalar::Int64,
    Scalar::Uint32,
    Scalar::Uint64,
    Scalar::Sint32,
    Scalar::Sint64,
    Scalar::Fixed32,
    Scalar::Fixed64,
    Scalar::Sfixed32,
    Scalar::Sfixed64,
    Scalar::Bool,
    Scalar::String,
    Scalar::Bytes,
];

/// How a word of the file is spelled.
pub fn spelled<'t>(bytes: &'t [u8], token: &Token) -> &'t str
    ensures value { result.now ≡ spelled bytes.now token.now }
{
    match str::from_utf8(lexeme(bytes, token)) {
        Ok(text) => text,
        Err(_) => "",
    }
}

// Whether programs have it as a reserved word.
fn is_reserved(name: &str) -> bool
    ensures value { result ≡ is_some (word_of name.now) }
{
    for word in RESERVED {
        if word.text() == name.as_bytes() {
            return true;
        }
    }
    false
}

/// The name as programs see it: a reserved word of theirs gets an underscore more.
pub fn unreserved(alloc: Global, name: &str) -> Result<String, NoMemory>
    ensures value { IfOk result (λ made. string_bytes made ≡ unreserved name.now) }
{
    let mut made = String::from_str(alloc, name)?;
    if is_reserved(name) {
        made.push_str("_")?;
    }
    Ok(made)
}

/// The scalar that is spelled so.
pub fn scalar_of(word: &str) -> Option<Scalar>
    ensures value { result ≡ scalar_of word.now }
{
    for scalar in SCALARS {
        if scalar.text() == word {
            return Some(scalar);
        }
    }
    None
}

// A name behind others, with the mark between if there are any.
pub fn put_after(alloc: Global, mark: &str, before: &str, name: &str) -> Result<String, NoMemory>
    ensures value { IfOk result (λ made. string_bytes made ≡ put_after mark.now before.now name.now) }
{
    if before.is_empty() {
        return String::from_str(alloc, name);
    }
    let mut made = String::from_str(alloc, before)?;
    made.push_str(mark)?;
    made.push_str(name)?;
    Ok(made)
}

// What is left of a word behind this front, if it begins so.
pub fn behind<'t>(front: &str, word: &'t str) -> Option<&'t str>
    ensures value { option_copied result ≡ behind front.now word.now }
{
    word.strip_prefix(front)
}
