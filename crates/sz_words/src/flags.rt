//! The flags among the words after a command: the options that stand without a value.
ghost use Rattle.std.specs.Prelude.{◌≡◌, map, string_bytes, IfOk};
ghost use Rattle.sz_words.specs.Flags.{flag_named, flag_of, takes_value, standing_after, plain_words, flags_in};

use std::alloc::{AllocError, Global};

/// An option that stands without a value.
#[derive(Clone, Copy)]
pub enum Flag {
    /// `--ignore-undefs`
    IgnoreUndefs,
    /// `--save`
    Save,
}

/// How a word after a command stands.
#[derive(Clone, Copy)]
pub enum Standing {
    /// Where an option may.
    Free,
    /// Where the value of an option does.
    Value,
    /// Behind `--`.
    Ended,
}

/// The words after a command, with the flags apart from the others.
pub struct Apart {
    /// The flags, in order.
    pub flags: Vec<Flag>,
    /// The other words, in order.
    pub plain: Vec<String>,
}

impl Drop for Apart {
    fn drop(self) {
        let Apart { flags: _, plain: _ } = self;
    }
}

/// The flags among the words after a command, and the other words.
pub fn flags_apart(alloc: Global, words: &[String]) -> Result<Apart, AllocError>
    ensures flags { IfOk result (λ apart. apart.flags.items ≡ flags_in (map string_bytes words.now)) }
    ensures plain { IfOk result (λ apart. map string_bytes apart.plain.items ≡ plain_words (map string_bytes words.now)) }
{
    let mut flags = Vec::new(alloc);
    let mut plain = Vec::new(alloc);
    let mut at = Standing::Free;
    for word in words {
        match flag_of(at, word) {
            Some(flag) => flags.push(flag)?,
            None => plain.push(String::from_str(alloc, word)?)?,
        }
        at = standing_after(at, word);
    }
    Ok(Apart { flags, plain })
}

// The flag that the word is.
fn flag_of(at: Standing, word: &str) -> Option<Flag>
    ensures value { result ≡ flag_of at word.now }
{
    match at {
        Standing::Free => flag_named(word),
        Standing::Value => None,
        Standing::Ended => None,
    }
}

// The flag that the word names.
fn flag_named(word: &str) -> Option<Flag>
    ensures value { result ≡ flag_named word.now }
{
    match word {
        "--ignore-undefs" => Some(Flag::IgnoreUndefs),
        "--save" => Some(Flag::Save),
        _ => None,
    }
}

// How the word after this one stands.
fn standing_after(at: Standing, word: &str) -> Standing
    ensures value { result ≡ standing_after at word.now }
{
    match at {
        Standing::Free if word == "--" => Standing::Ended,
        Standing::Free if takes_value(word) => Standing::Value,
        Standing::Free => Standing::Free,
        Standing::Value => Standing::Free,
        Standing::Ended => Standing::Ended,
    }
}

// Whether the value of an option follows the word, where an option may stand.
fn takes_value(word: &str) -> bool
    ensures value { result ≡ takes_value word.now }
{
    match word.as_bytes() {
        [b'-', b'-', text @ ..] => flag_named(word).is_none() && !text.contains(&b'='),
        _ => false,
    }
}
