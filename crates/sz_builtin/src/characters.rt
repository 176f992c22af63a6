//! Texts by characters.
ghost use Rattle.std.specs.Prelude.{◌≡◌, ◌+◌, ◌≤◌, ◌<◌, ◌^◌, length, take, drop, slice_get, chars, encode_utf8_all, IfSome, IfNone};
ghost use Rattle.std.specs.Str.{IsCharBoundary};
ghost use Rattle.sz_builtin.specs.Letters.{letters_of};

use crate::letters::Letters;
use sz_value::{Text, rest_after};

/// The character at a place, or none where the text ends before it.
#[tactic(auto, using(crate::proofs::CharacterLemmas::character_after))]
pub fn character_at(text: &Text, place: u64) -> Option<char>
    ensures value { result ≡ slice_get (chars text.now) place }
{
    text.rest_after(place)?.chars().next()
}

/// The `count` characters after the first `skip`, or none where the text has fewer.
#[tactic(auto, using(sz_value::proofs::ForCallers::fewer_after, crate::proofs::CharacterLemmas::characters_between, crate::proofs::CharacterLemmas::within_text, crate::proofs::CharacterLemmas::cut_between))]
pub fn characters_from(text: &Text, skip: u64, count: u64) -> Option<&str>
    ensures some { IfSome result (λ part. part.now ≡ encode_utf8_all (take count (drop skip (chars text.now)))) }
    ensures within { IfSome result (λ part. skip + count ≤ length (chars text.now)) }
    ensures none { IfNone result (length (chars text.now) < skip + count) }
{
    let tail = text.rest_after(skip)?;
    let rest = rest_after(tail, count)?;
    Some(&tail[..tail.len() - rest.len()])
}

/// The number of characters.
#[tactic(auto, using(crate::proofs::CharacterLemmas::ascii_length))]
pub fn letters_count(text: &Letters<'_>) -> usize
    ensures value { result ≡ length (chars (letters_of text.now)) }
    ensures small { result < 2 ^ 63 }
{
    match text {
        Letters::Kept(text) => character_count(text),
        Letters::Ascii(text) => text.octets.len(),
    }
}

// The number of characters. Those of an ASCII text are its bytes, and aren't counted.
#[tactic(auto, using(crate::proofs::CharacterLemmas::ascii_length))]
fn character_count(text: &Text) -> usize
    ensures value { result ≡ length (chars text.now) }
    ensures small { result < 2 ^ 63 }
{
    if text.is_ascii() {
        text.as_str().as_bytes().len()
    } else {
        text.character_count()
    }
}

/// The number of characters before a place of the text's bytes, which in an ASCII text is the place itself.
#[tactic(auto, using(crate::proofs::CharacterLemmas::ascii_before))]
pub fn characters_before(text: &Letters<'_>, at: usize) -> usize
    requires cut { IsCharBoundary (letters_of text.now) at }
    ensures value { result ≡ length (chars (take at (letters_of text.now))) }
    ensures small { result < 2 ^ 63 }
{
    if text.is_ascii() && at <= text.octets().len() {
        at
    } else {
        sz_value::character_count(&text.as_str()[..at])
    }
}
