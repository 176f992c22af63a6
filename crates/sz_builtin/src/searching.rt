//! Searches of a string or a byte string in another.
ghost use Rattle.std.specs.Prelude.{◌≡◌, ◌<◌, ◌^◌, IfSome, Some, chars};
ghost use Rattle.sz_value.specs.Data.{bytes, int};
ghost use Rattle.sz_value.specs.Seen.{seen_slot};
ghost use Rattle.sz_builtin.specs.Predeclared.{strfind, first_place, place};
ghost use Rattle.sz_builtin.specs.Letters.{letters_of};
ghost use Rattle.sz_builtin.specs.Views.{seen_view};

use crate::characters::characters_before;
use crate::letters::Letters;
use crate::view::{Kind, View};
use memchr::{memchr, memmem};
use sz_value::{Slot, Value};

/// The first place of a string or a byte string in another, counted from 0, in characters or in bytes, or -1.
pub fn strfind(needle: &View<'_>, hay: &View<'_>) -> Slot
    ensures value { seen_slot result ≡ strfind (seen_view needle.now) (seen_view hay.now) }
{
    match (needle.kind(), hay.kind()) {
        (Kind::Str(needle), Kind::Str(hay)) => {
            Slot::Defined(Value::Int(place(text_place(&needle, &hay))))
        }
        (Kind::Bytes(needle), Kind::Bytes(hay)) => {
            Slot::Defined(Value::Int(place_of_bytes(needle, hay)))
        }
        _ => Slot::Undefined,
    }
}

/// What `strfind` gives for bytes in others, which is a number always: the first place, counted from 0, or -1.
pub fn place_of_bytes(needle: &[u8], hay: &[u8]) -> i64
    ensures value { Some (int result) ≡ strfind (bytes needle.now) (bytes hay.now) }
{
    place(byte_place(needle, hay))
}

// A place as a number.
fn place(found: Option<usize>) -> i64
    requires small { IfSome found (λ at. at < 2 ^ 63) }
    ensures value { int result ≡ place found }
{
    match found {
        Some(at) => at as i64,
        None => -1,
    }
}

// The first place of bytes in others. One byte alone is looked for as such, which needs no preparation.
fn byte_place(needle: &[u8], hay: &[u8]) -> Option<usize>
    ensures value { result ≡ first_place needle.now hay.now }
    ensures small { IfSome result (λ at. at < 2 ^ 63) }
{
    match needle {
        [byte] => memchr(*byte, hay),
        _ => memmem::find(hay, needle),
    }
}

// The first place of a text in another, counted in characters.
fn text_place(needle: &Letters<'_>, hay: &Letters<'_>) -> Option<usize>
    ensures value { result ≡ first_place (chars (letters_of needle.now)) (chars (letters_of hay.now)) }
    ensures small { IfSome result (λ at. at < 2 ^ 63) }
{
    match memmem::find(hay.octets(), needle.octets()) {
        Some(at) => Some(characters_before(hay, at)),
        None => None,
    }
}
