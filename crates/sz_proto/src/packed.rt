//! Packed elements: whole numbers one after another.
ghost use Rattle.std.specs.Prelude.{◌≡◌, ◌<◌, ◌≤◌, ℤ, ℕ, length, drop, Option, Some, None, IfOk, IfSome, IfNone};
ghost use Rattle.std.specs.Option.{option_map};
ghost use Rattle.std.specs.Global.{Vec};
ghost use Rattle.sz_proto.specs.Elements.{packed_at, packed_within};

use crate::NoMemory;
use crate::numbers::{from_eight, from_four, from_varint};
use std::alloc::Global;
use sz_types::Encoding;
use sz_wire::{eight_bytes, four_bytes, read_varint};

fn rest(bytes: &[u8], at: usize) -> &[u8]
    requires { at ≤ length bytes.now }
    ensures { result.now ≡ drop at bytes.now }
{
    &bytes[at..]
}

/// The packed element at a place, and the place after it, if one is there.
fn packed_at(code: Encoding, bytes: &[u8], at: usize) -> Option<(i64, usize)>
    requires place { at ≤ length bytes.now }
    ensures some { IfSome result (λ r. packed_at code (drop at bytes.now) ≡ Some (r.0, drop r.1 bytes.now)) }
    ensures forward { IfSome result (λ r. at < r.1) }
    ensures within { IfSome result (λ r. r.1 ≤ length bytes.now) }
    ensures none { IfNone result (packed_at code (drop at bytes.now) ≡ None) }
{
    match code {
        Encoding::Fixed32 => {
            let Ok(number) = four_bytes(rest(bytes, at)) else {
                return None;
            };
            Some((from_four(number), at + 4))
        }
        Encoding::Fixed64 => {
            let Ok(number) = eight_bytes(rest(bytes, at)) else {
                return None;
            };
            Some((from_eight(number), at + 8))
        }
        Encoding::Plain | Encoding::Zigzag => {
            let Ok((number, next)) = read_varint(bytes, at) else {
                return None;
            };
            Some((from_varint(code, number), next))
        }
    }
}

/// The packed elements that these bytes are, if they are some.
pub(crate) fn packed(
    alloc: Global,
    code: Encoding,
    bytes: &[u8],
) -> Result<Option<Vec<i64>>, NoMemory>
    ensures value { IfOk result (λ found. option_map (λ (v : Vec ℤ). v.items) found ≡ packed_within (length bytes.now) code bytes.now) }
{
    let mut numbers = Vec::new(alloc);
    let mut at = 0;
    while at < bytes.len() {
        match packed_at(code, bytes, at) {
            Some((number, next)) => {
                numbers.push(number)?;
                at = next;
            }
            None => return Ok(None),
        }
    }
    Ok(Some(numbers))
}
