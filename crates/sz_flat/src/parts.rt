//! What values are made of, read from the front of bytes: lengths, numbers, and bytes after their number.
ghost use Rattle.std.specs.Prelude.{◌≡◌, IsTrue, ◌↔◌, length, take, IfErr};
ghost use Rattle.std.specs.Int.{w32, w64, cast_signed, from_be_bytes};
ghost use Rattle.sz_value.specs.Order.{KeysRise};
ghost use Rattle.sz_value.specs.Seen.{seen_pairs};
ghost use Rattle.sz_flat.specs.declared.error.FlatError.TheVariants as errors;
ghost use Rattle.sz_flat.specs.Reading.{Reads, lengths, numbers, strings};

use crate::error::FlatError;
use sz_value::{Pair, order};

// The length in front.
pub(crate) fn read_length(flat: &[u8]) -> Result<(u32, &[u8]), FlatError>
    ensures value { Reads lengths (λ r. r.0) (λ r. r.1.now) flat.now result }
    ensures err { IfErr result (λ e. e ≡ errors.NotFlat) }
{
    if flat.len() < 4 {
        return Err(FlatError::NotFlat);
    }
    let (front, rest) = flat.split_at(4);
    Ok((length_of(front), rest))
}

// The length that 4 bytes are.
fn length_of(front: &[u8]) -> u32
    requires { length front.now ≡ 4 }
    ensures value { result ≡ from_be_bytes w32 (take 4 front.now) }
{
    u32::from_be_bytes([front[0], front[1], front[2], front[3]])
}

// The number in front.
pub(crate) fn read_number(flat: &[u8]) -> Result<(i64, &[u8]), FlatError>
    ensures value { Reads numbers (λ r. r.0) (λ r. r.1.now) flat.now result }
    ensures err { IfErr result (λ e. e ≡ errors.NotFlat) }
{
    if flat.len() < 8 {
        return Err(FlatError::NotFlat);
    }
    let (front, rest) = flat.split_at(8);
    Ok((number_of(front), rest))
}

// The number that 8 bytes are.
fn number_of(front: &[u8]) -> i64
    requires { length front.now ≡ 8 }
    ensures value { result ≡ cast_signed w64 (from_be_bytes w64 (take 8 front.now)) }
{
    i64::from_be_bytes([
        front[0], front[1], front[2], front[3], front[4], front[5], front[6], front[7],
    ])
}

// The bytes in front, after their number.
pub(crate) fn read_string(flat: &[u8]) -> Result<(&[u8], &[u8]), FlatError>
    ensures value { Reads strings (λ r. r.0.now) (λ r. r.1.now) flat.now result }
    ensures err { IfErr result (λ e. e ≡ errors.NotFlat) }
{
    let (length, rest) = read_length(flat)?;
    let length = length as usize;
    if rest.len() < length {
        return Err(FlatError::NotFlat);
    }
    Ok(rest.split_at(length))
}

// Whether each key is less than the one after it.
pub(crate) fn keys_rise(pairs: &[Pair]) -> bool
    ensures value { IsTrue result ↔ KeysRise (seen_pairs pairs.now) }
{
    for i in 1..pairs.len() {
        if !order(&pairs[i - 1].key, &pairs[i].key).is_lt() {
            return false;
        }
    }
    true
}
