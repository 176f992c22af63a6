//! Numbers and strings, read from the front of bytes.
ghost use Rattle.std.specs.Prelude.{◌≡◌, ◌≤◌, ◌*◌, length, take};
ghost use Rattle.std.specs.Int.{w32, w64, to_be_bytes};
ghost use Rattle.sz_save_format.specs.Decoding.{Reads, length_at, byte_at, string_at};
ghost use Rattle.sz_save_format.specs.DecodingRows.{count_at, number_at, wide_at};

use crate::error::SavedError;

// The byte in front.
pub(crate) fn read_byte(flat: &[u8]) -> Result<(u8, &[u8]), SavedError>
    ensures value { Reads (λ r. (r.0, r.1.now)) (byte_at flat.now) result }
{
    let [byte, rest @ ..] = flat else {
        return Err(SavedError::NotSaved);
    };
    Ok((*byte, rest))
}

/// The length in front, of 4 bytes.
#[tactic(auto, using(crate::proofs::NumberLemmas::length_found, crate::proofs::NumberLemmas::length_lacked))]
pub fn read_length(flat: &[u8]) -> Result<(u32, &[u8]), SavedError>
    ensures value { Reads (λ r. (r.0, r.1.now)) (length_at flat.now) result }
{
    if flat.len() < 4 {
        return Err(SavedError::NotSaved);
    }
    let (front, rest) = flat.split_at(4);
    Ok((length_of(front), rest))
}

// The length that 4 bytes are.
fn length_of(front: &[u8]) -> u32
    requires { length front.now ≡ 4 }
    ensures value { to_be_bytes w32 result ≡ take 4 front.now }
{
    u32::from_be_bytes([front[0], front[1], front[2], front[3]])
}

/// The count in front, of 8 bytes.
#[tactic(auto, using(crate::proofs::NumberLemmas::count_found, crate::proofs::NumberLemmas::count_lacked))]
pub fn read_count(flat: &[u8]) -> Result<(u64, &[u8]), SavedError>
    ensures value { Reads (λ r. (r.0, r.1.now)) (count_at flat.now) result }
{
    if flat.len() < 8 {
        return Err(SavedError::NotSaved);
    }
    let (front, rest) = flat.split_at(8);
    Ok((count_of(front), rest))
}

// The count that 8 bytes are.
fn count_of(front: &[u8]) -> u64
    requires { length front.now ≡ 8 }
    ensures value { to_be_bytes w64 result ≡ take 8 front.now }
{
    u64::from_be_bytes([
        front[0], front[1], front[2], front[3], front[4], front[5], front[6], front[7],
    ])
}

// The number in front, of 8 bytes.
#[tactic(auto, unfolding(crate::specs::DecodingRows::number_at))]
pub(crate) fn read_number(flat: &[u8]) -> Result<(i64, &[u8]), SavedError>
    ensures value { Reads (λ r. (r.0, r.1.now)) (number_at flat.now) result }
{
    let (bits, rest) = read_count(flat)?;
    Ok((bits.cast_signed(), rest))
}

// The 128 bits in front.
#[tactic(auto, unfolding(crate::specs::DecodingRows::wide_at))]
pub(crate) fn read_wide(flat: &[u8]) -> Result<(u128, &[u8]), SavedError>
    ensures value { Reads (λ r. (r.0, r.1.now)) (wide_at flat.now) result }
{
    let (high, middle) = read_count(flat)?;
    let (low, rest) = read_count(middle)?;
    Ok((high as u128 * (1 << 64) + low as u128, rest))
}

// The bytes in front, behind their number.
#[tactic(auto, unfolding(crate::specs::Decoding::string_at))]
pub(crate) fn read_string(flat: &[u8]) -> Result<(&[u8], &[u8]), SavedError>
    ensures value { Reads (λ r. (r.0.now, r.1.now)) (string_at flat.now) result }
{
    let (length, rest) = read_length(flat)?;
    let length = length as usize;
    if length > rest.len() {
        return Err(SavedError::NotSaved);
    }
    Ok(rest.split_at(length))
}

// How many items to take room for, of which the bytes claim so many and each has at least so many bytes: never more than the bytes can hold.
pub(crate) fn room_for(count: u64, least: usize, flat: &[u8]) -> usize
    requires some { 1 ≤ least }
    ensures claimed { result ≤ count }
    ensures held { result * least ≤ length flat.now }
{
    let most = flat.len() / least;
    if count < most as u64 {
        count as usize
    } else {
        most
    }
}
