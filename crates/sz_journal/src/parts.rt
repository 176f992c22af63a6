//! The parts of a job, read from the front of bytes.
ghost use Rattle.std.specs.Prelude.{◌≡◌};
ghost use Rattle.sz_save_format.specs.Decoding.{length_at, counted_at};
ghost use Rattle.sz_journal.specs.EntryReading as reading;
ghost use Rattle.sz_journal.specs.EntryReading.{Reads, mark_at, meant_at, triple_at, text_at};

use crate::entry_error::EntryError;
use crate::job::{Numbers, Triple, Triples};
use crate::numbers::{read_byte, read_count, read_short};
use crate::writing::MARK;
use std::alloc::Global;
use sz_types::Frame;
use sz_value::Octets;

// What stands behind the mark.
#[tactic(auto, unfolding(crate::specs::EntryReading::mark_at))]
pub(crate) fn read_mark(flat: &[u8]) -> Result<&[u8], EntryError>
    ensures value { Reads (λ r. (0, r.now)) (mark_at flat.now) result }
{
    if flat.len() < 8 {
        return Err(EntryError::NotEntry);
    }
    let (front, rest) = flat.split_at(8);
    if front != MARK {
        return Err(EntryError::NotEntry);
    }
    Ok(rest)
}

// The way in front to tell records apart.
#[tactic(auto, unfolding(crate::specs::EntryReading::meant_at))]
pub(crate) fn read_frame(flat: &[u8]) -> Result<(Frame, &[u8]), EntryError>
    ensures value { Reads (λ r. (r.0, r.1.now)) (meant_at reading.frame_in flat.now) result }
{
    let (byte, rest) = read_byte(flat)?;
    match frame_in(byte) {
        Some(frame) => Ok((frame, rest)),
        None => Err(EntryError::NotEntry),
    }
}

// The way to tell records apart with a byte.
fn frame_in(byte: u8) -> Option<Frame>
    ensures value { result ≡ reading.frame_in byte }
{
    match byte {
        0 => Some(Frame::Lines),
        1 => Some(Frame::Delimited),
        _ => None,
    }
}

// The truth value in front.
#[tactic(auto, unfolding(crate::specs::EntryReading::meant_at))]
pub(crate) fn read_flag(flat: &[u8]) -> Result<(bool, &[u8]), EntryError>
    ensures value { Reads (λ r. (r.0, r.1.now)) (meant_at reading.flag_in flat.now) result }
{
    let (byte, rest) = read_byte(flat)?;
    match flag_in(byte) {
        Some(flag) => Ok((flag, rest)),
        None => Err(EntryError::NotEntry),
    }
}

// The truth value with a byte.
fn flag_in(byte: u8) -> Option<bool>
    ensures value { result ≡ reading.flag_in byte }
{
    match byte {
        0 => Some(false),
        1 => Some(true),
        _ => None,
    }
}

// The attempts in front that die, behind their number.
#[tactic(auto, unfolding(sz_save_format::specs::Decoding::counted_at))]
pub(crate) fn read_kills(alloc: Global, flat: &[u8]) -> Result<(Triples, &[u8]), EntryError>
    ensures value { Reads (λ r. (r.0, r.1.now)) (counted_at triple_at flat.now) result }
{
    let (count, mut rest) = read_short(flat)?;
    let mut kills = Triples::new(alloc);
    for _ in 0..count {
        let (kill, after) = read_triple(rest)?;
        kills.push(kill)?;
        rest = after;
    }
    Ok((kills, rest))
}

// The attempt in front that dies.
#[tactic(auto, unfolding(crate::specs::EntryReading::triple_at))]
fn read_triple(flat: &[u8]) -> Result<(Triple, &[u8]), EntryError>
    ensures value { Reads (λ r. (r.0, r.1.now)) (triple_at flat.now) result }
{
    let (shard, rest) = read_short(flat)?;
    let (number, rest) = read_short(rest)?;
    let (after, rest) = read_short(rest)?;
    Ok((
        Triple {
            shard,
            number,
            after,
        },
        rest,
    ))
}

// The numbers of shards in front, behind their number.
#[tactic(auto, unfolding(sz_save_format::specs::Decoding::counted_at))]
pub(crate) fn read_doubled(alloc: Global, flat: &[u8]) -> Result<(Numbers, &[u8]), EntryError>
    ensures value { Reads (λ r. (r.0, r.1.now)) (counted_at length_at flat.now) result }
{
    let (count, mut rest) = read_short(flat)?;
    let mut shards = Numbers::new(alloc);
    for _ in 0..count {
        let (shard, after) = read_short(rest)?;
        shards.push(shard)?;
        rest = after;
    }
    Ok((shards, rest))
}

// The text in front, behind its length.
#[tactic(auto, unfolding(crate::specs::EntryReading::text_at))]
pub(crate) fn read_text(alloc: Global, flat: &[u8]) -> Result<(Octets, &[u8]), EntryError>
    ensures value { Reads (λ r. (r.0, r.1.now)) (text_at flat.now) result }
{
    let (count, rest) = read_count(flat)?;
    if count > rest.len() as u64 {
        return Err(EntryError::NotEntry);
    }
    let (text, rest) = rest.split_at(count as usize);
    Ok((Octets::from_slice(alloc, text)?, rest))
}
