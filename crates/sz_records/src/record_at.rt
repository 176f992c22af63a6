//! What stands where a record begins.

ghost use Rattle.std.specs.Prelude.{◌≡◌, ℕ, ◌+◌, ◌-◌, ◌≤◌, drop, length};
ghost use Rattle.sz_records.specs.Cutting.{line_len, line_standing, length_standing, frame_standing, standing};
ghost use Rattle.sz_records.specs.Steps.{IsScanned};
ghost use Rattle.sz_records.specs.Fronts.{standing_in, IsWithin, IsCounted};
ghost use Rattle.sz_wire.specs.Varint.{varint_at};

use crate::ending::Ending;
use crate::limits::FrameLimits;
use memchr::memchr;
use sz_types::Frame;
use sz_wire::read_varint;

/// What stands where a record begins.
#[derive(Clone, Copy, Debug)]
pub(crate) enum Front {
    /// A record: the place of its first byte, the place after its last, and how many bytes it takes, with its length or newline.
    Record(usize, usize, usize),
    /// The ending.
    Stopped(Ending),
    /// The beginning of a record, or nothing.
    Unfinished,
}

/// The bytes from a place on.
pub(crate) fn rest(bytes: &[u8], at: usize) -> &[u8]
    requires { at ≤ length bytes.now }
    ensures { result.now ≡ drop at bytes.now }
{
    &bytes[at..]
}

// How many bytes are before the first newline, or before the end.
fn line_len(bytes: &[u8]) -> usize
    ensures value { result ≡ line_len bytes.now }
    ensures within { result ≤ length bytes.now }
{
    memchr(b'\n', bytes).unwrap_or(bytes.len())
}

// The same where the first bytes are known to be no newlines.
#[tactic(auto, using(crate::proofs::ScanLemmas::line_len_within))]
fn line_len_from(bytes: &[u8], scanned: usize) -> usize
    requires scanned { scanned ≤ line_len bytes.now }
    ensures value { result ≡ line_len bytes.now }
    ensures within { result ≤ length bytes.now }
{
    scanned + line_len(rest(bytes, scanned))
}

#[tactic(auto, unfolding(crate::specs::Cutting::line_standing))]
fn line_front(limits: FrameLimits, place: u64, bytes: &[u8], scanned: usize) -> Front
    requires place { place ≤ limits.input_bytes }
    requires scanned { scanned ≤ line_len bytes.now }
    ensures value { standing_in bytes.now result ≡ line_standing limits place bytes.now }
    ensures within { IsWithin (limits.input_bytes - place) (length bytes.now) result }
{
    let len = line_len_from(bytes, scanned);
    let ends = len < bytes.len();
    let size = if ends { len + 1 } else { len };
    if len as u64 > limits.record_bytes || size as u64 > limits.input_bytes - place {
        return Front::Stopped(Ending::Limit(place));
    }
    if ends {
        Front::Record(0, len, size)
    } else {
        Front::Unfinished
    }
}

#[tactic(auto, unfolding(crate::specs::Cutting::length_standing, crate::specs::Cutting::sized_standing))]
fn delimited_front(limits: FrameLimits, place: u64, bytes: &[u8]) -> Front
    requires { place ≤ limits.input_bytes }
    ensures value { standing_in bytes.now result ≡ length_standing limits place bytes.now (varint_at bytes.now) }
    ensures within { IsWithin (limits.input_bytes - place) (length bytes.now) result }
{
    let Ok((len, from)) = read_varint(bytes, 0) else {
        return if bytes.len() < 10 {
            Front::Unfinished
        } else {
            Front::Stopped(Ending::Damaged(place))
        };
    };
    let size = from as u128 + len as u128;
    if len > limits.record_bytes || size > (limits.input_bytes - place) as u128 {
        return Front::Stopped(Ending::Limit(place));
    }
    if len > (bytes.len() - from) as u64 {
        return Front::Unfinished;
    }
    let to = from + len as usize;
    Front::Record(from, to, to)
}

/// What stands at a place of the file, after so many records. Where records are lines, the first `scanned` bytes are no newlines.
#[tactic(auto, unfolding(crate::specs::Cutting::frame_standing), using(crate::proofs::StandingLemmas::counted, crate::proofs::StandingLemmas::nothing_stands, crate::proofs::StandingLemmas::too_many, crate::proofs::StandingLemmas::by_frame))]
pub(crate) fn found_at(
    frame: Frame,
    limits: FrameLimits,
    place: u64,
    count: u64,
    bytes: &[u8],
    scanned: usize,
) -> Front
    requires place { place ≤ limits.input_bytes }
    requires scanned { IsScanned frame bytes.now scanned }
    ensures value { standing_in bytes.now result ≡ standing frame limits place count bytes.now }
    ensures counted { IsCounted count limits.records result }
    ensures within { IsWithin (limits.input_bytes - place) (length bytes.now) result }
{
    if bytes.is_empty() {
        return Front::Unfinished;
    }
    if count >= limits.records {
        return Front::Stopped(Ending::Limit(place));
    }
    match frame {
        Frame::Lines => line_front(limits, place, bytes, scanned),
        Frame::Delimited => delimited_front(limits, place, bytes),
    }
}
