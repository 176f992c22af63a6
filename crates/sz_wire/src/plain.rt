//! What fields hold that are no groups.

ghost use Rattle.std.specs.Prelude.{◌≡◌, ◌+◌, ◌<◌, ◌≤◌, length, drop, Some, None, IfOk, OnOk, OnErr};
ghost use Rattle.std.specs.Int.{w32, w64};
ghost use Rattle.sz_wire.specs.Field.{plain_at, span_at, fixed_at, read_as, span, content_in, LiesBefore, EndsAt};

use crate::bad::Bad;
use crate::field::WireKind;
use crate::varint::read_varint;

fn rest(bytes: &[u8], at: usize) -> &[u8]
    requires { at ≤ length bytes.now }
    ensures { result.now ≡ drop at bytes.now }
{
    &bytes[at..]
}

#[tactic(auto, unfolding(crate::specs::Field::fixed_at, crate::specs::Field::bytes_at))]
/// The number that the first eight bytes are, the low one first. `Bad` comes where there are fewer.
pub fn eight_bytes(bytes: &[u8]) -> Result<u64, Bad>
    ensures found { IfOk result (λ n. fixed_at w64 bytes.now ≡ Some (n, drop 8 bytes.now)) }
    ensures room { OnOk result (8 ≤ length bytes.now) }
    ensures bad { OnErr result (fixed_at w64 bytes.now ≡ None) }
{
    if bytes.len() < 8 {
        return Err(Bad);
    }
    let (front, _) = bytes.split_at(8);
    Ok(u64::from_le_bytes([
        front[0], front[1], front[2], front[3], front[4], front[5], front[6], front[7],
    ]))
}

#[tactic(auto, unfolding(crate::specs::Field::fixed_at, crate::specs::Field::bytes_at))]
/// The number that the first four bytes are, the low one first. `Bad` comes where there are fewer.
pub fn four_bytes(bytes: &[u8]) -> Result<u32, Bad>
    ensures found { IfOk result (λ n. fixed_at w32 bytes.now ≡ Some (n, drop 4 bytes.now)) }
    ensures room { OnOk result (4 ≤ length bytes.now) }
    ensures bad { OnErr result (fixed_at w32 bytes.now ≡ None) }
{
    if bytes.len() < 4 {
        return Err(Bad);
    }
    let (front, _) = bytes.split_at(4);
    Ok(u32::from_le_bytes([front[0], front[1], front[2], front[3]]))
}

#[tactic(auto, using(crate::proofs::PlainLemmas::span_found, crate::proofs::PlainLemmas::span_missing, crate::proofs::PlainLemmas::span_short))]
fn read_span(bytes: &[u8], at: usize) -> Result<(WireKind, usize), Bad>
    requires { at ≤ length bytes.now }
    ensures found { IfOk result (λ r. read_as span (span_at (drop at bytes.now)) ≡ Some (content_in bytes.now r.0, drop r.1 bytes.now)) }
    ensures forward { IfOk result (λ r. at ≤ r.1) }
    ensures within { IfOk result (λ r. r.1 ≤ length bytes.now) }
    ensures placed { IfOk result (λ r. LiesBefore r.1 r.0) }
    ensures end { IfOk result (λ r. EndsAt r.1 r.0) }
    ensures bad { OnErr result (span_at (drop at bytes.now) ≡ None) }
{
    let (size, from) = read_varint(bytes, at)?;
    if size > (bytes.len() - from) as u64 {
        return Err(Bad);
    }
    let to = from + size as usize;
    Ok((WireKind::Span(from, to), to))
}

/// What a field that is no group holds, by its wire type, and the place after it.
#[tactic(auto, unfolding(crate::specs::Field::plain_at))]
pub(crate) fn read_plain(bytes: &[u8], at: usize, wire: u8) -> Result<(WireKind, usize), Bad>
    requires { at ≤ length bytes.now }
    ensures found { IfOk result (λ r. plain_at wire (drop at bytes.now) ≡ Some (content_in bytes.now r.0, drop r.1 bytes.now)) }
    ensures forward { IfOk result (λ r. at ≤ r.1) }
    ensures within { IfOk result (λ r. r.1 ≤ length bytes.now) }
    ensures placed { IfOk result (λ r. LiesBefore r.1 r.0) }
    ensures end { IfOk result (λ r. EndsAt r.1 r.0) }
    ensures bad { OnErr result (plain_at wire (drop at bytes.now) ≡ None) }
{
    match wire {
        0 => {
            let (number, next) = read_varint(bytes, at)?;
            Ok((WireKind::Varint(number), next))
        }
        1 => {
            let number = eight_bytes(rest(bytes, at))?;
            Ok((WireKind::Eight(number), at + 8))
        }
        2 => read_span(bytes, at),
        5 => {
            let number = four_bytes(rest(bytes, at))?;
            Ok((WireKind::Four(number), at + 4))
        }
        _ => Err(Bad),
    }
}
