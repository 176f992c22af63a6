//! Varints.

ghost use Rattle.std.specs.Prelude.{◌≡◌, ◌<◌, ◌≤◌, length, drop, Some, None, IfOk, OnErr};
ghost use Rattle.sz_wire.specs.Varint.{varint_at};

use crate::bad::Bad;

/// A varint has at most this many bytes.
const MOST_BYTES: usize = 10;

/// The varint that begins at a place, counted from 0, and the place after it.
///
/// A varint has seven bits in each byte, the low ones first, and the top bit says that a byte follows. Bits past 64 are
/// dropped. `Bad` comes where the bytes end before the varint does, or its tenth byte has its top bit set.
#[tactic(auto, using(crate::proofs::VarintLemmas::starts_read, crate::proofs::VarintLemmas::last_byte, crate::proofs::VarintLemmas::more_bytes, crate::proofs::VarintLemmas::bytes_end, crate::proofs::VarintLemmas::too_long))]
pub fn read_varint(bytes: &[u8], at: usize) -> Result<(u64, usize), Bad>
    requires { at ≤ length bytes.now }
    ensures found { IfOk result (λ r. varint_at (drop at bytes.now) ≡ Some (r.0, drop r.1 bytes.now)) }
    ensures forward { IfOk result (λ r. at < r.1) }
    ensures within { IfOk result (λ r. r.1 ≤ length bytes.now) }
    ensures bad { OnErr result (varint_at (drop at bytes.now) ≡ None) }
{
    let mut value: u64 = 0;
    let mut weight: u64 = 1;
    for i in 0..MOST_BYTES {
        if at + i >= bytes.len() {
            return Err(Bad);
        }
        let byte = bytes[at + i];
        value = value.wrapping_add(u64::from(byte % 128).wrapping_mul(weight));
        if byte < 128 {
            return Ok((value, at + i + 1));
        }
        weight = weight.wrapping_mul(128);
    }
    Err(Bad)
}
