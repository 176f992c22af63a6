//! Keys of fields.

ghost use Rattle.std.specs.Prelude.{◌≡◌, ◌<◌, ◌≤◌, length, drop, Some, None, IfOk, OnErr};
ghost use Rattle.sz_wire.specs.Key.{key_at};

use crate::bad::Bad;
use crate::varint::read_varint;

/// The number of a field is below this.
const NUMBERS: u64 = 1 << 29;

/// The key that begins at a place, counted from 0: a field's number, its wire type, and the place after the key.
///
/// A key is a varint, `number << 3 | wire type`, with a number from 1 to 2^29 - 1 and a wire type from 0 to 5. `Bad` comes
/// where no varint stands, or one that is no key.
#[tactic(auto, unfolding(crate::specs::Key::key_at))]
pub fn read_key(bytes: &[u8], at: usize) -> Result<(u32, u8, usize), Bad>
    requires { at ≤ length bytes.now }
    ensures found { IfOk result (λ r. key_at (drop at bytes.now) ≡ Some (record { number = r.0; wire = r.1 }, drop r.2 bytes.now)) }
    ensures forward { IfOk result (λ r. at < r.2) }
    ensures within { IfOk result (λ r. r.2 ≤ length bytes.now) }
    ensures bad { OnErr result (key_at (drop at bytes.now) ≡ None) }
{
    let (key, next) = read_varint(bytes, at)?;
    let number = key / 8;
    let wire = key % 8;
    if number == 0 || number >= NUMBERS || wire > 5 {
        return Err(Bad);
    }
    Ok((number as u32, wire as u8, next))
}
