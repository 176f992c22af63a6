//! Groups, which are passed over.

ghost use Rattle.std.specs.Prelude.{◌≡◌, ℕ, ◌-◌, ◌<◌, ◌≤◌, length, drop, Some, None, IfOk, OnErr};
ghost use Rattle.sz_wire.specs.Field.{group_end, value_end};

use crate::bad::Bad;
use crate::key::read_key;
use crate::plain::read_plain;

/// The greatest level of a message or a group.
pub(crate) const DEEPEST: u32 = 100;

/// The wire type at which a group begins.
pub(crate) const GROUP_START: u8 = 3;

/// The wire type at which a group ends.
const GROUP_END: u8 = 4;

/// The place after the value of a field in a group of this level.
#[cycle(group)]
#[tactic(auto, unfolding(crate::specs::Field::value_end))]
fn after_value(bytes: &[u8], at: usize, number: u32, wire: u8, depth: u32) -> Result<usize, Bad>
    requires place { at ≤ length bytes.now }
    requires level { depth ≤ 100 }
    ensures found { (turns : ℕ) → length bytes.now - at ≤ turns
        → IfOk result (λ next. value_end (group_end turns) (100 - depth) (record { number = number; wire = wire }) (drop at bytes.now)
        ≡ Some (drop next bytes.now)) }
    ensures forward { IfOk result (λ next. at ≤ next) }
    ensures within { IfOk result (λ next. next ≤ length bytes.now) }
    ensures bad { (turns : ℕ) → length bytes.now - at ≤ turns
        → OnErr result (value_end (group_end turns) (100 - depth) (record { number = number; wire = wire }) (drop at bytes.now)
        ≡ None) }
{
    if wire != GROUP_START {
        let (_, next) = read_plain(bytes, at, wire)?;
        return Ok(next);
    }
    if depth >= DEEPEST {
        return Err(Bad);
    }
    after_group(bytes, at, number, depth + 1)
}

/// The place after the end of the group with this number, of whose fields the first begins at a place. `depth` is the level of
/// the group.
#[cycle(group)]
pub(crate) fn after_group(bytes: &[u8], at: usize, number: u32, depth: u32) -> Result<usize, Bad>
    requires place { at ≤ length bytes.now }
    requires level { depth ≤ 100 }
    ensures found { (turns : ℕ) → length bytes.now - at ≤ turns
        → IfOk result (λ next. group_end turns (100 - depth) number (drop at bytes.now) ≡ Some (drop next bytes.now)) }
    ensures forward { IfOk result (λ next. at ≤ next) }
    ensures within { IfOk result (λ next. next ≤ length bytes.now) }
    ensures bad { (turns : ℕ) → length bytes.now - at ≤ turns
        → OnErr result (group_end turns (100 - depth) number (drop at bytes.now) ≡ None) }
{
    let mut place = at;
    while place < bytes.len() {
        let (inner, wire, after) = read_key(bytes, place)?;
        if wire == GROUP_END {
            return if inner == number { Ok(after) } else { Err(Bad) };
        }
        place = after_value(bytes, after, inner, wire, depth)?;
    }
    Err(Bad)
}
