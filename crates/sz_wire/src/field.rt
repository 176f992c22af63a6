//! Fields of a message.

ghost use Rattle.std.specs.Prelude.{◌≡◌, ◌<◌, ◌≤◌, ◌↔◌, length, drop, Option, Some, None, Ok, IfOk, IfSome, OnErr};
ghost use Rattle.sz_wire.specs.Field.{value_at, field_at, content_in, field_in, LiesBefore, EndsAt};

use crate::bad::Bad;
use crate::group::{DEEPEST, GROUP_START, after_group};
use crate::key::read_key;
use crate::plain::read_plain;

/// A field that was found, and the place after it. Places are counted from 0.
#[derive(Clone, Copy, Debug, PartialEq, Eq)]
pub struct WireField {
    /// From 1 to 2^29 - 1.
    pub number: u32,
    pub kind: WireKind,
    /// Where the next field begins, or the length of the bytes.
    pub next: usize,
}

/// What a field holds, by its wire type.
#[derive(Clone, Copy, Debug, PartialEq, Eq)]
pub enum WireKind {
    /// Wire type 0.
    Varint(u64),
    /// Wire type 1: eight bytes, the low one first.
    Eight(u64),
    /// Wire type 5: four bytes, the low one first.
    Four(u32),
    /// Wire type 2: the place of the first byte, and the place after the last.
    Span(usize, usize),
    /// Wire types 3 and 4: a group, which ends in front of the next field.
    Group,
}

#[tactic(auto, unfolding(crate::specs::Field::value_at))]
fn read_value(
    bytes: &[u8],
    at: usize,
    number: u32,
    wire: u8,
    depth: u32,
) -> Result<(WireKind, usize), Bad>
    requires { at ≤ length bytes.now }
    ensures found { IfOk result (λ r. value_at depth (record { number = number; wire = wire }) (drop at bytes.now)
        ≡ Some (content_in bytes.now r.0, drop r.1 bytes.now)) }
    ensures forward { IfOk result (λ r. at ≤ r.1) }
    ensures within { IfOk result (λ r. r.1 ≤ length bytes.now) }
    ensures placed { IfOk result (λ r. LiesBefore r.1 r.0) }
    ensures end { IfOk result (λ r. EndsAt r.1 r.0) }
    ensures bad { OnErr result (value_at depth (record { number = number; wire = wire }) (drop at bytes.now) ≡ None) }
{
    if wire != GROUP_START {
        return read_plain(bytes, at, wire);
    }
    if depth >= DEEPEST {
        return Err(Bad);
    }
    let next = after_group(bytes, at, number, depth + 1)?;
    Ok((WireKind::Group, next))
}

/// The field that begins at a place, or `None` exactly where the place is the end of the bytes.
///
/// `depth` is the level of the message, and 1 is that of the outer one. A group is one level deeper than what it lies in, and
/// none is deeper than 100. `Bad` comes where no key stands, the bytes end before the field does, a group has no end with its
/// own number, an end has no group, or a group is too deep.
#[tactic(auto, unfolding(crate::specs::Field::field_at))]
pub fn next_field(bytes: &[u8], at: usize, depth: u32) -> Result<Option<WireField>, Bad>
    requires { at ≤ length bytes.now }
    ensures none { result ≡ Ok None ↔ at ≡ length bytes.now }
    ensures found { IfOk result (λ r. IfSome r (λ f. field_at depth (drop at bytes.now) ≡ Some (field_in bytes.now f, drop f.next bytes.now))) }
    ensures forward { IfOk result (λ r. IfSome r (λ f. at < f.next)) }
    ensures within { IfOk result (λ r. IfSome r (λ f. f.next ≤ length bytes.now)) }
    ensures placed { IfOk result (λ r. IfSome r (λ f. LiesBefore f.next f.kind)) }
    // With `found`, which tells how many bytes a payload has, this fixes where it begins.
    ensures end { IfOk result (λ r. IfSome r (λ f. EndsAt f.next f.kind)) }
    ensures bad { OnErr result (field_at depth (drop at bytes.now) ≡ None) }
{
    if at == bytes.len() {
        return Ok(None);
    }
    let (number, wire, from) = read_key(bytes, at)?;
    let (kind, next) = read_value(bytes, from, number, wire, depth)?;
    Ok(Some(WireField { number, kind, next }))
}
