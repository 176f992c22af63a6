//! Values and sums that are added to sums, component by component.
ghost use Rattle.std.specs.Prelude.{◌≡◌, ◌≤◌, ◌^◌, length, map};
ghost use Rattle.sz_types.specs.Seen as types;
ghost use Rattle.sz_value.specs.Seen.{seen};
ghost use Rattle.sz_tabs.specs.Bounds.{IsWithin, AreWithin};
ghost use Rattle.sz_tabs.specs.Rows.{number_of, components_of, plus};
ghost use Rattle.sz_sum.specs.Data.{width};

use crate::numbers::Numbers;
use sz_types::Ty;
use sz_value::Value;

// How many components the sum of values of a type has.
#[tactic(auto, using(sz_types::proofs::ForCallers::seen_bool, sz_types::proofs::ForCallers::seen_time, sz_types::proofs::ForCallers::seen_str, sz_types::proofs::ForCallers::seen_bytes, sz_types::proofs::ForCallers::seen_array, sz_types::proofs::ForCallers::seen_map))]
pub(crate) fn width_of(ty: &Ty) -> usize
    ensures value { result ≡ width (types.seen ty.now) }
{
    match ty {
        Ty::Int => 1,
        Ty::Tuple(fields) => fields.len(),
        Ty::Proto(fields) => fields.len(),
        Ty::Bool | Ty::Time | Ty::Str | Ty::Bytes | Ty::Array(_) | Ty::Map(_, _) => 0,
    }
}

// Adds the value's components to the sums.
pub(crate) fn add_value(sums: &mut Numbers, value: &Value)
    requires room { length (components_of (seen value.now)) ≤ length sums.old }
    requires within { AreWithin (2 ^ 126) sums.old }
    ensures value { sums.new ≡ plus sums.old (components_of (seen value.now)) }
    ensures within { AreWithin (2 ^ 63) (components_of (seen value.now)) }
{
    match value {
        Value::Int(_) => sums.add_at(0, number_of(value)),
        Value::Tuple(parts) => add_parts(sums, parts.as_slice()),
        _ => {}
    }
}

// Adds a number for each part to the sums.
fn add_parts(sums: &mut Numbers, parts: &[Value])
    requires room { length parts.now ≤ length sums.old }
    requires within { AreWithin (2 ^ 126) sums.old }
    ensures value { sums.new ≡ plus sums.old (map number_of (map seen parts.now)) }
    ensures within { AreWithin (2 ^ 63) (map number_of (map seen parts.now)) }
{
    for (at, part) in parts.iter().enumerate() {
        sums.add_at(at, number_of(part));
    }
}

// Adds other sums to the sums.
pub(crate) fn add_sums(sums: &mut Numbers, more: &[i128])
    requires room { length more.now ≤ length sums.old }
    requires within { AreWithin (2 ^ 126) sums.old }
    requires more { AreWithin (2 ^ 126) more.now }
    requires fits { AreWithin (2 ^ 126) (plus sums.old more.now) }
    ensures value { sums.new ≡ plus sums.old more.now }
{
    for (at, number) in more.iter().enumerate() {
        sums.add_at(at, *number);
    }
}

// The number that a value is, 0 where it is none.
fn number_of(value: &Value) -> i128
    ensures value { result ≡ number_of (seen value.now) }
    ensures within { IsWithin (2 ^ 63) result }
{
    match value {
        Value::Int(number) => i128::from(*number),
        _ => 0,
    }
}
