//! Sums of values, by component.
ghost use Rattle.std.specs.Prelude.{◌≡◌, ◌<◌, ◌≤◌, ◌+◌, ◌+ℤ◌, ◌^◌, length, map, vec_len, IfOk, OnOk};
ghost use Rattle.sz_value.specs.Seen.{seen};
ghost use Rattle.sz_tabs.specs.Bounds.{IsWithin, AreWithin, added_at};
ghost use Rattle.sz_tabs.specs.Rows.{values_of, number_of, components_of, plus, sums_of};
ghost use Rattle.sz_tabs.specs.SeenKept.{seen_kept};

use crate::NoMemory;
use crate::plain::Kept;
use crate::sums::Sums;
use std::alloc::Global;
use sz_value::Value;

/// The sum of all values, by component.
pub(crate) fn sums_of(alloc: Global, kept: &[Kept]) -> Result<Sums, NoMemory>
    requires few { length kept.now < 2 ^ 63 }
    ensures value { IfOk result (λ sums. sums ≡ sums_of (values_of (map seen_kept kept.now))) }
{
    let mut sums = Vec::new(alloc);
    for one in kept {
        add_value(&mut sums, &one.value)?;
    }
    Ok(Sums::from_vec(sums))
}

// Adds the value's components to the sums.
fn add_value(sums: &mut Vec<i128>, value: &Value) -> Result<(), NoMemory>
    requires { AreWithin (2 ^ 126) sums.old.items }
    ensures value { OnOk result (sums.new.items ≡ plus sums.old.items (components_of (seen value.now))) }
    ensures within { OnOk result (AreWithin (2 ^ 63) (components_of (seen value.now))) }
{
    match value {
        Value::Int(_) => add_at(sums, 0, number_of(value)),
        Value::Tuple(parts) => add_parts(sums, parts.as_slice()),
        _ => Ok(()),
    }
}

// Adds a number for each part to the sums.
fn add_parts(sums: &mut Vec<i128>, parts: &[Value]) -> Result<(), NoMemory>
    requires { AreWithin (2 ^ 126) sums.old.items }
    ensures value { OnOk result (sums.new.items ≡ plus sums.old.items (map number_of (map seen parts.now))) }
    ensures within { OnOk result (AreWithin (2 ^ 63) (map number_of (map seen parts.now))) }
{
    for (at, part) in parts.iter().enumerate() {
        add_at(sums, at, number_of(part))?;
    }
    Ok(())
}

// Adds a number to the sum at a place, or puts it after the last one.
fn add_at(sums: &mut Vec<i128>, at: usize, number: i128) -> Result<(), NoMemory>
    requires place { at ≤ vec_len sums.old }
    requires within { AreWithin (2 ^ 126 + 2 ^ 63) sums.old.items }
    requires fits { IsWithin (2 ^ 63) number }
    ensures value { OnOk result (sums.new.items ≡ added_at at number sums.old.items) }
{
    if at < sums.len() {
        sums[at] = more(sums[at], number);
        return Ok(());
    }
    sums.push(number)?;
    Ok(())
}

// The sum with the number added.
fn more(sum: i128, number: i128) -> i128
    requires within { IsWithin (2 ^ 126 + 2 ^ 63) sum }
    requires fits { IsWithin (2 ^ 63) number }
    ensures value { result ≡ sum +ℤ number }
{
    sum + number
}

// The number that a value is, 0 where it is none.
fn number_of(value: &Value) -> i128
    ensures value { result ≡ number_of (seen value.now) }
    ensures within { IsWithin (2 ^ 63) result }
{
    match value {
        Value::Int(number) => i128::from(*number),
        _ => 0,
    }
}
