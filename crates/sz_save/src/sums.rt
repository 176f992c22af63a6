//! Sums that are added.
ghost use Rattle.std.specs.Prelude.{◌≡◌, ◌+ℤ◌, ◌^◌, length, None};
ghost use Rattle.sz_tabs.specs.Bounds.{IsWithin, AreWithin};
ghost use Rattle.sz_tabs.specs.Rows.{plus};
ghost use Rattle.sz_tabs.specs.Seen.{seen_shown};
ghost use Rattle.sz_tabs.specs.Data.{sums};
ghost use Rattle.sz_save.specs.Joined.{sums_in, joined_sums};
ghost use Rattle.sz_save.specs.Walk.{CanAdd};

use std::alloc::Global;
use sz_tabs::{Row, RowValue, Rows, Sums};

// The row of both sums, where both sides have one. It is the row of the one side, to which those of the other are added.
pub(crate) fn join_sums(alloc: Global, rows: Rows, others: Rows) -> Rows
    requires can { CanAdd rows others }
    ensures value { result ≡ joined_sums rows others }
{
    if rows.is_empty() {
        return others;
    }
    let [other, ..] = others.as_slice() else {
        return rows;
    };
    let mut rows = rows;
    let row = rows.replace(0, no_row());
    rows.set(0, added_row(alloc, row, sums_in(&other.value)));
    rows.truncate(1);
    rows
}

// A row that stands where another was taken.
fn no_row() -> Row {
    Row {
        value: RowValue::Overflow,
        weight: None,
    }
}

// The row with these sums added to its own.
fn added_row(alloc: Global, row: Row, others: &[i128]) -> Row
    requires as_many { length others.now ≡ length (sums_in row.shown) }
    requires within { AreWithin (2 ^ 126) (sums_in row.shown) }
    requires others { AreWithin (2 ^ 126) others.now }
    requires fits { AreWithin (2 ^ 126) (plus (sums_in row.shown) others.now) }
    ensures value { result ≡ record { shown = sums (plus (sums_in row.shown) others.now); weight = None } }
{
    let mut added = row;
    match &mut added.value {
        RowValue::Sums(sums) => add_sums(sums, others),
        RowValue::One(_) | RowValue::Overflow => added.value = RowValue::Sums(Sums::new(alloc)),
    }
    added.weight = None;
    added
}

// The sums that are shown.
fn sums_in(shown: &RowValue) -> &[i128]
    ensures value { result.now ≡ sums_in (seen_shown shown.now) }
{
    match shown {
        RowValue::Sums(sums) => sums.as_slice(),
        RowValue::One(_) | RowValue::Overflow => &[],
    }
}

// Adds the sums of the other side, component by component.
fn add_sums(sums: &mut Sums, others: &[i128])
    requires as_many { length others.now ≡ length sums.old }
    requires within { AreWithin (2 ^ 126) sums.old }
    requires others { AreWithin (2 ^ 126) others.now }
    requires fits { AreWithin (2 ^ 126) (plus sums.old others.now) }
    ensures value { sums.new ≡ plus sums.old others.now }
{
    for i in 0..sums.len() {
        let sum = both(*sums.get(i), others[i]);
        sums.set(i, sum);
    }
}

// The sum of both numbers.
fn both(number: i128, other: i128) -> i128
    requires fits { IsWithin (2 ^ 126) (number +ℤ other) }
    ensures value { result ≡ number +ℤ other }
{
    number + other
}
