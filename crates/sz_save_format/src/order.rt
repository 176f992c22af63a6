//! The order of rows and of index lists.
ghost use Rattle.std.specs.Prelude.{◌≡◌};
ghost use Rattle.std.specs.Option.{option_cmp};
ghost use Rattle.std.specs.Ordering.{int_cmp, ordering_then};
ghost use Rattle.sz_value.specs.Order.{compare};
ghost use Rattle.sz_value.specs.Seen.{seen};
ghost use Rattle.sz_tabs.specs.Rows.{compare_indexes};
ghost use Rattle.sz_save_format.specs.Entries as rules;
ghost use Rattle.sz_save_format.specs.Entries.{in_order, row_may_follow, entry_may_follow};

use std::cmp::Ordering;
use sz_tabs::{Row, RowValue};
use sz_total::IndexedRows;
use sz_types::TableKind;
use sz_value::{List, Value, order};

// Whether each row may stand behind the one before it.
pub(crate) fn rows_in_order(kind: TableKind, rows: &[Row]) -> bool
    ensures value { result ≡ in_order (row_may_follow kind) rows.now }
{
    for i in 1..rows.len() {
        if !row_may_follow(kind, &rows[i - 1], &rows[i]) {
            return false;
        }
    }
    true
}

// Whether a row of a value may stand behind another.
fn row_may_follow(kind: TableKind, earlier: &Row, later: &Row) -> bool
    ensures value { result ≡ row_may_follow kind earlier.now later.now }
{
    match (&earlier.value, &later.value) {
        (RowValue::One(one), RowValue::One(other)) => {
            may_follow(kind, one, earlier.weight, other, later.weight)
        }
        _ => false,
    }
}

// Whether of two values, each with its weight, the second may stand behind the first.
fn may_follow(
    kind: TableKind,
    one: &Value,
    weight: Option<i64>,
    other: &Value,
    other_weight: Option<i64>,
) -> bool
    ensures value { result ≡ rules.may_follow kind (record { value = seen one.now; weight = weight })
        (record { value = seen other.now; weight = other_weight }) }
{
    match kind {
        TableKind::Sum => true,
        TableKind::Maximum => !ranked(other_weight, weight, one, other).is_gt(),
        TableKind::Minimum => !ranked(weight, other_weight, one, other).is_gt(),
        TableKind::Set => order(one, other).is_lt(),
        TableKind::Collection => !order(one, other).is_gt(),
    }
}

// How two weights compare, and where they are equal two values.
fn ranked(first: Option<i64>, second: Option<i64>, one: &Value, other: &Value) -> Ordering
    ensures value { result ≡ ordering_then (option_cmp int_cmp first second) (compare (seen one.now) (seen other.now)) }
{
    first.cmp(&second).then(order(one, other))
}

// Whether each index list is above the one before it.
pub(crate) fn entries_rise(entries: &[IndexedRows]) -> bool
    ensures value { result ≡ in_order entry_may_follow entries.now }
{
    for i in 1..entries.len() {
        let earlier = &entries[i - 1];
        let later = &entries[i];
        if !order_lists(&earlier.indexes, &later.indexes).is_lt() {
            return false;
        }
    }
    true
}

// How two index lists compare.
fn order_lists(one: &List, other: &List) -> Ordering
    ensures value { result ≡ compare_indexes one.now other.now }
{
    one.as_slice().cmp(&other.as_slice())
}
