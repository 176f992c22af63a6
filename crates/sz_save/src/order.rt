//! The order of rows and of index lists.
ghost use Rattle.std.specs.Prelude.{◌≡◌, Some, None};
ghost use Rattle.std.specs.Option.{option_cmp};
ghost use Rattle.sz_value.specs.Order.{compare};
ghost use Rattle.sz_value.specs.Seen.{seen};
ghost use Rattle.sz_tabs.specs.Rows.{compare_indexes};
ghost use Rattle.sz_tabs.specs.Seen.{seen_shown};
ghost use Rattle.sz_save.specs.Joined.{value_in, greatest_rows, least_rows};

use std::cmp::Ordering;
use sz_tabs::{Row, RowValue};
use sz_value::{List, Value, order};

// The greatest weight first, and of equal weights the lesser value.
pub(crate) fn greatest_first(one: &Row, other: &Row) -> Ordering
    ensures value { result ≡ greatest_rows one.now other.now }
{
    other
        .weight
        .cmp(&one.weight)
        .then(order_shown(&one.value, &other.value))
}

// The least weight first, and of equal weights the lesser value.
pub(crate) fn least_first(one: &Row, other: &Row) -> Ordering
    ensures value { result ≡ least_rows one.now other.now }
{
    one.weight
        .cmp(&other.weight)
        .then(order_shown(&one.value, &other.value))
}

// How the values that two rows show compare; none is less than any.
fn order_shown(one: &RowValue, other: &RowValue) -> Ordering
    ensures value { result ≡ option_cmp compare (value_in (seen_shown one.now)) (value_in (seen_shown other.now)) }
{
    match one {
        RowValue::One(value) => order_value(value, other),
        RowValue::Sums(_) | RowValue::Overflow => order_none(other),
    }
}

// How a value compares with that of a row.
fn order_value(value: &Value, other: &RowValue) -> Ordering
    ensures value { result ≡ option_cmp compare (Some (seen value.now)) (value_in (seen_shown other.now)) }
{
    match other {
        RowValue::One(other) => order(value, other),
        RowValue::Sums(_) | RowValue::Overflow => Ordering::Greater,
    }
}

// How no value compares with that of a row.
fn order_none(other: &RowValue) -> Ordering
    ensures value { result ≡ option_cmp compare None (value_in (seen_shown other.now)) }
{
    match other {
        RowValue::One(_) => Ordering::Less,
        RowValue::Sums(_) | RowValue::Overflow => Ordering::Equal,
    }
}

// How two index lists compare.
pub(crate) fn order_lists(one: &List, other: &List) -> Ordering
    ensures value { result ≡ compare_indexes one.now other.now }
{
    one.as_slice().cmp(&other.as_slice())
}
