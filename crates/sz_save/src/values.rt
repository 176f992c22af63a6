//! The values that rows show, in order, and rows of values.
ghost use Rattle.std.specs.Prelude.{◌≡◌, ◌++◌, map, option_to_list, IfOk, OnOk};
ghost use Rattle.sz_value.specs.Order.{compare};
ghost use Rattle.sz_value.specs.Seen.{seen};
ghost use Rattle.sz_tabs.specs.Rows.{value_row};
ghost use Rattle.sz_tabs.specs.Seen.{seen_shown};
ghost use Rattle.sz_tabs.specs.Sorting.{sorted};
ghost use Rattle.sz_save.specs.Joined.{value_in, values_shown};

use std::alloc::Global;
use sz_tabs::{NoMemory, Row, RowValue, Rows};
use sz_value::{Value, copy};

// The values of both lists of rows in ascending order.
pub(crate) fn sorted_values(
    alloc: Global,
    rows: &[Row],
    others: &[Row],
) -> Result<Vec<Value>, NoMemory>
    ensures value { IfOk result (λ values. map seen values.items ≡ sorted compare (values_shown rows.now ++ values_shown others.now)) }
{
    let mut values = both_values(alloc, rows, others)?;
    values.sort()?;
    Ok(values)
}

// The values of both lists of rows.
fn both_values(alloc: Global, rows: &[Row], others: &[Row]) -> Result<Vec<Value>, NoMemory>
    ensures value { IfOk result (λ values. map seen values.items ≡ values_shown rows.now ++ values_shown others.now) }
{
    let mut values = Vec::new(alloc);
    push_values(alloc, rows, &mut values)?;
    push_values(alloc, others, &mut values)?;
    Ok(values)
}

// Appends a copy of each value that a row shows.
fn push_values(alloc: Global, rows: &[Row], values: &mut Vec<Value>) -> Result<(), NoMemory>
    ensures value { OnOk result (map seen values.new.items ≡ map seen values.old.items ++ values_shown rows.now) }
{
    for row in rows {
        push_value(alloc, &row.value, values)?;
    }
    Ok(())
}

// Appends a copy of the value, if one is shown.
fn push_value(alloc: Global, shown: &RowValue, values: &mut Vec<Value>) -> Result<(), NoMemory>
    ensures value { OnOk result (map seen values.new.items ≡ map seen values.old.items ++ option_to_list (value_in (seen_shown shown.now))) }
{
    match shown {
        RowValue::One(value) => {
            let value = copy(alloc, value)?;
            values.push(value)?;
            Ok(())
        }
        RowValue::Sums(_) | RowValue::Overflow => Ok(()),
    }
}

// A row for each value.
pub(crate) fn value_rows(alloc: Global, values: Vec<Value>) -> Result<Rows, NoMemory>
    ensures value { IfOk result (λ rows. rows ≡ map value_row (map seen values.items)) }
{
    let mut rows = Rows::new(alloc);
    for value in values {
        rows.push(Row {
            value: RowValue::One(value),
            weight: None,
        })?;
    }
    Ok(rows)
}
