//! The rows of a list of emits, made from the whole list.
ghost use Rattle.std.specs.Prelude.{◌≡◌, ◌<◌, ◌^◌, ◌∷◌, [], length, map, take, IfOk};
ghost use Rattle.sz_types.specs.SeenTables.{seen_table};
ghost use Rattle.sz_value.specs.Order.{compare};
ghost use Rattle.sz_value.specs.Seen.{seen};
ghost use Rattle.sz_tabs.specs.Rows.{rows_of, values_of, value_row, overflow_row, set_rows, weighted_row, least_first, greatest_first, sum_rows, sums_of};
ghost use Rattle.sz_tabs.specs.Sorting.{sorted, distinct};
ghost use Rattle.sz_tabs.specs.SeenKept.{seen_kept, seen_least, seen_greatest};

use crate::NoMemory;
use crate::adding::sums_of;
use crate::plain::Kept;
use crate::row::{Row, RowValue, Rows};
use std::alloc::Global;
use std::cmp::Reverse;
use sz_types::{TableDecl, TableKind};
use sz_value::{Value, copy};

/// The rows that a table with this declaration has of these emits.
pub(crate) fn rows_of(alloc: Global, table: &TableDecl, kept: &[Kept]) -> Result<Rows, NoMemory>
    requires few { length kept.now < 2 ^ 63 }
    ensures value { IfOk result (λ rows. rows ≡ rows_of (seen_table table.now) (map seen_kept kept.now)) }
{
    match table.kind {
        TableKind::Sum => rows_of_sum(alloc, kept),
        TableKind::Maximum => rows_of_maximum(alloc, table.limit, kept),
        TableKind::Minimum => rows_of_minimum(alloc, table.limit, kept),
        TableKind::Set => rows_of_set(alloc, table.limit, kept),
        TableKind::Collection => rows_of_collection(alloc, kept),
    }
}

// The row of sums, if there is a value.
fn rows_of_sum(alloc: Global, kept: &[Kept]) -> Result<Rows, NoMemory>
    requires few { length kept.now < 2 ^ 63 }
    ensures value { IfOk result (λ rows. rows ≡ sum_rows (values_of (map seen_kept kept.now))) }
{
    let mut rows = Rows::new(alloc);
    if !kept.is_empty() {
        let sums = sums_of(alloc, kept)?;
        rows.push(Row {
            value: RowValue::Sums(sums),
            weight: None,
        })?;
    }
    Ok(rows)
}

// The rows of a table that keeps those of the greatest weights.
fn rows_of_maximum(alloc: Global, limit: u32, kept: &[Kept]) -> Result<Rows, NoMemory>
    ensures value { IfOk result (λ rows. rows ≡ map weighted_row (take limit (sorted greatest_first (map seen_kept kept.now)))) }
{
    let mut greatest = by_greatest(alloc, kept)?;
    greatest.truncate(limit as usize);
    rows_by_greatest(alloc, greatest)
}

// The rows of a table that keeps those of the least weights.
fn rows_of_minimum(alloc: Global, limit: u32, kept: &[Kept]) -> Result<Rows, NoMemory>
    ensures value { IfOk result (λ rows. rows ≡ map weighted_row (take limit (sorted least_first (map seen_kept kept.now)))) }
{
    let mut least = by_least(alloc, kept)?;
    least.truncate(limit as usize);
    rows_by_least(alloc, least)
}

// The rows of a table that keeps the distinct values.
fn rows_of_set(alloc: Global, limit: u32, kept: &[Kept]) -> Result<Rows, NoMemory>
    ensures value { IfOk result (λ rows. rows ≡ set_rows limit (distinct compare (values_of (map seen_kept kept.now)))) }
{
    let mut values = sorted_values(alloc, kept)?;
    values.dedup();
    if values.len() > limit as usize {
        return overflow_rows(alloc);
    }
    value_rows(alloc, values)
}

// The rows of a table that keeps all values.
fn rows_of_collection(alloc: Global, kept: &[Kept]) -> Result<Rows, NoMemory>
    ensures value { IfOk result (λ rows. rows ≡ map value_row (sorted compare (values_of (map seen_kept kept.now)))) }
{
    let values = sorted_values(alloc, kept)?;
    value_rows(alloc, values)
}

// The row of a set that has more values than it can hold.
fn overflow_rows(alloc: Global) -> Result<Rows, NoMemory>
    ensures value { IfOk result (λ rows. rows ≡ overflow_row ∷ []) }
{
    let mut rows = Rows::new(alloc);
    rows.push(Row {
        value: RowValue::Overflow,
        weight: None,
    })?;
    Ok(rows)
}

// A row for each value.
fn value_rows(alloc: Global, values: Vec<Value>) -> Result<Rows, NoMemory>
    ensures value { IfOk result (λ rows. rows ≡ map value_row (map seen values.items)) }
{
    let mut rows = Rows::new(alloc);
    for value in values {
        rows.push(Row {
            value: RowValue::One(value),
            weight: None,
        })?;
    }
    Ok(rows)
}

// The values in ascending order.
fn sorted_values(alloc: Global, kept: &[Kept]) -> Result<Vec<Value>, NoMemory>
    ensures value { IfOk result (λ values. map seen values.items ≡ sorted compare (values_of (map seen_kept kept.now))) }
{
    let mut values = copied_values(alloc, kept)?;
    values.sort()?;
    Ok(values)
}

// A copy of each value.
fn copied_values(alloc: Global, kept: &[Kept]) -> Result<Vec<Value>, NoMemory>
    ensures value { IfOk result (λ values. map seen values.items ≡ values_of (map seen_kept kept.now)) }
{
    let mut values = Vec::with_capacity(alloc, kept.len())?;
    for one in kept {
        values.push(copy(alloc, &one.value)?)?;
    }
    Ok(values)
}

// The greatest weight first, and of equal weights the lesser value.
fn by_greatest(alloc: Global, kept: &[Kept]) -> Result<Vec<(Reverse<Option<i64>>, Value)>, NoMemory>
    ensures value { IfOk result (λ ranked. map seen_greatest ranked.items ≡ sorted greatest_first (map seen_kept kept.now)) }
{
    let mut falling = copied_for_greatest(alloc, kept)?;
    falling.sort()?;
    Ok(falling)
}

// A copy of each value after its weight turned round.
fn copied_for_greatest(
    alloc: Global,
    kept: &[Kept],
) -> Result<Vec<(Reverse<Option<i64>>, Value)>, NoMemory>
    ensures value { IfOk result (λ copied. map seen_greatest copied.items ≡ map seen_kept kept.now) }
{
    let mut copied = Vec::with_capacity(alloc, kept.len())?;
    for one in kept {
        let value = copy(alloc, &one.value)?;
        copied.push((Reverse(one.weight), value))?;
    }
    Ok(copied)
}

// A row for each value with its weight.
fn rows_by_greatest(
    alloc: Global,
    greatest: Vec<(Reverse<Option<i64>>, Value)>,
) -> Result<Rows, NoMemory>
    ensures value { IfOk result (λ rows. rows ≡ map weighted_row (map seen_greatest greatest.items)) }
{
    let mut rows = Rows::new(alloc);
    for (Reverse(weight), value) in greatest {
        rows.push(Row {
            value: RowValue::One(value),
            weight,
        })?;
    }
    Ok(rows)
}

// The least weight first, and of equal weights the lesser value.
fn by_least(alloc: Global, kept: &[Kept]) -> Result<Vec<(Option<i64>, Value)>, NoMemory>
    ensures value { IfOk result (λ ranked. map seen_least ranked.items ≡ sorted least_first (map seen_kept kept.now)) }
{
    let mut rising = copied_for_least(alloc, kept)?;
    rising.sort()?;
    Ok(rising)
}

// A copy of each value after its weight.
fn copied_for_least(alloc: Global, kept: &[Kept]) -> Result<Vec<(Option<i64>, Value)>, NoMemory>
    ensures value { IfOk result (λ copied. map seen_least copied.items ≡ map seen_kept kept.now) }
{
    let mut copied = Vec::with_capacity(alloc, kept.len())?;
    for one in kept {
        let value = copy(alloc, &one.value)?;
        copied.push((one.weight, value))?;
    }
    Ok(copied)
}

// A row for each value with its weight.
fn rows_by_least(alloc: Global, least: Vec<(Option<i64>, Value)>) -> Result<Rows, NoMemory>
    ensures value { IfOk result (λ rows. rows ≡ map weighted_row (map seen_least least.items)) }
{
    let mut rows = Rows::new(alloc);
    for (weight, value) in least {
        rows.push(Row {
            value: RowValue::One(value),
            weight,
        })?;
    }
    Ok(rows)
}
