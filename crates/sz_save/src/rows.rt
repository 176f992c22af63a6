//! The rows of both sides under one index list.
ghost use Rattle.std.specs.Prelude.{◌≡◌, ◌++◌, ◌∷◌, [], map, take, IfOk};
ghost use Rattle.sz_value.specs.Order.{compare};
ghost use Rattle.sz_value.specs.Seen.{seen};
ghost use Rattle.sz_tabs.specs.Rows.{value_row, overflow_row, set_rows};
ghost use Rattle.sz_tabs.specs.Sorting.{sorted};
ghost use Rattle.sz_save_format.specs.Entries as format;
ghost use Rattle.sz_save.specs.Joined.{values_shown, greatest_rows, least_rows, joined_sets, joined_rows};
ghost use Rattle.sz_save.specs.Walk.{RowsCanJoin};

use crate::order::{greatest_first, least_first};
use crate::sums::join_sums;
use crate::values::{sorted_values, value_rows};
use std::alloc::Global;
use sz_tabs::{NoMemory, Row, RowValue, Rows};
use sz_types::TableKind;
use sz_value::Value;

// The rows of both sides, of a table of a kind and a limit.
pub(crate) fn join_rows(
    alloc: Global,
    kind: TableKind,
    limit: u32,
    rows: Rows,
    others: Rows,
) -> Result<Rows, NoMemory>
    requires can { RowsCanJoin kind rows others }
    ensures value { IfOk result (λ joined. joined ≡ joined_rows kind limit rows others) }
{
    match kind {
        TableKind::Sum => Ok(join_sums(alloc, rows, others)),
        TableKind::Maximum => join_maximum(limit, rows, others),
        TableKind::Minimum => join_minimum(limit, rows, others),
        TableKind::Set => join_sets(alloc, limit, rows.as_slice(), others.as_slice()),
        TableKind::Collection => join_collections(alloc, rows.as_slice(), others.as_slice()),
    }
}

// The rows of both sides, one side behind the other.
fn both_rows(rows: Rows, others: Rows) -> Result<Vec<Row>, NoMemory>
    ensures value { IfOk result (λ both. both.items ≡ rows ++ others) }
{
    let mut both = rows;
    both.append(others)?;
    Ok(both.into_vec())
}

// The rows of the greatest weights.
fn join_maximum(limit: u32, rows: Rows, others: Rows) -> Result<Rows, NoMemory>
    ensures value { IfOk result (λ joined. joined ≡ take limit (sorted greatest_rows (rows ++ others))) }
{
    let mut both = both_rows(rows, others)?;
    both.sort_by(|one, other| greatest_first(one, other))?;
    both.truncate(limit as usize);
    Ok(Rows::from_vec(both))
}

// The rows of the least weights.
fn join_minimum(limit: u32, rows: Rows, others: Rows) -> Result<Rows, NoMemory>
    ensures value { IfOk result (λ joined. joined ≡ take limit (sorted least_rows (rows ++ others))) }
{
    let mut both = both_rows(rows, others)?;
    both.sort_by(|one, other| least_first(one, other))?;
    both.truncate(limit as usize);
    Ok(Rows::from_vec(both))
}

// The rows of a set, which has too many values where either side has.
fn join_sets(alloc: Global, limit: u32, rows: &[Row], others: &[Row]) -> Result<Rows, NoMemory>
    ensures value { IfOk result (λ joined. joined ≡ joined_sets limit rows.now others.now) }
{
    if overflows(rows) || overflows(others) {
        return overflow_rows(alloc);
    }
    let mut values = sorted_values(alloc, rows, others)?;
    values.dedup();
    distinct_rows(alloc, limit, values)
}

// The rows of distinct values, or the one of too many.
fn distinct_rows(alloc: Global, limit: u32, values: Vec<Value>) -> Result<Rows, NoMemory>
    ensures value { IfOk result (λ rows. rows ≡ set_rows limit (map seen values.items)) }
{
    if values.len() > limit as usize {
        return overflow_rows(alloc);
    }
    value_rows(alloc, values)
}

// All values of both sides.
fn join_collections(alloc: Global, rows: &[Row], others: &[Row]) -> Result<Rows, NoMemory>
    ensures value { IfOk result (λ joined. joined ≡ map value_row (sorted compare (values_shown rows.now ++ values_shown others.now))) }
{
    value_rows(alloc, sorted_values(alloc, rows, others)?)
}

// Whether the first row says that a set has too many values.
fn overflows(rows: &[Row]) -> bool
    ensures value { result ≡ format.overflows rows.now }
{
    match rows {
        [] => false,
        [row, ..] => matches!(&row.value, RowValue::Overflow),
    }
}

// The row of a set with too many values.
fn overflow_rows(alloc: Global) -> Result<Rows, NoMemory>
    ensures value { IfOk result (λ rows. rows ≡ overflow_row ∷ []) }
{
    let row = Row {
        value: RowValue::Overflow,
        weight: None,
    };
    Ok(Rows::from_vec(vec![in alloc; row]?))
}
