//! The rows of what is kept, in order.
ghost use Rattle.std.specs.Prelude.{◌≡◌, ◌++◌, ◌∷◌, [], map, replicate, IfOk, OnOk};
ghost use Rattle.sz_types.specs.SeenTables.{seen_table};
ghost use Rattle.sz_value.specs.Order.{compare};
ghost use Rattle.sz_value.specs.Seen.{seen};
ghost use Rattle.sz_tabs.specs.Rows.{rows_of, value_row, overflow_row};
ghost use Rattle.sz_tabs.specs.Sorting.{sorted};
ghost use Rattle.sz_members.specs.Kept.{IsOfMembers};
ghost use Rattle.sz_members.specs.Repeats.{seen_repeated, emits_tallied, AllCame};
ghost use Rattle.sz_members.specs.Showing.{times_shown, shown_of, seen_ref};

use crate::counting::{Tally, is_full};
use std::alloc::Global;
use sz_tabs::{NoMemory, Row, RowValue, Rows};
use sz_types::{TableDecl, TableKind};
use sz_value::{Value, copy};

// The rows of the values that are kept.
pub(crate) fn rows_of(alloc: Global, table: &TableDecl, tally: &Tally) -> Result<Rows, NoMemory>
    requires kind { IsOfMembers (seen_table table.now).kind }
    requires came { AllCame tally.now.entries }
    ensures value { IfOk result (λ rows. rows ≡ rows_of (seen_table table.now) (emits_tallied tally.now.entries)) }
{
    if is_full(table, tally) {
        return overflow_rows(alloc);
    }
    let values = in_order(alloc, table.kind, tally)?;
    row_by_row(alloc, values)
}

// The row of a set that has more values than it can hold.
fn overflow_rows(alloc: Global) -> Result<Rows, NoMemory>
    ensures value { IfOk result (λ rows. rows ≡ overflow_row ∷ []) }
{
    let mut rows = Rows::with_capacity(alloc, 1)?;
    rows.push(Row {
        value: RowValue::Overflow,
        weight: None,
    })?;
    Ok(rows)
}

// A row for each value.
fn row_by_row(alloc: Global, values: Vec<&Value>) -> Result<Rows, NoMemory>
    ensures value { IfOk result (λ rows. rows ≡ map value_row (map seen_ref values.entry.items)) }
{
    let mut rows = Rows::with_capacity(alloc, values.len())?;
    for value in values {
        let value = copy(alloc, value)?;
        rows.push(Row {
            value: RowValue::One(value),
            weight: None,
        })?;
    }
    Ok(rows)
}

// The values that rows show, in ascending order.
fn in_order<'h>(
    alloc: Global,
    kind: TableKind,
    tally: &'h Tally,
) -> Result<Vec<&'h Value>, NoMemory>
    ensures value { IfOk result (λ made. map seen_ref made.items ≡ sorted compare (shown_of kind (map seen_repeated tally.now.entries))) }
{
    let mut made = all_shown(alloc, kind, tally)?;
    made.sort()?;
    Ok(made)
}

// The values that rows show: those of a set once, and those of a collection as often as they came.
fn all_shown<'h>(
    alloc: Global,
    kind: TableKind,
    tally: &'h Tally,
) -> Result<Vec<&'h Value>, NoMemory>
    ensures value { IfOk result (λ made. map seen_ref made.items ≡ shown_of kind (map seen_repeated tally.now.entries)) }
{
    let mut made = Vec::new(alloc);
    for (value, repeats) in tally {
        push_times(&mut made, value, times_shown(kind, *repeats))?;
    }
    Ok(made)
}

// How often a value is shown that came so many times.
fn times_shown(kind: TableKind, repeats: u64) -> u64
    ensures value { result ≡ times_shown kind repeats }
{
    match kind {
        TableKind::Set => 1,
        TableKind::Sum | TableKind::Maximum | TableKind::Minimum | TableKind::Collection => repeats,
    }
}

// Appends the value so many times.
fn push_times<'h>(made: &mut Vec<&'h Value>, value: &'h Value, times: u64) -> Result<(), NoMemory>
    ensures ok { OnOk result (map seen_ref made.new.items ≡ map seen_ref made.old.items ++ replicate times (seen value.now)) }
{
    for _ in 0..times {
        made.push(value)?;
    }
    Ok(())
}
